// What can be wrong with an image, and where.
ghost use Rattle.std.specs.Prelude.{◌≡◌};
ghost use Rattle.image.specs.declared.fault.ImageFault.TheVariants.{Element, Kind};
ghost use Rattle.image.specs.Faults.{number_of_fault, byte_of_fault};

use element::fault::ElementFault;
use element::kind::UnknownKind;

// An element's fault, with the place of its row and the first byte of that row.
#[derive(Clone, Copy, PartialEq, Eq, Debug)]
pub struct BadElement {
    pub place: u32,
    pub byte: u32,
    pub fault: ElementFault,
}

#[derive(Clone, Copy, PartialEq, Eq, Debug)]
pub enum ImageFault {
    Length,
    Kind,
    Span,
    Held,
    Head,
    Offset,
    Total,
    Element(BadElement),
}

impl ImageFault {
    // No discriminant: two faults share a number, and one carries what it found.
    pub fn number(self) -> u32
        ensures { result ≡ number_of_fault self }
    {
        match self {
            ImageFault::Length => 14,
            ImageFault::Kind => 15,
            ImageFault::Span => 16,
            ImageFault::Held | ImageFault::Head => 17,
            ImageFault::Offset | ImageFault::Total => 18,
            ImageFault::Element(_) => 19,
        }
    }

    // The first byte of what is at fault, which is where that stands and no number of the fault.
    pub fn byte(self) -> u32
        ensures { result ≡ byte_of_fault self }
    {
        match self {
            ImageFault::Length | ImageFault::Kind => 0,
            ImageFault::Span => 4,
            ImageFault::Held => 8,
            ImageFault::Head => 12,
            ImageFault::Offset => 16,
            ImageFault::Total => 20,
            ImageFault::Element(bad) => bad.byte,
        }
    }
}

impl From<BadElement> for ImageFault {
    ghost from_gives = { λ element r. r ≡ Element element };

    fn from(element: BadElement) -> ImageFault {
        ImageFault::Element(element)
    }
}

impl From<UnknownKind> for ImageFault {
    ghost from_gives = { λ _ r. r ≡ Kind };

    fn from(_kind: UnknownKind) -> Self {
        Self::Kind
    }
}
