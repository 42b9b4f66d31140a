// Why a listing stops.
ghost use Rattle.std.specs.Prelude.{◌≡◌};
ghost use Rattle.listing.specs.declared.stop.Stop.TheVariants.{Fault, Full};

use image::fault::ImageFault;
use lent_bytes::text;

#[derive(Clone, Copy, PartialEq, Eq, Debug)]
pub(crate) enum Stop {
    Fault(ImageFault),
    // The text does not fit.
    Full,
}

impl From<ImageFault> for Stop {
    ghost from_gives = { λ fault r. r ≡ Fault fault };

    fn from(fault: ImageFault) -> Stop {
        Stop::Fault(fault)
    }
}

impl From<text::Full> for Stop {
    ghost from_gives = { λ _ r. r ≡ Full };

    fn from(_: text::Full) -> Stop {
        Stop::Full
    }
}
