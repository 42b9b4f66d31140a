// The consolidations that an image can be of.
ghost use Rattle.std.specs.Prelude.{◌≡◌};
ghost use Rattle.element.specs.Kinds.{number_of_kind, Numbers};

// Each has the number by which an image names it.
#[derive(Clone, Copy, PartialEq, Eq, Debug)]
pub enum Kind {
    Min = 1,
    Max = 2,
    Last = 3,
    Mean = 4,
}

impl Kind {
    // The number that an image has for it. A method, here and in the other enums with numbers: `as` takes no type parameter, and `u32::from(kind)` would not say what the number is.
    pub fn number(self) -> u32
        ensures { result ≡ number_of_kind self }
    {
        self as u32
    }
}

// A number that is no kind's.
#[derive(Clone, Copy, PartialEq, Eq, Debug)]
pub struct UnknownKind(pub u32);

impl TryFrom<u32> for Kind {
    type Error = UnknownKind;

    ghost try_from_gives = { Numbers };

    fn try_from(number: u32) -> Result<Kind, UnknownKind> {
        [Kind::Min, Kind::Max, Kind::Last, Kind::Mean]
            .iter()
            .copied()
            .find(|kind| kind.number() == number)
            .ok_or(UnknownKind(number))
    }
}
