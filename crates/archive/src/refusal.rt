// What can be wrong with an archive that is laid out, each with its number.
ghost use Rattle.std.specs.Prelude.{◌≡◌};
ghost use Rattle.archive.specs.Refusals.{number_of_refusal};

#[derive(Clone, Copy, PartialEq, Eq, Debug)]
pub enum Refusal {
    // A factor that is not 1 to 1,000, or that makes a width above 1,000,000.
    Factor = 4,
    // A ring of no row or of more than 3,000, or bytes of which no image can be made.
    Span = 5,
    // An allowance above 1,000.
    Allowance = 6,
}

impl Refusal {
    // A method, here and in the other enums with numbers: `as` takes no type parameter, and `u32::from(refusal)` would not say what the number is.
    pub fn number(self) -> u32
        ensures { result ≡ number_of_refusal self }
    {
        self as u32
    }
}
