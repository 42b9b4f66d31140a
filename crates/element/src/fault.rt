// What can be wrong with an element in an image.
ghost use Rattle.std.specs.Prelude.{◌≡◌};
ghost use Rattle.element.specs.Faults.{number_of_element_fault};

// What is wrong with the amount and the weight of a row; each has its number in a refusal.
#[derive(Clone, Copy, PartialEq, Eq, Debug)]
pub enum ElementFault {
    WeightAboveOne = 1,
    AmountWithoutWeight = 2,
    // The amount is no signed number of 32 bits.
    AmountTooWide = 3,
}

impl ElementFault {
    // A method, here and in the other enums with numbers: `as` takes no type parameter, and `u32::from(fault)` would not say what the number is.
    pub fn number(self) -> u32
        ensures { result ≡ number_of_element_fault self }
    {
        self as u32
    }
}
