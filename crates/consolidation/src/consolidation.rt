// A consolidation, by its elements: the joining of a monoid, and the hold of a reading over a length.
ghost use Rattle.std.specs.Prelude.{◌≡◌, ℕ, ◌+◌, ◌≤◌, ℤ, FitsSigned};
ghost use Rattle.std.specs.Int.{w32};

use crate::monoid::Monoid;

pub trait Consolidation: Monoid {
    // The element of a reading that is held for some seconds.
    ghost held: { ℤ → ℕ → Self };

    // What an element tells: an amount, and the weight that it has.
    ghost amount: { Self → ℤ };

    ghost weight: { Self → ℕ };

    fn hold(reading: i32, seconds: u32) -> Self
        ensures { result ≡ held reading seconds };

    fn amount(self) -> i64
        ensures { result ≡ amount self };

    fn weight(self) -> u32
        ensures { result ≡ weight self };

    // A reading of 32 bits that is held for no second leaves nothing.
    ghost instant: { (v : ℤ) → FitsSigned w32 v → held v 0 ≡ Self.Monoid.empty };

    // A hold can be cut anywhere.
    ghost cut: { (v : ℤ) (a b : ℕ) → FitsSigned w32 v → a + b ≤ 4294967295 → held v (a + b) ≡ Self.Monoid.joined (held v a) (held v b) };
}
