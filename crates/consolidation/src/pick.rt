// Which of two readings stands for both.
ghost use Rattle.std.specs.Prelude.{◌≡◌, ℤ};
ghost use Rattle.std.specs.Int.{int_min, int_max};
ghost use Rattle.consolidation.specs.Singles.{later_of};
ghost use Rattle.std.proofs.Common.{rules};

pub trait Pick {
    ghost picked: { ℤ → ℤ → ℤ };

    fn pick(earlier: i32, later: i32) -> i32
        ensures { result ≡ picked earlier later };

    ghost associative: { (a b c : ℤ) → picked (picked a b) c ≡ picked a (picked b c) };

    ghost same: { (a : ℤ) → picked a a ≡ a };
}

#[derive(Clone, Copy, PartialEq, Eq, Debug)]
pub struct Least;

impl Pick for Least {
    ghost picked = { int_min };

    ghost associative = { Prim.search rules };

    ghost same = { Prim.search rules };

    fn pick(earlier: i32, later: i32) -> i32 {
        earlier.min(later)
    }
}

#[derive(Clone, Copy, PartialEq, Eq, Debug)]
pub struct Greatest;

impl Pick for Greatest {
    ghost picked = { int_max };

    ghost associative = { Prim.search rules };

    ghost same = { Prim.search rules };

    fn pick(earlier: i32, later: i32) -> i32 {
        earlier.max(later)
    }
}

#[derive(Clone, Copy, PartialEq, Eq, Debug)]
pub struct Latest;

impl Pick for Latest {
    ghost picked = { later_of };

    ghost associative = { Prim.search rules };

    ghost same = { Prim.search rules };

    fn pick(_earlier: i32, later: i32) -> i32 {
        later
    }
}
