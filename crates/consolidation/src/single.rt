// The consolidations that keep one reading: the least, the greatest or the last.
ghost use Rattle.std.specs.Prelude.{◌≡◌, None};
ghost use Rattle.consolidation.specs.Singles.{single, single_joined, reading_over, amount_of, weight_of};
ghost use Rattle.std.proofs.Common.{rules};

use crate::consolidation::Consolidation;
use crate::monoid::Monoid;
use crate::pick::{Greatest, Latest, Least, Pick};
use std::marker::PhantomData;

// One reading or none; of two readings, `P` picks.
#[derive_where(Clone, Copy, PartialEq, Eq, Debug)]
pub struct Single<P> {
    reading: Option<i32>,
    pick: PhantomData<P>,
}

pub type Min = Single<Least>;

pub type Max = Single<Greatest>;

pub type Last = Single<Latest>;

fn of<P>(reading: Option<i32>) -> Single<P>
    ensures { result ≡ single reading }
{
    Single {
        reading,
        pick: PhantomData,
    }
}

impl<P: Pick> Monoid for Single<P> {
    ghost empty = { single None };

    ghost joined = { single_joined P.picked };

    ghost lawful = { Prim.search rules };

    fn empty() -> Single<P> {
        of(None)
    }

    fn join(self, later: Single<P>) -> Single<P> {
        of(match (self.reading, later.reading) {
            (Some(a), Some(b)) => Some(P::pick(a, b)),
            (a, None) => a,
            (None, b) => b,
        })
    }
}

impl<P: Pick> Consolidation for Single<P> {
    ghost held = { λ v n. single (reading_over v n) };

    ghost amount = { λ x. amount_of x.reading };

    ghost weight = { λ x. weight_of x.reading };

    ghost instant = { Prim.search rules };

    ghost cut = { Prim.search rules };

    fn hold(reading: i32, seconds: u32) -> Single<P> {
        of((seconds > 0).then_some(reading))
    }

    fn amount(self) -> i64 {
        self.reading.map_or(0, i64::from)
    }

    fn weight(self) -> u32 {
        u32::from(self.reading.is_some())
    }
}
