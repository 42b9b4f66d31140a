// The mean: the sum of the readings, each as often as the seconds that it was held, and the number of these seconds.
ghost use Rattle.std.specs.Prelude.{◌≡◌, ◌+◌, ◌%◌, ◌^◌, pos, ◌+ℤ◌, ◌*ℤ◌};
ghost use Rattle.std.specs.Int.{int_wrap, w64};
ghost use Rattle.consolidation.specs.Means.{mean, mean_joined, mean_held};
ghost use Rattle.consolidation.specs.MeansLemmas.{mean_lawful, mean_instant, mean_cut};

use crate::consolidation::Consolidation;
use crate::monoid::Monoid;

#[derive(Clone, Copy, PartialEq, Eq, Debug)]
pub struct Mean {
    pub amount: i64,
    pub weight: u32,
}

impl Monoid for Mean {
    ghost empty = { mean (pos 0) 0 };

    ghost joined = { mean_joined };

    ghost lawful = { mean_lawful };

    fn empty() -> Mean {
        Mean {
            amount: 0,
            weight: 0,
        }
    }

    #[tactic(auto, using(std::proofs::lemmas::Int::wrapping_add_is, crate::specs::SumsLemmas::sum32_fits, crate::specs::SumsLemmas::sum64_fits))]
    fn join(self, later: Mean) -> Mean
        ensures joined { result ≡ mean_joined self later }
        ensures amount { result.amount ≡ int_wrap w64 (self.amount +ℤ later.amount) }
        ensures weight { result.weight ≡ (self.weight + later.weight) % 2 ^ 32 }
    {
        Mean {
            amount: self.amount.wrapping_add(later.amount),
            weight: self.weight.wrapping_add(later.weight),
        }
    }
}

impl Consolidation for Mean {
    ghost held = { mean_held };

    ghost amount = { λ x. x.amount };

    ghost weight = { λ x. x.weight };

    ghost instant = { mean_instant };

    ghost cut = { mean_cut };

    #[tactic(auto, using(crate::specs::MeansLemmas::products))]
    fn hold(reading: i32, seconds: u32) -> Mean
        ensures held { result ≡ mean_held reading seconds }
        ensures amount { result.amount ≡ reading *ℤ pos seconds }
        ensures weight { result.weight ≡ seconds }
    {
        Mean {
            amount: reading as i64 * seconds as i64,
            weight: seconds,
        }
    }

    fn amount(self) -> i64 {
        self.amount
    }

    fn weight(self) -> u32 {
        self.weight
    }
}
