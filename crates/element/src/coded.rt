// Elements as an image has them: an amount and a weight.
ghost use Rattle.std.specs.Prelude.{◌≡◌, ℕ, ℤ, None, Option};
ghost use Rattle.consolidation.specs.Singles.{single, reading_over};
ghost use Rattle.consolidation.specs.Means.{mean};
ghost use Rattle.element.specs.declared.kind.Kind.{Kind};
ghost use Rattle.element.specs.declared.kind.Kind.TheVariants.{Min as OfMin, Max as OfMax, Last as OfLast, Mean as OfMean};
ghost use Rattle.element.specs.declared.fault.ElementFault.{ElementFault};
ghost use Rattle.element.specs.Faults.{unless};
ghost use Rattle.element.specs.Elements.{single_fault};
ghost use Rattle.std.proofs.Common.{rules};

use crate::fault::ElementFault;
use crate::kind::Kind;
use consolidation::consolidation::Consolidation;
use consolidation::mean::Mean;
use consolidation::pick::{Greatest, Latest, Least, Pick};
use consolidation::single::Single;

pub trait Coded: Consolidation {
    ghost KIND: { Kind };

    const KIND: Kind;

    // What is wrong with an amount and a weight, if anything is.
    ghost fault: { ℤ → ℕ → Option ElementFault };

    // The element that they stand for, where nothing is.
    ghost decoded: { ℤ → ℕ → Self };

    fn decode(amount: i64, weight: u32) -> Result<Self, ElementFault>
        ensures { result ≡ unless (fault amount weight) (decoded amount weight) };

    // The amount and the weight, from which the element is read back.
    fn encode(self) -> (i64, u32)
        ensures told { (result.0 ≡ Self.Consolidation.amount self) × (result.1 ≡ Self.Consolidation.weight self) }
        ensures back { (fault result.0 result.1 ≡ None) × (decoded result.0 result.1 ≡ self) };

    // That element tells just them.
    ghost told: { (a : ℤ) (w : ℕ) → fault a w ≡ None → (Self.Consolidation.amount (decoded a w) ≡ a) × (Self.Consolidation.weight (decoded a w) ≡ w) };
}

// The kind of the consolidation that picks so.
pub trait KindOfPick: Pick {
    ghost KIND: { Kind };

    const KIND: Kind;
}

impl KindOfPick for Least {
    ghost KIND = { OfMin };

    const KIND: Kind = Kind::Min;
}

impl KindOfPick for Greatest {
    ghost KIND = { OfMax };

    const KIND: Kind = Kind::Max;
}

impl KindOfPick for Latest {
    ghost KIND = { OfLast };

    const KIND: Kind = Kind::Last;
}

impl<P: KindOfPick> Coded for Single<P> {
    ghost KIND = { P.KindOfPick.KIND };

    const KIND: Kind = P::KIND;

    ghost fault = { single_fault };

    ghost decoded = { λ a w. single (reading_over a w) };

    ghost told = { Prim.search rules };

    fn decode(amount: i64, weight: u32) -> Result<Single<P>, ElementFault> {
        if weight > 1 {
            return Err(ElementFault::WeightAboveOne);
        }
        if weight == 0 && amount != 0 {
            return Err(ElementFault::AmountWithoutWeight);
        }
        let reading = i32::try_from(amount).map_err(|_| ElementFault::AmountTooWide)?;
        Ok(Single::hold(reading, weight))
    }

    fn encode(self) -> (i64, u32) {
        (self.amount(), self.weight())
    }
}

impl Coded for Mean {
    ghost KIND = { OfMean };

    const KIND: Kind = Kind::Mean;

    ghost fault = { λ _ _. None };

    ghost decoded = { mean };

    ghost told = { Prim.search rules };

    fn decode(amount: i64, weight: u32) -> Result<Mean, ElementFault> {
        Ok(Mean { amount, weight })
    }

    fn encode(self) -> (i64, u32) {
        (self.amount, self.weight)
    }
}
