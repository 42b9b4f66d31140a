// Joins items in groups for the archive below.
ghost use Rattle.std.specs.Prelude.{◌≡◌, ℕ, ◌*◌};
ghost use Rattle.archive.specs.Meanings.{fresh};
ghost use Rattle.archive.specs.Refusals.{refused_if};
ghost use Rattle.archive.specs.declared.refusal.Refusal.TheVariants.{Factor};
ghost use Rattle.layers.specs.Coarser.{unfit, fit_factor, coarser, Grouping, coarser_sound};

use archive::archive::Archive;
use archive::refusal::Refusal;
use consolidation::monoid::Monoid;

// The most items of a group.
pub const MOST_FACTOR: u32 = 1_000;

// The most items of a row.
pub const MOST_WIDTH: u64 = 1_000_000;

// Joins `factor` items into one, which the archive below stores.
#[derive(PartialEq, Eq, Debug, Drop)]
pub struct Coarsen<A: Archive> {
    below: A,
    factor: u32,
    // The open group: how many items it has, and their joining.
    count: u32,
    part: A::Item,
}

fn is_unfit(factor: u32, width: u32) -> bool
    ensures { result ≡ unfit factor width }
{
    factor < 1 || factor > MOST_FACTOR || factor as u64 * width as u64 > MOST_WIDTH
}

fn fit_factor(factor: u32, width: u32) -> u32
    ensures { result ≡ fit_factor factor width }
{
    if is_unfit(factor, width) { 1 } else { factor }
}

impl<A: Archive> Coarsen<A> {
    // Refuses a factor that is not 1 to 1,000, or that makes a width above 1,000,000.
    pub fn check(below: &A, factor: u32) -> Result<(), Refusal>
        ensures { A.Archive.well below.now → result ≡ refused_if (unfit factor (A.Archive.meaning below.now).width) Factor }
    {
        if is_unfit(factor, below.width()) {
            Err(Refusal::Factor)
        } else {
            Ok(())
        }
    }

    // Where `check` refuses, the factor is 1: each item is stored as it is.
    pub fn new(below: A, factor: u32) -> Coarsen<A>
        ensures below { result.below ≡ below }
        ensures well { A.Archive.well below → ⟦<Coarsen<A> as Archive>⟧.well result }
        ensures value { A.Archive.well below → ⟦<Coarsen<A> as Archive>⟧.meaning result ≡ coarser A.Item.Monoid.joined (A.Archive.meaning below) (fit_factor factor (A.Archive.meaning below).width) 0 A.Item.Monoid.empty }
        ensures fresh { (width span allowance : ℕ) → A.Archive.well below → A.Archive.meaning below ≡ fresh A.Item.Monoid.empty width span allowance → ⟦<Coarsen<A> as Archive>⟧.meaning result ≡ fresh A.Item.Monoid.empty (fit_factor factor width * width) span allowance }
    {
        let factor = fit_factor(factor, below.width());
        Coarsen {
            below,
            factor,
            count: 0,
            part: A::Item::empty(),
        }
    }

    // The archive below, as it stands. Each layer has one line for its own field, and no trait could say it in less.
    pub fn below(&self) -> &A
        ensures { result.now ≡ self.now.below }
    {
        &self.below
    }
}

impl<A: Archive> Archive for Coarsen<A> {
    type Item = A::Item;

    ghost well = { λ s. A.Archive.well s.below × Grouping A.Item.Monoid.empty (A.Archive.meaning s.below).width s.factor s.count s.part };

    ghost meaning = { λ s. coarser A.Item.Monoid.joined (A.Archive.meaning s.below) s.factor s.count s.part };

    ghost sound = { λ s w. coarser_sound A.Item.Monoid.empty A.Item.Monoid.joined (A.Archive.meaning s.below) s.factor s.count s.part (A.Archive.sound s.below w.0) w.1 };

    fn store(&mut self, item: A::Item) {
        let joined = self.part.join(item);
        if self.count as u64 + 1 < self.factor as u64 {
            self.part = joined;
            self.count += 1;
        } else {
            self.below.store(joined);
            self.part = A::Item::empty();
            self.count = 0;
        }
    }

    fn ask(&self, age: u32) -> Option<A::Item> {
        self.below.ask(age)
    }

    fn width(&self) -> u32 {
        self.factor.wrapping_mul(self.below.width())
    }

    // Told as below, here and in the other layer, by one call of the layer's own field: no trait could say it in less.
    fn span(&self) -> u32 {
        self.below.span()
    }

    fn allowance(&self) -> u32 {
        self.below.allowance()
    }

    fn begun(&self) -> u32 {
        self.factor
            .wrapping_mul(self.below.begun())
            .wrapping_add(self.count)
    }

    fn part(&self) -> A::Item {
        self.below.part().join(self.part)
    }

    // As `span`.
    fn held(&self) -> u32 {
        self.below.held()
    }
}
