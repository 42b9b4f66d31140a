// Limits the allowance of the archive below.
ghost use Rattle.std.specs.Prelude.{◌≡◌, nat_lt};
ghost use Rattle.archive.specs.Refusals.{refused_if};
ghost use Rattle.archive.specs.declared.refusal.Refusal.TheVariants.{Allowance};
ghost use Rattle.layers.specs.Limited.{fit_allowance, limited, limited_sound};

use archive::archive::Archive;
use archive::entry::{WHOLE, show};
use archive::refusal::Refusal;

// As the archive below, but a row of which more than `allowance` is unknown is shown as wholly unknown.
#[derive(PartialEq, Eq, Debug, Drop)]
pub struct AllowanceLayer<A> {
    below: A,
    allowance: u32,
}

impl<A: Archive> AllowanceLayer<A> {
    // Refuses an allowance above 1,000.
    pub fn check(below: &A, allowance: u32) -> Result<(), Refusal>
        ensures { result ≡ refused_if (nat_lt 1000 allowance) Allowance }
    {
        if allowance > WHOLE {
            Err(Refusal::Allowance)
        } else {
            Ok(())
        }
    }

    // Where `check` refuses, it has the whole allowance.
    pub fn new(below: A, allowance: u32) -> AllowanceLayer<A>
        ensures below { result.below ≡ below }
        ensures well { A.Archive.well below → ⟦<AllowanceLayer<A> as Archive>⟧.well result }
        ensures value { ⟦<AllowanceLayer<A> as Archive>⟧.meaning result ≡ limited (fit_allowance allowance) (A.Archive.meaning below) }
    {
        AllowanceLayer {
            below,
            allowance: allowance.min(WHOLE),
        }
    }

    // The archive below, as it stands. Each layer has one line for its own field, and no trait could say it in less.
    pub fn below(&self) -> &A
        ensures { result.now ≡ self.now.below }
    {
        &self.below
    }
}

impl<A: Archive> Archive for AllowanceLayer<A> {
    type Item = A::Item;

    ghost well = { λ s. A.Archive.well s.below };

    ghost meaning = { λ s. limited s.allowance (A.Archive.meaning s.below) };

    ghost sound = { λ s w. limited_sound s.allowance (A.Archive.meaning s.below) (A.Archive.sound s.below w) };

    fn store(&mut self, item: A::Item) {
        self.below.store(item);
    }

    fn ask(&self, age: u32) -> Option<A::Item> {
        let row = self.below.ask(age)?;
        Some(show(row, self.allowance))
    }

    fn width(&self) -> u32 {
        self.below.width()
    }

    // Told as below, here and in the other layer, by one call of the layer's own field: no trait could say it in less.
    fn span(&self) -> u32 {
        self.below.span()
    }

    fn allowance(&self) -> u32 {
        self.allowance.min(self.below.allowance())
    }

    fn begun(&self) -> u32 {
        self.below.begun()
    }

    fn part(&self) -> A::Item {
        self.below.part()
    }

    // As `span`.
    fn held(&self) -> u32 {
        self.below.held()
    }
}
