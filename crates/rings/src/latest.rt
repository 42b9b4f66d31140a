// The newest row alone.
ghost use Rattle.std.specs.Prelude.{◌≡◌, Ok};
ghost use Rattle.archive.specs.Entries.{empty_item};
ghost use Rattle.archive.specs.Meanings.{fresh};
ghost use Rattle.rings.specs.Latest.{of_latest, latest_sound};

use archive::archive::Archive;
use archive::entry::WHOLE;
use archive::refusal::Refusal;
use consolidation::consolidation::Consolidation;
use consolidation::item::Item;
use consolidation::monoid::Monoid;

// An archive of span 1 that needs no buffer.
#[derive(PartialEq, Eq, Debug, Drop)]
pub struct LatestRow<E> {
    row: Option<Item<E>>,
}

impl<E: Consolidation + Copy> LatestRow<E> {
    // There is nothing that could be wrong.
    pub fn check() -> Result<(), Refusal>
        ensures { result ≡ Ok tt }
    {
        Ok(())
    }

    pub fn new() -> LatestRow<E>
        ensures { ⟦<LatestRow<E> as Archive>⟧.meaning result ≡ fresh (empty_item E.Monoid.empty) 1 1 1000 }
    {
        LatestRow { row: None }
    }
}

impl<E: Consolidation + Copy> Archive for LatestRow<E> {
    type Item = Item<E>;

    // There is nothing to keep to.
    ghost well = { λ _. Unit {0} };

    ghost meaning = { of_latest E.Monoid.empty };

    ghost sound = { λ s _. latest_sound E.Monoid.empty s };

    fn store(&mut self, item: Item<E>) {
        self.row = Some(item);
    }

    fn ask(&self, age: u32) -> Option<Item<E>> {
        if age == 0 { self.row } else { None }
    }

    // Here and in the other ends alike: with one impl for all ends, code that is generic over archives and makes a layer gets no proof.
    fn width(&self) -> u32 {
        1
    }

    fn span(&self) -> u32 {
        1
    }

    fn allowance(&self) -> u32 {
        WHOLE
    }

    fn begun(&self) -> u32 {
        0
    }

    fn part(&self) -> Item<E> {
        Item::empty()
    }

    fn held(&self) -> u32 {
        u32::from(self.row.is_some())
    }
}
