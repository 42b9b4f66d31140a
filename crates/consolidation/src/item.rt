// Items: what stands for a stretch of time, with the count of its points.
ghost use Rattle.std.specs.Prelude.{◌≡◌, ◌+◌, ◌%◌, ◌^◌};
ghost use Rattle.consolidation.specs.Items.{item, item_joined};
ghost use Rattle.consolidation.specs.ItemsLemmas.{item_lawful};

use crate::monoid::Monoid;

#[derive(Clone, Copy, PartialEq, Eq, Debug)]
pub struct Item<E> {
    pub element: E,
    // How many of the points are known, modulo 2 ^ 32.
    pub known: u32,
    // How many points there are, modulo 2 ^ 32.
    pub of: u32,
}

impl<E: Monoid> Monoid for Item<E> {
    ghost empty = { item E.Monoid.empty 0 0 };

    ghost joined = { item_joined E.Monoid.joined };

    ghost lawful = { item_lawful E.Monoid.lawful };

    fn empty() -> Item<E> {
        Item {
            element: E::empty(),
            known: 0,
            of: 0,
        }
    }

    #[tactic(auto, using(crate::specs::SumsLemmas::sum32_fits))]
    fn join(self, later: Item<E>) -> Item<E>
        ensures joined { result ≡ item_joined E.Monoid.joined self later }
        ensures known { result.known ≡ (self.known + later.known) % 2 ^ 32 }
        ensures of { result.of ≡ (self.of + later.of) % 2 ^ 32 }
    {
        Item {
            element: self.element.join(later.element),
            known: self.known.wrapping_add(later.known),
            of: self.of.wrapping_add(later.of),
        }
    }
}
