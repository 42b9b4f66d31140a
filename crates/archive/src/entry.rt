// What an archive keeps: items that are joined, and that tell how many of their points are known.
ghost use Rattle.std.specs.Prelude.{◌≡◌, ℕ};
ghost use Rattle.archive.specs.Entries.{Counted, item_counts, shown};
ghost use Rattle.std.proofs.Common.{rules};

use consolidation::item::Item;
use consolidation::monoid::Monoid;

// The whole allowance, in thousandths: every row is shown as it is held.
pub const WHOLE: u32 = 1_000;

pub trait Entry: Monoid {
    ghost counts: { Counted Self };

    fn known(self) -> u32
        ensures { result ≡ counts.known self };

    fn of(self) -> u32
        ensures { result ≡ counts.of self };

    // So many points, none of which is known.
    fn unknown(of: u32) -> Self
        ensures { result ≡ counts.unknown of };

    // So many points that are unknown are so many, and none of them is known.
    ghost counted: { (n : ℕ) → counts.of (counts.unknown n) ≡ n };

    ghost blank: { (n : ℕ) → counts.known (counts.unknown n) ≡ 0 };
}

impl<E: Monoid + Copy> Entry for Item<E> {
    ghost counts = { item_counts E.Monoid.empty };

    ghost counted = { Prim.search rules };

    ghost blank = { Prim.search rules };

    fn known(self) -> u32 {
        self.known
    }

    fn of(self) -> u32 {
        self.of
    }

    fn unknown(of: u32) -> Item<E> {
        Item {
            element: E::empty(),
            known: 0,
            of,
        }
    }
}

// An item as it is shown under an allowance in thousandths.
pub fn show<M: Entry + Copy>(item: M, allowance: u32) -> M
    ensures { result ≡ shown M.Entry.counts allowance item }
{
    let of = item.of();
    let unknown = of.saturating_sub(item.known());
    if 1_000 * unknown as u64 <= allowance as u64 * of as u64 {
        item
    } else {
        M::unknown(of)
    }
}
