// Many items, one after another.
ghost use Rattle.std.specs.Prelude.{◌≡◌, ℕ};
ghost use Rattle.archive.specs.Groups.{grouped};
ghost use Rattle.archive.specs.Meanings.{fresh, stored_all};

use crate::archive::Archive;
use consolidation::monoid::Monoid;

// Stores the items in their order. An archive that was fresh then has a row for each whole group of its width, of which it holds the newest, and the rest is its open row.
pub fn store_all<A: Archive>(archive: &mut A, items: &[A::Item])
    ensures kept { A.Archive.well archive.old → A.Archive.well archive.new }
    ensures value { A.Archive.well archive.old → A.Archive.meaning archive.new ≡ stored_all A.Item.Monoid.empty A.Item.Monoid.joined (A.Archive.meaning archive.old) items.now }
    ensures in_groups { (width span allowance : ℕ) → A.Archive.well archive.old → A.Archive.meaning archive.old ≡ fresh A.Item.Monoid.empty width span allowance → A.Archive.meaning archive.new ≡ grouped A.Item.Monoid.empty A.Item.Monoid.joined width span allowance items.now }
{
    for item in items {
        archive.store(*item);
    }
}
