// The interface through which rows are kept.
ghost use Rattle.std.specs.Prelude.{◌≡◌, length};
ghost use Rattle.archive.specs.Meanings.{Meaning, Sound, stored, asked};

use crate::entry::Entry;
use consolidation::monoid::Monoid;

// What keeps the newest rows of the items that it is given. Every call is safe on every value; what is promised, is promised of an archive that is well.
pub trait Archive {
    type Item: Entry + Copy;

    // What an archive keeps to, from its making on.
    ghost well: { Self → Type 0 };

    ghost meaning: { Self → Meaning Self.Item };

    // One item more.
    fn store(&mut self, item: Self::Item)
        ensures kept { well self.old → well self.new }
        ensures value { well self.old → meaning self.new ≡ stored Self.Item.Monoid.empty Self.Item.Monoid.joined (meaning self.old) item };

    // The row of an age, 0 for the newest, as it is shown.
    fn ask(&self, age: u32) -> Option<Self::Item>
        ensures { well self.now → result ≡ asked Self.Item.Monoid.empty Self.Item.Entry.counts (meaning self.now) age };

    // How many items make one row.
    fn width(&self) -> u32
        ensures { well self.now → result ≡ (meaning self.now).width };

    // The most rows that are held.
    fn span(&self) -> u32
        ensures { well self.now → result ≡ (meaning self.now).span };

    // How much of a row may be unknown, in thousandths.
    fn allowance(&self) -> u32
        ensures { well self.now → result ≡ (meaning self.now).allowance };

    // How many items the open row has.
    fn begun(&self) -> u32
        ensures { well self.now → result ≡ (meaning self.now).begun };

    // The joining of these; the empty item when there is none.
    fn part(&self) -> Self::Item
        ensures none { well self.now → (meaning self.now).begun ≡ 0 → result ≡ Self.Item.Monoid.empty }
        ensures value { well self.now → result ≡ (meaning self.now).part };

    // How many rows are held.
    fn held(&self) -> u32
        ensures { well self.now → result ≡ length (meaning self.now).rows };

    // The ranges hold of every archive that is well.
    ghost sound: { (s : Self) → well s → Sound (meaning s) };
}
