// A ring of rows in memory that is lent.
ghost use Rattle.std.specs.Prelude.{◌≡◌, length, if◌then◌else◌, nat_lt, slice_set};
ghost use Rattle.consolidation.specs.Items.{item_joined};
ghost use Rattle.archive.specs.Entries.{empty_item};
ghost use Rattle.archive.specs.declared.refusal.Refusal.TheVariants.{Span};
ghost use Rattle.archive.specs.Meanings.{fresh, stored};
ghost use Rattle.archive.specs.Refusals.{refused_if};
ghost use Rattle.archive.specs.Rings.{wrong_span, ring_span, ring_meaning, turned_on, RingWell};
ghost use Rattle.archive.specs.RingsLemmas.{held_within, ring_sound};

use archive::archive::Archive;
use archive::cursor::{Cursor, wrong_span};
use archive::entry::WHOLE;
use archive::refusal::Refusal;
use consolidation::consolidation::Consolidation;
use consolidation::item::Item;
use consolidation::monoid::Monoid;

// An archive of as many rows as are lent. Over no row, or over more than 3,000, it has span 0 and never writes.
// The rows stand beside the cursor, which says which are held: they are lent, and what writes them is given the slice, as the project asks.
#[derive(Drop)]
pub struct RecordRing<'a, E> {
    rows: &'a mut [Item<E>],
    cursor: Cursor,
}

// Writes one place, if there is such a place.
fn put<E: Copy>(rows: &mut [Item<E>], place: u32, item: Item<E>)
    ensures { rows.new ≡ slice_set rows.old place item }
{
    let place = place as usize;
    if place < rows.len() {
        rows[place] = item;
    }
}

impl<'a, E: Consolidation + Copy> RecordRing<'a, E> {
    pub fn check(rows: &[Item<E>]) -> Result<(), Refusal>
        ensures { result ≡ refused_if (wrong_span (length rows.now)) Span }
    {
        if wrong_span(rows.len()) {
            return Err(Refusal::Span);
        }
        Ok(())
    }

    // Whatever the rows hold, the ring holds none of it.
    pub fn new(rows: &'a mut [Item<E>]) -> Self
        ensures well { ⟦<RecordRing<'a, E> as Archive>⟧.well result }
        ensures fresh { ⟦<RecordRing<'a, E> as Archive>⟧.meaning result ≡ fresh (empty_item E.Monoid.empty) 1 (ring_span (length rows.old)) 1000 }
        ensures lender { result.rows.ghost_name ≡ rows.entry.ghost_name }
        ensures rows { result.rows.now ≡ rows.old }
    {
        let cursor = Cursor::new(rows.len());
        RecordRing { rows, cursor }
    }
}

impl<'a, E: Consolidation + Copy> Archive for RecordRing<'a, E> {
    type Item = Item<E>;

    ghost well = { λ s. RingWell s.cursor (length s.rows.now) };

    ghost meaning = { λ s. ring_meaning (empty_item E.Monoid.empty) s.cursor s.rows.now };

    ghost sound = { λ s w. ring_sound s.cursor s.rows.now (empty_item E.Monoid.empty) w.turning (held_within s.cursor s.rows.now w.turning w.span_is) };

    // One place is written, in turn from place 0; with span 0 none is.
    fn store(&mut self, item: Item<E>)
        ensures kept { RingWell self.old.cursor (length self.old.rows.now) → RingWell self.new.cursor (length self.new.rows.now) }
        ensures value { RingWell self.old.cursor (length self.old.rows.now) → ring_meaning (empty_item E.Monoid.empty) self.new.cursor self.new.rows.now ≡ stored (empty_item E.Monoid.empty) (item_joined E.Monoid.joined) (ring_meaning (empty_item E.Monoid.empty) self.old.cursor self.old.rows.now) item }
        ensures lender { self.new.rows.ghost_name ≡ self.old.rows.ghost_name }
        ensures rows { self.new.rows.now ≡ if nat_lt 0 self.old.cursor.span then slice_set self.old.rows.now self.old.cursor.head item else self.old.rows.now }
        ensures cursor { self.new.cursor ≡ if nat_lt 0 self.old.cursor.span then turned_on self.old.cursor else self.old.cursor }
    {
        if self.cursor.span > 0 {
            let head = self.cursor.head;
            put(self.rows, head, item);
            self.cursor = self.cursor.next();
        }
    }

    fn ask(&self, age: u32) -> Option<Item<E>> {
        let place = self.cursor.place(age)?;
        self.rows.get(place as usize).copied()
    }

    // Here and in the other ends alike: with one impl for all ends, code that is generic over archives and makes a layer gets no proof.
    fn width(&self) -> u32 {
        1
    }

    fn span(&self) -> u32 {
        self.cursor.span
    }

    fn allowance(&self) -> u32 {
        WHOLE
    }

    fn begun(&self) -> u32 {
        0
    }

    fn part(&self) -> Item<E> {
        Item::empty()
    }

    fn held(&self) -> u32 {
        self.cursor.held
    }
}
