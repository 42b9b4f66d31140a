// An archive whose rows lie in bytes that are lent, as an image has them.
ghost use Rattle.std.specs.Prelude.{◌≡◌, ◌<◌, ◌≤◌, length, MatchOption, ◌==◌};
ghost use Rattle.archive.specs.Entries.{empty_item};
ghost use Rattle.archive.specs.Meanings.{fresh, stored};
ghost use Rattle.archive.specs.Refusals.{refused_if};
ghost use Rattle.archive.specs.Rings.{cursor};
ghost use Rattle.archive.specs.declared.refusal.Refusal.TheVariants.{Span};
ghost use Rattle.consolidation.specs.Items.{item_joined};
ghost use Rattle.element.specs.Kinds.{number_of_kind};
ghost use Rattle.image.specs.RingImages.{image_ring_sound, ImageOfRing};
ghost use Rattle.image.specs.Rings.{rows_for, image_span, header_of, laid_out, recorded, item_bytes, meaning_of, Kept, Shows};

use crate::header::{HEADER, Header, write_header, write_turn};
use crate::opened::Image;
use crate::row::{ROW, row_at, write_row};
use archive::archive::Archive;
use archive::cursor::{Cursor, wrong_span};
use archive::entry::WHOLE;
use archive::refusal::Refusal;
use consolidation::item::Item;
use consolidation::monoid::Monoid;
use element::coded::Coded;
use element::kind::Kind;
use std::marker::PhantomData;

// The bytes stand beside the cursor, which says which rows are held: they are lent.
#[derive(Drop)]
pub struct ImageRing<'a, E> {
    bytes: &'a mut [u8],
    cursor: Cursor,
    element: PhantomData<E>,
}

// How many rows take so many bytes with the header. Where no number of rows does it is 0, as it is of a header alone: neither is a ring.
fn rows_for(len: usize) -> usize
    ensures { result ≡ rows_for len }
{
    let rows = len.saturating_sub(HEADER) / ROW;
    if len == HEADER + ROW * rows { rows } else { 0 }
}

// The header of a ring of this kind.
fn header_of(kind: Kind, cursor: Cursor) -> Header
    requires { cursor.span ≤ 3000 }
    ensures { result ≡ header_of (number_of_kind kind) cursor }
{
    Header {
        kind: kind.number(),
        span: cursor.span,
        held: cursor.held,
        head: cursor.head,
        offset: HEADER as u32,
        total: HEADER as u32 + ROW as u32 * cursor.span,
    }
}

// Writes a ring that holds no row: its header, and zeroes. Bytes that are no ring stay as they are, under a cursor of span 0.
fn lay_out(bytes: &mut [u8], kind: Kind) -> Cursor
    ensures cursor { result ≡ cursor (image_span (length bytes.old)) 0 0 }
    ensures bytes { bytes.new ≡ laid_out (number_of_kind kind) bytes.old }
{
    let cursor = Cursor::new(rows_for(bytes.len()));
    if cursor.span > 0 {
        bytes.fill(0);
        write_header(bytes, header_of(kind, cursor));
    }
    cursor
}

impl<'a, E: Coded + Copy> ImageRing<'a, E> {
    // Whether a ring can be laid out over these bytes: 24 and 20 for each of 1 to 3,000 rows.
    pub fn check(bytes: &[u8]) -> Result<(), Refusal>
        ensures { result ≡ refused_if (image_span (length bytes.now) == 0) Span }
    {
        if wrong_span(rows_for(bytes.len())) {
            return Err(Refusal::Span);
        }
        Ok(())
    }

    // A ring that holds no row. Over bytes that are refused it never holds one, and does not write them.
    pub fn new(bytes: &'a mut [u8]) -> Self
        ensures well { ⟦<ImageRing<'a, E> as Archive>⟧.well result }
        ensures fresh { ⟦<ImageRing<'a, E> as Archive>⟧.meaning result ≡ fresh (empty_item E.Monoid.empty) 1 (image_span (length bytes.old)) 1000 }
        ensures lender { result.bytes.ghost_name ≡ bytes.entry.ghost_name }
        ensures bytes { result.bytes.now ≡ laid_out (number_of_kind E.Coded.KIND) bytes.old }
    {
        let cursor = lay_out(bytes, E::KIND);
        ImageRing {
            bytes,
            cursor,
            element: PhantomData,
        }
    }

    // The bytes, which are an image at every moment, unless the ring has no places.
    pub fn bytes(&self) -> &[u8]
        ensures is { result.now ≡ self.now.bytes.now }
        ensures shows { ⟦<ImageRing<'a, E> as Archive>⟧.well self.now → 0 < self.now.cursor.span → Shows (number_of_kind E.Coded.KIND) E.Coded.fault E.Coded.decoded (⟦<ImageRing<'a, E> as Archive>⟧.meaning self.now) result.now }
    {
        self.bytes
    }

    // An image of them, which needs no check; none of a ring without places.
    pub fn open(&self) -> Option<Image<'_, E>>
        ensures { ⟦<ImageRing<'a, E> as Archive>⟧.well self.now → MatchOption result (self.now.cursor.span ≡ 0) (λ image. ImageOfRing (number_of_kind E.Coded.KIND) E.Coded.fault E.Monoid.empty E.Coded.decoded self.now.cursor self.now.bytes.now image.header image.bytes.now) }
    {
        if wrong_span(self.cursor.span as usize) {
            return None;
        }
        Some(Image::of_parts(self.bytes, header_of(E::KIND, self.cursor)))
    }
}

impl<'a, E: Coded + Copy> Archive for ImageRing<'a, E> {
    type Item = Item<E>;

    ghost well = { λ s. Kept (number_of_kind E.Coded.KIND) E.Coded.fault s.cursor s.bytes.now };

    ghost meaning = { λ s. meaning_of E.Monoid.empty E.Coded.decoded s.cursor s.bytes.now };

    ghost sound = { λ s w. image_ring_sound E.Monoid.empty E.Coded.decoded s.cursor s.bytes.now w.turning };

    // Writes the item as the newest row, over the oldest when the ring is full.
    fn store(&mut self, item: Item<E>)
        ensures kept { Kept (number_of_kind E.Coded.KIND) E.Coded.fault self.old.cursor self.old.bytes.now → Kept (number_of_kind E.Coded.KIND) E.Coded.fault self.new.cursor self.new.bytes.now }
        ensures value { Kept (number_of_kind E.Coded.KIND) E.Coded.fault self.old.cursor self.old.bytes.now → meaning_of E.Monoid.empty E.Coded.decoded self.new.cursor self.new.bytes.now ≡ stored (empty_item E.Monoid.empty) (item_joined E.Monoid.joined) (meaning_of E.Monoid.empty E.Coded.decoded self.old.cursor self.old.bytes.now) item }
        ensures lender { self.new.bytes.ghost_name ≡ self.old.bytes.ghost_name }
        ensures none { self.old.cursor.span ≡ 0 → self.new ≡ self.old }
        ensures bytes { Kept (number_of_kind E.Coded.KIND) E.Coded.fault self.old.cursor self.old.bytes.now → 0 < self.old.cursor.span → self.new.bytes.now ≡ recorded self.old.cursor (item_bytes E.Consolidation.amount E.Consolidation.weight item) self.old.bytes.now }
    {
        let cursor = self.cursor;
        if cursor.span == 0 {
            return;
        }
        if write_row(self.bytes, cursor.head, item).is_ok() {
            let next = cursor.next();
            write_turn(self.bytes, next);
            self.cursor = next;
        }
    }

    fn ask(&self, age: u32) -> Option<Item<E>> {
        let place = self.cursor.place(age)?;
        row_at(self.bytes, place)
    }

    // Here and in the other ends alike: with one impl for all ends, code that is generic over archives and makes a layer gets no proof.
    fn width(&self) -> u32 {
        1
    }

    fn span(&self) -> u32 {
        self.cursor.span
    }

    fn allowance(&self) -> u32 {
        WHOLE
    }

    fn begun(&self) -> u32 {
        0
    }

    fn part(&self) -> Item<E> {
        Item::empty()
    }

    fn held(&self) -> u32 {
        self.cursor.held
    }
}
