// The six numbers at the start of an image, and what can be wrong with them.
ghost use Rattle.std.specs.Prelude.{◌≡◌, ◌<◌, ◌≤◌, length};
ghost use Rattle.lent_bytes.specs.Placed.{placed};
ghost use Rattle.element.specs.Faults.{unless};
ghost use Rattle.image.specs.Headers.{header_in, length_fault, kind_fault, span_fault, held_fault, head_kept, head_fault, offset_fault, total_fault, header_fault, front_fault, kind_read};
ghost use Rattle.element.specs.Kinds.{number_of_kind};
ghost use Rattle.image.specs.Images.{place_of};
ghost use Rattle.image.specs.Rings.{header_bytes, turn_bytes};

use crate::fault::ImageFault;
use crate::number::{field, numbers, put_numbers};
use crate::row::ROW;
use archive::cursor::{Cursor, wrong_span};
// The most rows that an image can have room for.
pub use archive::cursor::MOST_ROWS;
use element::kind::Kind;

// The bytes of a header, which stands before the rows.
pub(crate) const HEADER: usize = 24;

// The most bytes that an image can have, 60,024.
pub const MOST_BYTES: usize = HEADER + ROW * MOST_ROWS as usize;

#[derive(Clone, Copy, PartialEq, Eq, Debug)]
pub struct Header {
    // As the bytes have it, which may be no kind's.
    pub(crate) kind: u32,
    // How many rows there is room for.
    pub(crate) span: u32,
    // How many rows are held.
    pub(crate) held: u32,
    // The place that is written next.
    pub(crate) head: u32,
    pub(crate) offset: u32,
    pub(crate) total: u32,
}

// Here and below the room is asked for, of bytes whose length was checked: a type for such bytes would be made anew at each call.
fn read_header(bytes: &[u8]) -> Header
    requires { 24 ≤ length bytes.now }
    ensures { result ≡ header_in bytes.now }
{
    let [kind, span, held, head, offset, total] = numbers::<6>(bytes, 0);
    Header {
        kind,
        span,
        held,
        head,
        offset,
        total,
    }
}

pub(crate) fn write_header(bytes: &mut [u8], header: Header)
    requires { 24 ≤ length bytes.old }
    ensures { bytes.new ≡ placed bytes.old 0 (header_bytes header) }
{
    let Header {
        kind,
        span,
        held,
        head,
        offset,
        total,
    } = header;
    put_numbers(bytes, 0, [kind, span, held, head, offset, total]);
}

// The two numbers of a cursor that change as rows are written.
pub(crate) fn write_turn(bytes: &mut [u8], cursor: Cursor)
    requires { 24 ≤ length bytes.old }
    ensures { bytes.new ≡ placed bytes.old 8 (turn_bytes cursor) }
{
    put_numbers(bytes, 8, [cursor.held, cursor.head]);
}

fn check_length(len: usize) -> Result<(), ImageFault>
    ensures { result ≡ unless (length_fault len) tt }
{
    if len < HEADER || len > MOST_BYTES {
        return Err(ImageFault::Length);
    }
    Ok(())
}

impl Header {
    fn check_kind(&self, kind: Kind) -> Result<(), ImageFault>
        ensures { result ≡ unless (kind_fault (number_of_kind kind) self.now) tt }
    {
        if self.kind != kind.number() {
            return Err(ImageFault::Kind);
        }
        Ok(())
    }

    fn check_span(&self) -> Result<(), ImageFault>
        ensures { result ≡ unless (span_fault self.now) tt }
    {
        if wrong_span(self.span as usize) {
            return Err(ImageFault::Span);
        }
        Ok(())
    }

    fn check_held(&self) -> Result<(), ImageFault>
        ensures { result ≡ unless (held_fault self.now) tt }
    {
        if self.held > self.span {
            return Err(ImageFault::Held);
        }
        Ok(())
    }

    // Until the ring is full, the next place is the one after the rows held; then it goes round.
    fn head_kept(&self) -> bool
        ensures { result ≡ head_kept self.now }
    {
        if self.held < self.span {
            self.head == self.held
        } else {
            self.head < self.span
        }
    }

    fn check_head(&self) -> Result<(), ImageFault>
        ensures { result ≡ unless (head_fault self.now) tt }
    {
        if !self.head_kept() {
            return Err(ImageFault::Head);
        }
        Ok(())
    }

    fn check_offset(&self) -> Result<(), ImageFault>
        ensures { result ≡ unless (offset_fault self.now) tt }
    {
        if self.offset as usize != HEADER {
            return Err(ImageFault::Offset);
        }
        Ok(())
    }

    fn check_total(&self, len: usize) -> Result<(), ImageFault>
        ensures { result ≡ unless (total_fault len self.now) tt }
    {
        let total = self.total as usize;
        if total != HEADER + ROW * self.span as usize || total != len {
            return Err(ImageFault::Total);
        }
        Ok(())
    }

    // Where the row of an index stands, the oldest being the first. `Cursor::place` counts from the newest: by it, an image would need a cursor beside its header.
    pub(crate) fn place_of(&self, index: u32) -> u32
        requires { (self.now.head ≤ self.now.held) × (index < self.now.held) }
        ensures { result ≡ place_of self.now.head self.now.held index }
    {
        let after_head = self.held - self.head;
        if index < after_head {
            self.head + index
        } else {
            index - after_head
        }
    }

    // The first fault that applies.
    fn check(&self, kind: Kind, len: usize) -> Result<(), ImageFault>
        ensures { result ≡ unless (header_fault (number_of_kind kind) len self.now) tt }
    {
        self.check_kind(kind)?;
        self.check_span()?;
        self.check_held()?;
        self.check_head()?;
        self.check_offset()?;
        self.check_total(len)
    }
}

// The header of an image of this kind, or the first fault of its length and its header.
pub(crate) fn open_header(bytes: &[u8], kind: Kind) -> Result<Header, ImageFault>
    ensures { result ≡ unless (front_fault (number_of_kind kind) bytes.now) (header_in bytes.now) }
{
    check_length(bytes.len())?;
    let header = read_header(bytes);
    header.check(kind, bytes.len())?;
    Ok(header)
}

// Which kind of image the bytes say they are.
pub fn kind_of(bytes: &[u8]) -> Result<Kind, ImageFault>
    ensures { result ≡ kind_read bytes.now }
{
    check_length(bytes.len())?;
    Ok(Kind::try_from(u32::from_le_bytes(field(bytes, 0)))?)
}
