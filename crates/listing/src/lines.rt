// The lines of a listing.
ghost use Rattle.std.specs.Prelude.{◌≡◌, ◌+◌, ◌≤◌, true, length, is_ok};
ghost use Rattle.std.specs.List.{flat_map};
ghost use Rattle.image.specs.Headers.{header_in};
ghost use Rattle.image.specs.Images.{places};
ghost use Rattle.image.specs.Opened.{Opened};
ghost use Rattle.element.specs.Kinds.{number_of_kind};
ghost use Rattle.listing.specs.Listing.{header_line, item_line, row_line, refusal};
ghost use Rattle.listing.specs.Texts.{Extends};

use crate::text::put_ending;
use consolidation::consolidation::Consolidation;
use consolidation::item::Item;
use element::coded::Coded;
use image::fault::ImageFault;
use image::opened::Image;
use lent_bytes::text::{Full, Text};

// `image`, the kind, how many rows there is room for, and how many are held.
pub(crate) fn put_header<E: Coded + Copy>(text: &mut Text, image: &Image<E>) -> Result<(), Full>
    ensures { Opened (number_of_kind E.Coded.KIND) E.Coded.fault image.now.header image.now.bytes.now → Extends text.old (header_line image.now.bytes.now) result text.new }
{
    text.put(b"image")?;
    put_ending(
        text,
        &[
            E::KIND.number() as i64,
            image.span() as i64,
            image.held() as i64,
        ],
    )
}

fn put_row<E: Consolidation + Copy>(text: &mut Text, row: Item<E>) -> Result<(), Full>
    ensures { Extends text.old (item_line E.Consolidation.amount E.Consolidation.weight row) result text.new }
{
    decimal::add(text, row.element.amount())?;
    put_ending(
        text,
        &[row.element.weight() as i64, row.known as i64, row.of as i64],
    )
}

// A line for each row, the oldest first.
pub(crate) fn put_rows<E: Coded + Copy>(text: &mut Text, image: &Image<E>) -> Result<(), Full>
    ensures { Opened (number_of_kind E.Coded.KIND) E.Coded.fault image.now.header image.now.bytes.now → Extends text.old (flat_map (row_line image.now.bytes.now) (places (header_in image.now.bytes.now))) result text.new }
{
    for row in image.rows() {
        put_row(text, row)?;
    }
    Ok(())
}

// `refused`, the fault's number and byte, and of an element its place and what is wrong with it.
pub(crate) fn put_refusal(text: &mut Text, fault: ImageFault) -> Result<(), Full>
    ensures text { Extends text.old (refusal fault) result text.new }
    ensures fits { text.old.end + 162018 ≤ length text.old.bytes.now → is_ok result ≡ true }
{
    text.put(b"refused")?;
    let number = fault.number() as i64;
    let byte = fault.byte() as i64;
    match fault {
        ImageFault::Element(bad) => put_ending(
            text,
            &[number, byte, bad.place as i64, bad.fault.number() as i64],
        ),
        _ => put_ending(text, &[number, byte]),
    }
}
