// What the program `rows` prints of an image.
#![tactic(auto)]

ghost use Rattle.std.specs.Prelude.{◌≡◌, ◌+◌, ◌≤◌, true, length, is_some, is_ok};
ghost use Rattle.element.specs.Kinds.{number_of_kind};
ghost use Rattle.image.specs.Images.{image_fault};
ghost use Rattle.listing.specs.Listing.{listing, shown_unless};
ghost use Rattle.listing.specs.Shows.{Shows};
ghost use Rattle.listing.specs.Texts.{Puts, Extends};

mod lines;
mod stop;
mod text;

use consolidation::mean::Mean;
use consolidation::single::{Last, Max, Min};
use element::coded::Coded;
use element::kind::Kind;
use image::header::kind_of;
use image::opened::Image;
use lent_bytes::text::{Full, Text};
use lines::{put_header, put_refusal, put_rows};
use stop::Stop;

// Room for every listing: the longest takes 18 bytes for the header's line, and 54 for that of each of 3,000 rows.
pub const MOST_TEXT: usize = 162_018;

// The text of an image of one kind.
fn show<E: Coded + Copy>(text: &mut Text, bytes: &[u8]) -> Result<(), Stop>
    ensures { Shows (shown_unless (image_fault (number_of_kind E.Coded.KIND) E.Coded.fault bytes.now) bytes.now) text.old result text.new }
{
    let image = Image::<E>::open(bytes)?;
    put_header(text, &image)?;
    put_rows(text, &image)?;
    Ok(())
}

// The same of the kind that the image says it is of. Each arm is at another type, which no closure could pick.
fn show_any(text: &mut Text, bytes: &[u8]) -> Result<(), Stop>
    ensures { Shows (listing bytes.now) text.old result text.new }
{
    match kind_of(bytes)? {
        Kind::Min => show::<Min>(text, bytes),
        Kind::Max => show::<Max>(text, bytes),
        Kind::Last => show::<Last>(text, bytes),
        Kind::Mean => show::<Mean>(text, bytes),
    }
}

// The same, and a fault is listed too. Each case of a `Stop` is answered in its own way: a closure for the errors would hold the same `match`.
fn put_listing(text: &mut Text, bytes: &[u8]) -> Result<(), Full>
    ensures text { Extends text.old (listing bytes.now) result text.new }
    ensures fits { text.old.end + 162018 ≤ length text.old.bytes.now → is_ok result ≡ true }
{
    match show_any(text, bytes) {
        Ok(()) => Ok(()),
        Err(Stop::Fault(fault)) => put_refusal(text, fault),
        Err(Stop::Full) => Err(Full),
    }
}

// Puts the listing of an image at the start of `out`, and answers where it ends; or it does not fit, which never is in `MOST_TEXT` bytes.
// What is listed may be anything: a fault is listed too.
pub fn list(bytes: &[u8], out: &mut [u8]) -> Option<usize>
    ensures text { Puts out.old 0 (listing bytes.now) result out.new }
    ensures fits { 162018 ≤ length out.old → is_some result ≡ true }
{
    let mut text = Text::new(out);
    put_listing(&mut text, bytes).ok()?;
    Some(text.end())
}
