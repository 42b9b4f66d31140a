// Bytes put into a slice that is lent.
#![tactic(auto)]

ghost use Rattle.lent_bytes.specs.Placed.{Writes};

pub mod text;

// Puts `text` at the place `at` of `out`, and answers the place after it; where it does not fit, nothing is changed, and there is no such place.
// Any place may be asked for, also one past the bytes; a `Text` keeps where it ends.
pub fn put(out: &mut [u8], at: usize, text: &[u8]) -> Option<usize>
    ensures { Writes out.old at text.now result out.new }
{
    if at > out.len() || out.len() - at < text.len() {
        return None;
    }
    let end = at + text.len();
    out[at..end].copy_from_slice(text);
    Some(end)
}
