// The parts of a line, put at the end of a text. They are no `Display`: std's `Write` promises nothing of a writer that has no room.
ghost use Rattle.std.specs.Prelude.{◌∷◌};
ghost use Rattle.std.specs.Fmt.{signed_decimal};
ghost use Rattle.listing.specs.Lines.{ending};
ghost use Rattle.listing.specs.Texts.{Extends};

use lent_bytes::text::{Full, Text};

// A space and a number.
fn put_spaced(text: &mut Text, number: i64) -> Result<(), Full>
    ensures { Extends text.old (32 ∷ signed_decimal number) result text.new }
{
    text.put(b" ")?;
    decimal::add(text, number)
}

// The rest of a line: numbers, each after a space, and the line's end.
pub(crate) fn put_ending(text: &mut Text, numbers: &[i64]) -> Result<(), Full>
    ensures { Extends text.old (ending numbers.now) result text.new }
{
    for number in numbers {
        put_spaced(text, *number)?;
    }
    text.put(b"\n")
}
