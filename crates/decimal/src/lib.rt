// Writes a number in decimal into bytes that are lent, or at the end of a text.
// The kit's `itoa` spells numbers too; here they are spelled by code of this crate, since must-fail edits turn its digits and its sign.
#![tactic(auto)]

ghost use Rattle.std.specs.Prelude.{◌≡◌, ◌+◌, length, drop, decimal};
ghost use Rattle.lent_bytes.specs.Placed.{Writes};
ghost use Rattle.lent_bytes.specs.Texts.{Adds};
ghost use Rattle.std.specs.Fmt.{signed_decimal};

use lent_bytes::put;
use lent_bytes::text::{Full, Text};

// The most bytes that an `i64` takes, a sign and nineteen digits; a `u64` takes no more. No memory is had for it.
const LONGEST: usize = 20;

// Spells `value` at the end of `scratch`, and answers where it begins.
fn spell_digits(scratch: &mut [u8; LONGEST], value: u64) -> usize
    ensures text { drop result scratch.new ≡ decimal value }
    ensures start { result + length (decimal value) ≡ 20 }
{
    let mut start = LONGEST;
    let mut rest = value;
    // No `for` over a range: LLVM unrolls its twenty turns, and a short number pays for it.
    loop {
        start -= 1;
        scratch[start] = b'0' + (rest % 10) as u8;
        rest /= 10;
        if rest == 0 {
            return start;
        }
    }
}

// The same, with a sign before the digits of a number below 0.
fn spell(scratch: &mut [u8; LONGEST], value: i64) -> usize
    ensures text { drop result scratch.new ≡ signed_decimal value }
    ensures start { result + length (signed_decimal value) ≡ 20 }
{
    let digits = spell_digits(scratch, value.unsigned_abs());
    if value >= 0 {
        return digits;
    }
    let start = digits - 1;
    scratch[start] = b'-';
    start
}

// Writes `value` in decimal at the place `at` of `out`, and answers the place after it; where it does not fit, nothing is changed, and there is no such place.
// Any place may be asked for, as of `put`.
pub fn write(out: &mut [u8], at: usize, value: i64) -> Option<usize>
    ensures { Writes out.old at (signed_decimal value) result out.new }
{
    let mut scratch = [0; LONGEST];
    let start = spell(&mut scratch, value);
    put(out, at, &scratch[start..])
}

// The same at the end of a text.
pub fn add(text: &mut Text, value: i64) -> Result<(), Full>
    ensures { Adds text.old (signed_decimal value) result text.new }
{
    let mut scratch = [0; LONGEST];
    let start = spell(&mut scratch, value);
    text.put(&scratch[start..])
}

#[cfg(test)]
mod tests;
