ghost use Rattle.std.specs.Prelude.{◌<◌, ◌^◌, ◌↔◌, decimal, unsigned_abs, IsTrue, pos, ◌≤ℤ◌};
ghost use Rattle.std.specs.Fmt.{signed_decimal};
ghost use Rattle.line_grammar.specs.Number.{StartsNumber};
ghost use Rattle.line_grammar.specs.Reading.{IsReading};

use crate::word::after;

/// Reads a number: `0`, or a digit from 1 to 9 with digits after it.
pub fn read_number(text: &[u8]) -> Option<u64>
    ensures { IsReading decimal (λ n. n < 2 ^ 64) text.now result }
{
    if !starts_number(text) {
        return None;
    }
    let digits = str::from_utf8(text).ok()?;
    digits.parse().ok()
}

// True if the text starts with a digit, and with 0 only if nothing follows.
fn starts_number(text: &[u8]) -> bool
    ensures { IsTrue result ↔ StartsNumber text.now }
{
    !text.is_empty() && text[0].is_ascii_digit() && (text[0] != b'0' || text.len() == 1)
}

/// Reads the number of a cell.
pub fn read_cell(text: &[u8]) -> Option<u32>
    ensures { IsReading decimal (λ n. n < 2 ^ 32) text.now result }
{
    let number = read_number(text)?;
    u32::try_from(number).ok()
}

/// Reads a difference: a number, or one other than 0 after a minus.
pub fn read_difference(text: &[u8]) -> Option<i64>
    ensures { IsReading signed_decimal (λ z. unsigned_abs z < 2 ^ 63) text.now result }
{
    let Some(digits) = after(text, b"-") else {
        return read_magnitude(text);
    };
    let magnitude = read_magnitude(digits)?;
    if magnitude == 0 {
        None
    } else {
        Some(-magnitude)
    }
}

// Reads a difference that has no minus.
fn read_magnitude(text: &[u8]) -> Option<i64>
    ensures { IsReading signed_decimal (λ z. (pos 0 ≤ℤ z) × (unsigned_abs z < 2 ^ 63))
        text.now result }
{
    let number = read_number(text)?;
    i64::try_from(number).ok()
}
