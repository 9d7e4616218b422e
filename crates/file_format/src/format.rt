ghost use Rattle.std.specs.Prelude.{◌≡◌, ◌<◌, ◌≤◌, ◌+◌, ℕ, List, length, Some};
ghost use Rattle.file_format.specs.declared.format.Format.{Format};
ghost use Rattle.file_format.specs.Format.{marked_of, marked_in, unmarked, format_in};

use crate::number::u64_at;

/// A format of image and log files. The number after a file's gate is marked with the format. It is
/// the number of cells of an image, or the base of a log segment.
#[derive(Clone, Copy, Debug, PartialEq, Eq)]
pub enum Format {
    /// Three kinds of actions, up to 65,536 cells, and no mark. It is only read, and
    /// no longer written.
    First,
    /// Five kinds of actions, up to 1,048,576 cells. All files are written in it.
    Second,
}

/// The place of the marked number, after the gate.
pub const MARK_PLACE: usize = 1;

/// The number of bytes of the gate and the marked number.
pub const MARK_END: usize = 9;

/// The numbers that may be marked are below this one, which is 2 to the power of 60.
pub const NUMBERS: u64 = 1_152_921_504_606_846_976;

/// The number that the mark of the second format adds, 2 to the power of 61. Byte 8 of such a file
/// is from 20 to 2f in hexadecimal. In the first format it is from 00 to 0f.
pub const SECOND_MARK: u64 = 2_305_843_009_213_693_952;

/// Returns the format and the number after the gate of a file, or `None` if the mark is
/// of neither format.
pub fn marked_at(bytes: &[u8]) -> Option<(Format, u64)>
    requires { MARK_END ≤ length bytes.now }
    ensures { result ≡ marked_in bytes.now }
{
    let marked = u64_at(bytes, MARK_PLACE);
    if marked < NUMBERS {
        return Some((Format::First, marked));
    }
    if marked < SECOND_MARK || marked >= SECOND_MARK + NUMBERS {
        return None;
    }
    Some((Format::Second, marked - SECOND_MARK))
}

/// Returns a number with the mark of the second format.
pub fn marked(number: u64) -> u64
    requires { number < NUMBERS }
    ensures { result ≡ marked_of Format.Second number }
{
    SECOND_MARK + number
}

/// Returns the format of a file of any bytes, open or not. It is `None` if the file is too short
/// for a mark, or the mark is of neither format.
pub fn format_of(bytes: &[u8]) -> Option<Format>
    ensures { result ≡ format_in bytes.now }
{
    if bytes.len() < MARK_END {
        return None;
    }
    let (format, _) = marked_at(bytes)?;
    Some(format)
}

/// Laws: a marked number is read back with its format. A number that reads as a format and a number
/// is their marked number.
pub fn marks_read_back()
    ensures read { (format : Format) (number : ℕ) → number < NUMBERS
        → unmarked (marked_of format number) ≡ Some (format, number) }
    ensures spelled { (marked : ℕ) (format : Format) (number : ℕ)
        → unmarked marked ≡ Some (format, number)
        → (marked ≡ marked_of format number) × (number < NUMBERS) }
{}
