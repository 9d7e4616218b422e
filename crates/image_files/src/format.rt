ghost use Rattle.std.specs.Prelude.{◌≡◌, ◌*◌, ◌^◌, ◌<◌, ◌≤◌, ◌⊎◌, ◌↔◌, ◌++◌, ℕ, List, length, take};
ghost use Rattle.world_actions.specs.declared.world.TheConstants.{LIMIT};
ghost use Rattle.world_actions.specs.World.{IsWorld};
ghost use Rattle.world_ticks.specs.declared.tick.TheConstants.{TICK_MAX};
ghost use Rattle.file_format.specs.declared.gate.TheConstants.{OPEN_GATE, CLOSED_GATE};
ghost use Rattle.file_format.specs.Gate.{HasOpenGate};
ghost use Rattle.file_format.specs.declared.format.TheConstants.{MARK_PLACE, MARK_END, NUMBERS};
ghost use Rattle.file_format.specs.declared.format.TheConstants.{SECOND_MARK};
ghost use Rattle.file_format.specs.declared.format.Format.{Format};
ghost use Rattle.file_format.specs.Number.{IsBytes};
ghost use Rattle.image_files.specs.Image.{Image, image_of, image_bytes, header_bytes, cells_most};
ghost use Rattle.image_files.specs.Image.{cells_in, tick_in};

use file_format::{
    Format, marked, marked_at, marks_read_back, numbers_read_back, u64_at, write_u64_at,
};

/// The greatest number of cells in an image of the first format; the least is 1.
pub const FIRST_CELLS_MAX: u64 = 65_536;

/// The greatest number of cells in an image of the second format, in which images are written; the
/// least is 1.
pub const CELLS_MAX: u64 = 1_048_576;

/// The place of the tick, after the gate and the number of cells. The number of cells has the
/// mark of the format.
pub const TICK_PLACE: usize = 9;

/// The number of bytes of a word, and of each other number of an image.
pub const WORD_BYTES: usize = 8;

/// The number of bytes of the gate, the number of cells and the tick. The words follow.
pub const HEADER_BYTES: usize = 17;

/// Laws: the bytes of an image are read back in each format, whatever follows. An open file begins
/// with the bytes of its image in one of the formats, and the image is of a world. A file reads as
/// closed exactly if it is too short for a header or its gate isn't open.
#[tactic(auto, unfolding(crate::specs::Image::image_of))]
pub fn images_read_back()
    ensures read { (format : Format) (tick : ℕ) (words rest : List ℕ) → tick ≤ TICK_MAX
        → IsWorld words → length words ≤ cells_most format
        → image_of (image_bytes format tick words ++ rest) ≡ Image.Open tick words }
    ensures spelled { (bytes : List ℕ) (tick : ℕ) (words : List ℕ) → IsBytes bytes
        → image_of bytes ≡ Image.Open tick words
        → (format : Format) × (length words ≤ cells_most format)
        × (rest : List ℕ) × (bytes ≡ image_bytes format tick words ++ rest) }
    ensures bounds { (bytes : List ℕ) (tick : ℕ) (words : List ℕ)
        → image_of bytes ≡ Image.Open tick words → (tick ≤ TICK_MAX) × IsWorld words }
    ensures closed { (bytes : List ℕ) → (image_of bytes ≡ Image.Closed)
        ↔ ((length bytes < HEADER_BYTES) ⊎ ¬ HasOpenGate bytes) }
{
    numbers_read_back();
    marks_read_back();
}

/// Law: the numbers of an image file. The definitions of the format cite the constants.
pub fn image_numbers()
    ensures gates { (OPEN_GATE ≡ 1) × (CLOSED_GATE ≡ 0) }
    ensures marks { (MARK_PLACE ≡ 1) × (MARK_END ≡ 9) × (NUMBERS ≡ 2 ^ 60)
        × (SECOND_MARK ≡ 2 ^ 61) }
    ensures places { (TICK_PLACE ≡ 9) × (HEADER_BYTES ≡ 17) × (WORD_BYTES ≡ 8) }
    ensures cells { (FIRST_CELLS_MAX ≡ 65_536) × (CELLS_MAX ≡ 1_048_576) }
    ensures limits { (LIMIT ≡ 999_999_999_999_999_999) × (TICK_MAX ≡ 1_000_000_000_000_000_000) }
{}

/// Returns the greatest number of cells that an image of a format may have.
pub fn cells_most(format: Format) -> u64
    ensures { result ≡ cells_most format }
{
    match format {
        Format::First => FIRST_CELLS_MAX,
        Format::Second => CELLS_MAX,
    }
}

/// Writes the number of cells and the tick to the front of a buffer, as the second format has
/// them after the gate.
#[tactic(auto, unfolding(file_format::specs::Number::number_bytes))]
pub fn encode_header(buffer: &mut [u8], cells: u64, tick: u64)
    requires room { 2 * WORD_BYTES ≤ length buffer.old }
    requires cells { cells < NUMBERS }
    ensures { take (2 * WORD_BYTES) buffer.new ≡ header_bytes Format.Second cells tick }
{
    write_u64_at(buffer, 0, marked(cells));
    write_u64_at(buffer, WORD_BYTES, tick);
}

/// Returns the number of cells in the header of a file. It is `None` if the mark is of neither
/// format, or its format has no image of so many cells.
pub fn decode_cells(bytes: &[u8]) -> Option<u64>
    requires { MARK_END ≤ length bytes.now }
    ensures { result ≡ cells_in bytes.now }
{
    let (format, cells) = marked_at(bytes)?;
    if cells == 0 || cells > cells_most(format) {
        return None;
    }
    Some(cells)
}

/// Returns the tick in the header of a file.
pub fn decode_tick(bytes: &[u8]) -> u64
    requires { HEADER_BYTES ≤ length bytes.now }
    ensures { result ≡ tick_in bytes.now }
{
    u64_at(bytes, TICK_PLACE)
}
