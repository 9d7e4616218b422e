ghost use Rattle.std.specs.Prelude.{◌≡◌, ◌+◌, ◌*◌, ◌≤◌, [], length, take, map};
ghost use Rattle.std.specs.List.{flat_map};
ghost use Rattle.file_format.specs.Number.{number_bytes};
ghost use Rattle.image_files.specs.Image.{number_at, words_from};
ghost use Rattle.image_files.specs.Taken.{word_of, filled_words, has_same};

use crate::format::WORD_BYTES;
use capture_core::Taken;
use file_format::{u64_at, write_u64_at};

/// The number of cells that are written, and read from the newest image, at once.
pub const CHUNK_CELLS: usize = 64;

/// True if some cell's word is to come from the newest image.
pub fn any_same(cells: &[Taken]) -> bool
    ensures { result ≡ has_same cells.now }
{
    for cell in cells {
        if let Taken::Same = cell {
            return true;
        }
    }
    false
}

/// Gives the cells without a word of their own the words in these bytes, which are
/// the newest image's.
pub fn fill(cells: &mut [Taken], bytes: &[u8])
    requires { WORD_BYTES * length cells.old ≤ length bytes.now }
    ensures { cells.new ≡ map (λ word. Taken.Word word)
        (filled_words cells.old (words_from bytes.now 0 (length cells.old))) }
{
    for i in 0..cells.len() {
        cells[i] = filled_cell(cells[i], bytes, WORD_BYTES * i);
    }
}

fn filled_cell(cell: Taken, bytes: &[u8], place: usize) -> Taken
    requires { place + WORD_BYTES ≤ length bytes.now }
    ensures { result ≡ Taken.Word (word_of cell (number_at bytes.now place)) }
{
    match cell {
        Taken::Word(word) => Taken::Word(word),
        Taken::Same => Taken::Word(u64_at(bytes, place)),
    }
}

/// Writes the words of cells, and 0 for a cell without its own word.
pub fn encode(buffer: &mut [u8], cells: &[Taken])
    requires { WORD_BYTES * length cells.now ≤ length buffer.old }
    ensures { take (WORD_BYTES * length cells.now) buffer.new
        ≡ flat_map (number_bytes WORD_BYTES) (filled_words cells.now []) }
{
    for i in 0..cells.len() {
        write_u64_at(buffer, WORD_BYTES * i, own_word(cells[i]));
    }
}

fn own_word(cell: Taken) -> u64
    ensures { result ≡ word_of cell 0 }
{
    match cell {
        Taken::Word(word) => word,
        Taken::Same => 0,
    }
}
