ghost use Rattle.std.specs.Prelude.{◌≡◌, ◌≢◌, ℕ, ◌<◌, length, IfOk};
ghost use Rattle.packed_marks.specs.Bits.{chunks, is_set, marked, AreSpareClear, IsFull};

use std::alloc::{AllocError, Global};

/// Returns the number of words that the marks of `cells` cells take.
pub fn chunks_of(cells: usize) -> usize
    ensures { result ≡ chunks cells }
{
    cells.div_ceil(64)
}

/// True if a bit is set. The lowest bit is bit 0.
pub fn has_bit(word: u64, bit: usize) -> bool
    requires { bit < 64 }
    ensures { result ≡ is_set word bit }
{
    (word >> bit) & 1 == 1
}

/// Returns the word with one bit set or cleared.
pub fn with_bit(word: u64, bit: usize, set: bool) -> u64
    requires { bit < 64 }
    ensures here { is_set result bit ≡ set }
    ensures others { (j : ℕ) → j < 64 → j ≢ bit → is_set result j ≡ is_set word j }
{
    if set {
        word | 1 << bit
    } else {
        word & !(1 << bit)
    }
}

/// Makes mark words with the mark of each cell set, and no bit past the last cell.
pub fn full_marks(alloc: Global, cells: usize) -> Result<Vec<u64>, AllocError>
    ensures { IfOk result (λ words. IsFull cells words.items) }
{
    let mut words = Vec::from_elem(alloc, u64::MAX, chunks_of(cells))?;
    clear_spare(&mut words, cells);
    Ok(words)
}

// Clears the bits past the last cell, all of them in the last word.
pub(crate) fn clear_spare(words: &mut [u64], cells: usize)
    requires { length words.old ≡ chunks cells }
    ensures words { length words.new ≡ chunks cells }
    ensures cells { (i : ℕ) → i < cells → marked words.new i ≡ marked words.old i }
    ensures spare { AreSpareClear cells words.new }
{
    let rest = cells % 64;
    if rest != 0 {
        words[cells / 64] &= (1 << rest) - 1;
    }
}
