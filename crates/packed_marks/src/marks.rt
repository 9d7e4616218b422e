ghost use Rattle.std.specs.Prelude.{◌≡◌, ◌<◌, ◌*◌, ℕ, length, map, not, replicate, slice_index_or};
ghost use Rattle.std.specs.Prelude.{slice_set, false, IfOk};
ghost use Rattle.packed_marks.specs.Bits.{marked};
ghost use Rattle.packed_marks.specs.Marks.{marks_of, IsPacked};

use crate::bits::{chunks_of, clear_spare, full_marks, has_bit, with_bit};
use std::alloc::{AllocError, Global};
use std::marker::Model;

/// A mark for each cell.
#[derive(Drop)]
pub struct PackedMarks {
    words: Vec<u64>,
    cells: usize,
}

impl Model for PackedMarks {
    ghost use Rattle.std.specs.Prelude.{List, Bool};
    ghost use Rattle.packed_marks.specs.Marks.{marks_of, IsPacked};

    ghost Value = { List Bool };

    ghost view = { λ marks. marks_of marks.cells marks.words.items };

    ghost invariant = { λ marks. IsPacked marks.cells marks.words.items };
}

impl PackedMarks {
    /// Makes the marks of `cells` cells, all set or all clear.
    pub fn new(alloc: Global, cells: usize, set: bool) -> Result<Self, AllocError>
        ensures { IfOk result (λ marks. marks ≡ replicate cells set) }
    {
        let words = equal_marks(alloc, cells, set)?;
        Ok(PackedMarks { words, cells })
    }

    /// Returns the number of cells.
    pub fn len(&self) -> usize
        ensures { result ≡ length self.now }
    {
        self.cells
    }

    /// True if a cell's mark is set.
    pub fn is_set(&self, i: usize) -> bool
        requires { i < length self.now }
        ensures { result ≡ slice_index_or self.now i false }
    {
        has_bit(self.words[i / 64], i % 64)
    }

    /// Sets or clears a cell's mark.
    pub fn put(&mut self, i: usize, set: bool)
        requires { i < length self.old }
        ensures { self.new ≡ slice_set self.old i set }
    {
        self.words[i / 64] = with_bit(self.words[i / 64], i % 64, set);
    }

    /// Makes each mark the opposite of the other's, 64 at a time.
    pub fn set_opposites(&mut self, others: &PackedMarks)
        requires { length self.old ≡ length others.now }
        ensures { self.new ≡ map not others.now }
    {
        invert(&others.words, &mut self.words);
        clear_spare(&mut self.words, self.cells);
    }
}

// Makes mark words with the mark of each cell set, or with none set.
fn equal_marks(alloc: Global, cells: usize, set: bool) -> Result<Vec<u64>, AllocError>
    ensures packed { IfOk result (λ words. IsPacked cells words.items) }
    ensures marks { IfOk result (λ words. marks_of cells words.items ≡ replicate cells set) }
{
    if set {
        full_marks(alloc, cells)
    } else {
        vec![in alloc; 0; chunks_of(cells)]
    }
}

// Makes each mark the opposite of the other's, spare bits too.
fn invert(words: &[u64], others: &mut [u64])
    requires { length others.old ≡ length words.now }
    ensures words { length others.new ≡ length words.now }
    ensures marks { (i : ℕ) → i < 64 * length words.now
        → marked others.new i ≡ not (marked words.now i) }
{
    for (k, word) in words.iter().enumerate() {
        others[k] = !*word;
    }
}
