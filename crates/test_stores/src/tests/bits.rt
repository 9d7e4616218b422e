use super::same::same;
use packed_marks::{chunks_of, full_marks, has_bit, with_bit};
use std::alloc::Global;
use std::process::Abort;

// Numbers of cells, and how many words their marks have.
const COUNTS: [(usize, usize); 7] = [
    (0, 0),
    (1, 1),
    (63, 1),
    (64, 1),
    (65, 2),
    (130, 3),
    (usize::MAX, 1 << 58),
];

#[test]
fn counts_words_of_cells(rt: HostRuntime) {
    for (cells, words) in &COUNTS {
        same(&rt, chunks_of(*cells), *words);
    }
}

#[test]
fn reads_and_changes_one_bit(rt: HostRuntime) {
    assert!(rt; has_bit(6, 1) && !has_bit(6, 0) && has_bit(1 << 63, 63));
    same(&rt, with_bit(6, 0, true), 7);
    same(&rt, with_bit(6, 2, false), 2);
    same(&rt, with_bit(6, 2, true), 6);
    same(&rt, with_bit(0, 63, true), 1 << 63);
}

// Numbers of cells, and their full marks.
const FULL: [(usize, &[u64]); 3] = [(0, &[]), (64, &[u64::MAX]), (130, &[u64::MAX, u64::MAX, 3])];

#[test]
fn full_marks_end_with_last_cell(rt: HostRuntime) {
    for (cells, words) in &FULL {
        check_full(&rt, rt.alloc(), *cells, words);
    }
}

// Asserts that the full marks of so many cells are these words.
fn check_full(rt: &impl Abort, alloc: Global, cells: usize, words: &[u64]) {
    let full = full_marks(alloc, cells).expect(rt, "memory");
    same(rt, full.as_slice(), words);
}
