//! Marks of cells, 64 to a word.
//!
//! Cell i has bit i % 64 of word i / 64, the lowest bit first, and the bits past the last cell are
//! clear. `PackedMarks` owns its words, and contracts see it as the list of its marks. A store may
//! keep mark words elsewhere, such as among atomic words. It works on each word by `has_bit` and
//! `with_bit`, counts the words by `chunks_of`, and begins with those of `full_marks`.
#![tactic(auto)]

mod bits;
mod marks;

pub use bits::{chunks_of, full_marks, has_bit, with_bit};
pub use marks::PackedMarks;
