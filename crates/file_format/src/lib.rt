//! The properties that all files of a world share. There are two files of each kind. The gate in
//! byte 0 says whether the rest counts. The number after the gate has the mark of the file's
//! format. Numbers have their lowest byte first.
//!
//! A file's gate is opened last, after the rest is durable. An image's is closed before anything
//! after it changes, a log's before its file begins anew. A gate of any other value than
//! `OPEN_GATE` counts as closed, so a torn write of it reads as closed or as whole.
#![tactic(auto)]

mod format;
mod gate;
mod number;
mod slot;

pub use format::{
    Format, MARK_END, MARK_PLACE, NUMBERS, SECOND_MARK, format_of, marked, marked_at,
    marks_read_back,
};
pub use gate::{CLOSED_GATE, OPEN_GATE, is_shut};
pub use number::{
    numbers_read_back, put_u8, put_u16, put_u32, put_u64, u16_at, u32_at, u64_at, write_u64_at,
};
pub use slot::Slot;
