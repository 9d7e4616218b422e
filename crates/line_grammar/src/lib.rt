//! The lines by which a client or a script gives commands to a world.
//!
//! A line is `set CELL VALUE`, `add CELL DIFFERENCE`, `move FROM TO AMOUNT`, `swap CELL CELL`,
//! `cap CELL VALUE`, `end` or `get CELL`. It has one space between words, and none at its ends.
//! Each command has one text, and each text has at most one command. `read_command` returns the
//! command whose text is the line, byte for byte, or `None`. The parts that other lines need are
//! read in the same way: numbers, and the words at the front of a line.
#![tactic(auto)]

mod command;
mod kept;
mod laws;
mod number;
mod word;

pub use command::{Command, LINE_BYTES, read_command};
pub use kept::KeptLine;
pub use laws::{command_length, kept_bytes, line_numbers, one_reading};
pub use number::{read_cell, read_difference, read_number};
pub use word::after;
