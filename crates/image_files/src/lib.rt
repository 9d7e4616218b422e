//! Images of a world in files.
//!
//! An image file has a gate, the number of cells with the mark of the file's format, a tick, and
//! the words of that tick. `read_image` reads any bytes in either format: a file is closed, or is
//! open and has one tick's words, or is damaged. Images are written in the second format.
//! `write_words` writes one of given words at tick 0.
//!
//! `ImageKeeper` writes the image of each round into one of two files while the other keeps the
//! newest one. It closes its target, writes the words after the closed gate, makes them durable,
//! and opens the gate last. So whatever a crash leaves, the newest image is there. The target reads
//! as before, is closed, or is the whole image of the round. `images_stay` states that as plain
//! data. The words of a round are those that a `Taker` handed out. For a cell without a word it is
//! the newest image's word.
#![tactic(auto)]

mod answer;
mod chunk;
mod format;
mod keeper;
mod laws;
mod phase;
mod reader;
mod words_image;

pub use answer::ImageAnswer;
pub use chunk::CHUNK_CELLS;
pub use file_format::{Slot, is_shut};
pub use format::{
    CELLS_MAX, FIRST_CELLS_MAX, HEADER_BYTES, TICK_PLACE, WORD_BYTES, image_numbers,
    images_read_back,
};
pub use keeper::ImageKeeper;
pub use laws::images_stay;
pub use phase::Phase;
pub use reader::{ImageState, read_image};
pub use words_image::{image_body, write_words};
