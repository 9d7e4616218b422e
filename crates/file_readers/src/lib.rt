//! Readers of a world's files. A file may have bytes that its format ignores, after the last
//! word of an image or after the gate that ends a segment's groups, and more of them than
//! there is memory.
//!
//! The readers ask a file for no byte after the greatest length of its format. The bytes that they
//! return are the first ones of the file, and read as all of it. An image's header is read first,
//! and then the words that it counts. A segment is read in pieces, each as long as all before it
//! but of 1 MiB at most, until its groups end.
#![tactic(auto)]

mod forward;
mod image;
mod segment;
mod world_files;

pub use image::{IMAGE_BYTES_MAX, read_image_file};
pub use segment::{PIECE_BYTES, PIECE_BYTES_MAX, read_segment_file};
pub use world_files::read_files;
