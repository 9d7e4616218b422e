//! A world's start on its four files: from their bytes to a world at rest.
//!
//! `recover_world` reads the files and recovers their world. It writes nothing. The engine's
//! `start` then writes the image of the recovered tick, and begins the log anew there.
//! `fresh_files` makes the files of a new world by the same start.
#![tactic(auto)]

mod closed;
mod fresh;
mod reading;
mod recovering;

pub use closed::{are_closed, is_closed_image, is_closed_segment};
pub use fresh::fresh_files;
pub use recovering::{Start, recover_world};
