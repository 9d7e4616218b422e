//! What can still be read of a world's files that `recover` refuses.
//!
//! An image that is damaged is left out. A damaged segment is cut after the last of its leading
//! groups. The rest is replayed in the order of recovery. A group with a refused action is cut off,
//! with all groups after it. `recover` then reads what was kept. A file that is closed, lost or
//! empty counts as closed. Nothing is written.
#![tactic(auto)]

mod image_part;
mod log_part;
mod replay;
mod salvaged;

pub use image_part::ImagePart;
pub use log_part::LogPart;
pub use salvaged::{Salvaged, salvage};
