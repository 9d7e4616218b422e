//! Files of a disk that may fail and that a crash may stop.
//!
//! `Disk` is a file as the writers of images and of the log know it. It has a content that reads
//! give, a set of bytes that a crash may leave of it now, and a count of the calls that failed. A
//! write may be torn until a sync succeeds, whether the write failed or not.
//!
//! `ModelFile` is a file in memory that is exactly such a file. It keeps the durable bytes beside
//! the content, and takes any crash that may happen. `Fused` makes a call of any disk fail.
#![tactic(auto)]

mod disk;
mod four_files;
mod fused;
mod leaving;
mod model_file;
mod places;
mod whole_file;
mod world_file;

pub use disk::Disk;
pub use four_files::FourFiles;
pub use fused::Fused;
pub use leaving::Leaving;
pub use model_file::ModelFile;
pub use whole_file::read_all;
pub use world_file::{IMAGE_A, IMAGE_B, LOG_A, LOG_B, WorldFile};
