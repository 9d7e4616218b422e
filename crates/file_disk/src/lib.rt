//! A file of the operating system as a `Disk`.
//!
//! `FileDisk` makes one call of the system for each read and each write, and counts the calls that
//! failed. It is opened to be written or only to be read, and is synced before it is read. No
//! contract states its content, or that it keeps to the disk model: it is not `honest`. A `Witness`
//! looks at its file and locks it beside the thread that writes it.
#![tactic(auto)]

mod locks;
mod opening;
mod pace;
mod system_file;
mod valve;
mod witness;

pub use locks::{LockState, WRITTEN, lock, lock_state};
pub use pace::Pace;
pub use system_file::FileDisk;
pub use valve::Valve;
pub use witness::Witness;
