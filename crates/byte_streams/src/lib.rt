//! Bytes from a reader and to a writer, whatever pieces they come and go in.
//!
//! An interrupted call is tried again, as std does. Any other failure is `Device`. The bytes
//! that were read and written are known if the reader's and the writer's contents are known,
//! such as in memory.
#![tactic(auto)]

mod stream;

pub use stream::{read_some, write_whole};
