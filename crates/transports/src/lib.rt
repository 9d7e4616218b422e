//! Connections on this machine: by a port of 127.0.0.1, or by a socket of the system,
//! which has a file.
//!
//! Whoever accepts, reads and writes need not know which of the two it is.
#![tactic(auto)]

mod listener;
mod local_port;
mod stream;

pub use listener::Listener;
pub use local_port::LocalPort;
pub use stream::Stream;
