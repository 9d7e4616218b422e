//! A server of the world in a folder: what it needs of the system, what it prints, and how it ends.
//!
//! `serve_world` serves the world of any four files to the clients of any front. It recovers the
//! world, prints which one it is, runs its start, lets the clients in, and prints how far play
//! came. `serve` does that with the files of a folder and the system's front. Lines leave by a
//! thread for each standard stream, so nobody waits for their readers.
#![tactic(auto)]

mod acked;
mod endpoint;
mod frontend;
mod guarding;
mod heartbeat;
mod kept;
mod line;
mod lines;
mod printer;
mod reporter;
mod room;
mod runtime;
mod served;
mod service;
mod serving;
mod socket;
mod standing;
mod streams;
mod system_frontend;
mod watchdog;

pub use frontend::{Frontend, IntoFrontend, ServedDisk};
pub use line::Line;
pub use runtime::{LookUp, Runtime};
pub use served::{Served, WorldFailure, serve_world, serve_world as serve_tcp};
pub use service::{Address, Clients, Every, Service};
pub use serving::{FolderRun, Left, serve, serve_folder};
pub use socket::SocketMode;
pub use standing::Losses;
