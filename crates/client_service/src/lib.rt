//! The clients of a world that workers run: a thread for each connection.
//!
//! `serve_clients` starts the workers of an open world, serves its clients, and stops them.
//! A session reads batches and sends each to the mutator. It writes the log writer's post of a
//! batch, which comes only after the batch's tick is durable. A client that fails or leaves ends
//! only its own session. Sessions that have ended are joined before the next wait for a connection.
#![tactic(auto)]

mod accept;
mod connection;
mod door;
mod failure;
mod incoming;
mod pulse;
mod remote;
mod server;
mod session;
mod session_threads;

pub use accept::{Accepted, Admission, Closed, accept_sessions};
pub use connection::Connection;
pub use door::{Door, Unserved};
pub use pulse::{Counts, Pulse};
pub use remote::Remote;
pub use server::{NotServed, Stopped, serve_clients};
pub use session::{JoinedSessions, Over, serve_batches, serve_session};
