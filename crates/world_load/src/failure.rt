ghost use Rattle.std.specs.Prelude.{◌≡◌, []};

use crate::address::Address;
use crate::answer::{names_no_cell, refusal_of};
use crate::load::Load;
use std::alloc::{AllocError, AllocFailed, Global};
use std::io::{self, ErrorKind};
use thiserror::Error;
use world_actions::Refusal;

/// Why a load ended too early.
#[derive(Debug, Error, Drop)]
pub enum Failure {
    #[error("out of memory")]
    NoMemory,
    #[error("there is no thread for a connection")]
    NoThread,
    #[error("can't connect to port {port} of 127.0.0.1: {error}")]
    NotConnected { port: u16, error: io::Error },
    #[error("can't connect to {}: {error}", .path.escape_debug())]
    NoSocket { path: String, error: io::Error },
    #[error("the server closed a connection: it has ended, or had no thread or memory for this client")]
    Closed,
    /// A connection was closed in the midst of an answer.
    #[error("the server closed a connection in the midst of an answer: {}", .answer.escape_debug())]
    CutOff { answer: String },
    /// The server refused a batch as a whole.
    #[error("the server refused a batch: {0}")]
    Refused(Refusal),
    #[error("the world has fewer than {cells} cells: --cells is to be at most that of `worldd create`")]
    TooFewCells { cells: u32 },
    /// Another answer that isn't that of the batch.
    #[error("a wrong answer after tick {last}: {}", .answer.escape_debug())]
    Wrong { last: u64, answer: String },
    #[error("{0}")]
    System(io::Error),
}

impl From<AllocError> for Failure {
    fn from(_: AllocError) -> Self {
        Failure::NoMemory
    }
}

impl<T: Drop> From<AllocFailed<T>> for Failure {
    fn from(_: AllocFailed<T>) -> Self {
        Failure::NoMemory
    }
}

impl From<io::Error> for Failure {
    fn from(error: io::Error) -> Self {
        match error.kind() {
            ErrorKind::OutOfMemory => Failure::NoMemory,
            ErrorKind::ConnectionReset | ErrorKind::BrokenPipe => Failure::Closed,
            _ => Failure::System(error),
        }
    }
}

/// Why there is no connection to the server.
pub fn not_connected(alloc: Global, address: Address<'_>, error: io::Error) -> Failure {
    match address {
        Address::Port(port) => Failure::NotConnected { port, error },
        Address::Socket(path) => match String::from_str(alloc, path) {
            Ok(path) => Failure::NoSocket { path, error },
            Err(_) => Failure::NoMemory,
        },
    }
}

/// Why an answer isn't that of a batch of sets after this tick.
pub fn unexpected(alloc: Global, last: u64, load: &Load, answer: &[u8]) -> Failure
    ensures closed { answer.now ≡ [] → result ≡ Failure.Closed }
{
    if answer.is_empty() {
        return Failure::Closed;
    }
    if let Some(refusal) = refusal_of(answer) {
        return Failure::Refused(refusal);
    }
    if names_no_cell(answer) {
        return Failure::TooFewCells { cells: load.cells };
    }
    match String::from_utf8_lossy(alloc, answer.trim_ascii_end()) {
        Ok(answer_text) if answer.ends_with(b"\n") => Failure::Wrong {
            last,
            answer: answer_text,
        },
        Ok(answer_text) => Failure::CutOff {
            answer: answer_text,
        },
        Err(_) => Failure::NoMemory,
    }
}
