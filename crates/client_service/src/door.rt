use crate::pulse::Pulse;
use std::alloc::Global;
use std::io;
use std::sync::Arc;

/// Why a connection is closed unanswered.
#[derive(Clone, Copy, Debug, PartialEq, Eq)]
pub enum Unserved {
    NoMemory,
    /// The system gives no more threads.
    NoThread,
}

/// Hears of connections, each time in the thread that serves or accepts them. A call that waits
/// holds up a session or the accepting, so none may.
pub trait Door {
    /// The workers run: clients may come.
    fn opened(&mut self);

    /// A connection is closed unanswered.
    fn session_refused(&mut self, why: Unserved);

    /// The system has no descriptor or no memory for a connection: accepting waits until it has.
    fn shortage_began(&mut self, error: &io::Error);

    /// A connection came after a shortage.
    fn shortage_ended(&mut self);

    /// The listener failed: no more connections are accepted.
    fn listener_failed(&mut self, error: &io::Error);

    /// No more connections are accepted, and the listener is closed.
    fn closed(&mut self);

    /// True if the server is to be left at once, with its workers and sessions as they are. It is
    /// asked after each connection, and ten times a second once no more are accepted.
    fn is_left(&self) -> bool;

    /// The counts of the sessions, if anybody asks for them.
    fn pulse(&self) -> Option<Arc<Pulse, Global>> {
        None
    }
}
