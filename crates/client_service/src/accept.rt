ghost use Rattle.std.specs.Prelude.{◌≡◌, ◌≢◌, ◌+◌, ◌≤◌};

use crate::door::Door;
use crate::failure::{AcceptFailure, Shortage};
use crate::incoming::Incoming;
use crate::session::JoinedSessions;
use crate::session_threads::{Sessions, Shared};
use std::alloc::Global;
use std::io;
use std::sync::Wait;
use std::thread::Threads;
use std::time::Clock;
use transports::Listener;
use workers::{AskChannel, Spins};

/// Which clients a server takes.
#[derive(Clone, Copy, Debug, PartialEq, Eq)]
pub struct Admission {
    /// After how many connections it accepts no more.
    pub clients: u32,
    /// After how many seconds in which its client sends or takes no byte a session ends. Without a
    /// number it never does.
    pub idle: Option<u32>,
}

/// Why no more connections are accepted.
#[derive(Clone, Copy, Debug)]
pub enum Closed {
    /// All that were asked for came.
    AllCame,
    /// There was no memory to begin.
    NoMemory,
    /// The listener failed.
    Failed(io::Error),
    /// The server was left. Its sessions may run on.
    Left,
}

/// How accepting connections ended.
#[derive(Clone, Copy, Debug)]
pub struct Accepted {
    /// How many came: each had a session, or is among the unserved.
    pub connections: u32,
    /// The sessions, each of which has ended and was joined.
    pub sessions: JoinedSessions,
    /// How many were closed unanswered, or left before they were accepted.
    pub unserved: u32,
    pub closed: Closed,
}

/// Accepts the admitted connections, and serves each in its own thread. It waits out a shortage of
/// descriptors or memory. A client that can be given no thread or no memory is closed unanswered.
/// After the last one, or a failure of the listener, it closes the listener and waits for the
/// sessions. It comes back at once if the server is left.
pub fn accept_sessions<
    R: Threads + Wait + Clock + Copy + Send + 'static,
    W: Door + Clone + Drop + Send + 'static,
>(
    rt: &R,
    alloc: Global,
    listener: Listener,
    admission: Admission,
    asks: AskChannel,
    spins: Spins,
    door: W,
) -> Accepted
    ensures all { result.closed ≡ Closed.AllCame → result.connections ≡ admission.clients }
    ensures some { result.connections ≤ admission.clients }
    ensures memory { result.closed ≡ Closed.NoMemory → result.connections ≡ 0 }
    ensures joined { result.closed ≢ Closed.Left
        → result.connections ≡ result.sessions.count + result.unserved }
    ensures idle { result.closed ≢ Closed.Left → result.sessions.idle ≡ admission.idle }
{
    let idle = admission.idle;
    let Ok(mut sessions) = Sessions::new(alloc, asks, idle) else {
        return Accepted {
            connections: 0,
            sessions: JoinedSessions::none(idle),
            unserved: 0,
            closed: Closed::NoMemory,
        };
    };
    let mut shared = Shared { alloc, spins, door };
    let mut incoming = Incoming::new(listener, idle);
    shared.door.opened();
    let closed = accept_all(
        rt,
        &mut incoming,
        admission.clients,
        &mut shared,
        &mut sessions,
    );
    let connections = incoming.close();
    shared.door.closed();
    let Shared { door, .. } = shared;
    finish(rt, sessions, connections, closed, &door)
}

// Joins each session, and returns how accepting ended.
fn finish<R: Threads + Wait + Clock, W: Door>(
    rt: &R,
    sessions: Sessions,
    connections: u32,
    closed: Closed,
    door: &W,
) -> Accepted
    requires { sessions.started ≤ connections }
    ensures closed { result.closed ≢ Closed.Left → result.closed ≡ closed }
    ensures connections { result.connections ≡ connections }
    ensures joined { result.closed ≢ Closed.Left
        → result.connections ≡ result.sessions.count + result.unserved }
    ensures idle { result.closed ≢ Closed.Left → result.sessions.idle ≡ sessions.joined.idle }
{
    let unserved = connections - sessions.started();
    match (closed, sessions.join_all(rt, door)) {
        (Closed::Left, _) | (_, None) => Accepted {
            connections,
            sessions: JoinedSessions::none(None),
            unserved,
            closed: Closed::Left,
        },
        (closed, Some(sessions)) => Accepted {
            connections,
            sessions,
            unserved,
            closed,
        },
    }
}

// Accepts the admitted connections, and starts a session for each that it can. It returns why it
// ended.
fn accept_all<
    R: Threads + Wait + Clock + Copy + Send + 'static,
    W: Door + Clone + Drop + Send + 'static,
>(
    rt: &R,
    incoming: &mut Incoming,
    clients: u32,
    shared: &mut Shared<W>,
    sessions: &mut Sessions,
) -> Closed
    requires none { (sessions.old.started ≡ 0) × (incoming.old.came ≡ 0) }
    requires idle { incoming.old.idle ≡ sessions.old.joined.idle }
    ensures all { result ≡ Closed.AllCame → incoming.new.came ≡ clients }
    ensures memory { result ≢ Closed.NoMemory }
    ensures some { incoming.new.came ≤ clients }
    ensures started { sessions.new.started ≤ incoming.new.came }
    ensures same { sessions.new.joined.idle ≡ sessions.old.joined.idle }
{
    let mut shortage = Shortage::none();
    for _ in rt.forever() {
        sessions.join_ended(rt);
        if shared.door.is_left() {
            return Closed::Left;
        }
        if incoming.came() == clients {
            return Closed::AllCame;
        }
        match incoming.next() {
            Ok(connection) => {
                shortage.pass(&mut shared.door);
                if let Err(why) = sessions.start(rt, connection, shared) {
                    shared.door.session_refused(why);
                }
            }
            Err((AcceptFailure::Interrupted | AcceptFailure::OneClient, _)) => {}
            Err((AcceptFailure::Shortage, error)) => shortage.wait(rt, &mut shared.door, &error),
            Err((AcceptFailure::Listener, error)) => {
                shared.door.listener_failed(&error);
                return Closed::Failed(error);
            }
        }
    }
    unreachable!()
}
