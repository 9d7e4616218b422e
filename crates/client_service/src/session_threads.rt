//! The sessions of a server, each in its own thread.
ghost use Rattle.std.specs.Prelude.{◌≡◌, ◌+◌, ◌<◌, OnOk, OnErr, IfOk, IfSome};
ghost use Rattle.slab.specs.Slab.{slab_len};

use crate::connection::Connection;
use crate::door::{Door, Unserved};
use crate::session::{JoinedSessions, Over, serve_session};
use crossbeam_channel::{Receiver, Sender, bounded};
use slab::Slab;
use std::alloc::{AllocError, Global};
use std::sync::Wait;
use std::thread::{self, JoinHandle, Threads};
use std::time::{Clock, Duration};
use workers::{AskChannel, Asker, Spins};

/// The stack of a session's thread, which needs a tenth of it. The system's own would be 8 MiB, of
/// which the C library keeps five for threads to come, and 160 of these.
const STACK_BYTES: usize = 256 * 1024;

/// How many sessions that have ended may wait to be joined. The thread of a further one ends once
/// there is room, which the next connection or the wait for the last sessions makes. Its
/// connection is closed before.
const ENDS: usize = 1_024;

/// How long the wait for the last sessions goes without asking the door.
const PATIENCE_MILLISECONDS: u64 = 100;

/// The parts that each session is given beside its connection.
#[derive(Drop)]
pub struct Shared<W: Door + Clone + Drop> {
    pub alloc: Global,
    pub spins: Spins,
    pub door: W,
}

/// The sessions that run, each under a key that it sends as it ends.
#[derive(Drop)]
pub struct Sessions {
    asks: AskChannel,
    running: Slab<JoinHandle<Over>>,
    ends: Sender<usize>,
    ended: Receiver<usize>,
    started: u32,
    joined: JoinedSessions,
    ghost balance: { started ≡ joined.count + slab_len running },
}

impl Sessions {
    /// No session yet. They ask on this channel, and their connections end by this silence.
    pub fn new(alloc: Global, asks: AskChannel, idle: Option<u32>) -> Result<Self, AllocError>
        ensures none { IfOk result (λ sessions. sessions.started ≡ 0) }
        ensures idle { IfOk result (λ sessions. sessions.joined.idle ≡ idle) }
    {
        let (ends, ended) = bounded(alloc, ENDS)?;
        Ok(Sessions {
            asks,
            running: Slab::new(alloc),
            ends,
            ended,
            started: 0,
            joined: JoinedSessions::none(idle),
        })
    }

    /// Starts the session of a connection, which has the channel's next number.
    pub fn start<
        R: Threads + Wait + Copy + Send + 'static,
        W: Door + Clone + Drop + Send + 'static,
    >(&mut self, rt: &R, connection: Connection, shared: &Shared<W>) -> Result<(), Unserved>
        requires room { self.old.started < 4294967295 }
        requires idle { connection.idle ≡ self.old.joined.idle }
        ensures ok { OnOk result (self.new.started ≡ self.old.started + 1) }
        ensures numbered { OnOk result (self.new.asks.next ≡ self.old.asks.next + 1) }
        ensures err { OnErr result (self.new.started ≡ self.old.started) }
        ensures same { self.new.joined.idle ≡ self.old.joined.idle }
    {
        let Ok(()) = self.running.reserve(1) else {
            return Err(Unserved::NoMemory);
        };
        let Ok(ends) = self.ends.clone() else {
            return Err(Unserved::NoMemory);
        };
        let Some(asker) = self.asks.session() else {
            return Err(Unserved::NoMemory);
        };
        let key = self.running.vacant_key();
        let session = start_thread(rt, connection, shared, asker, ends, key)?;
        self.running.insert_reserved(session);
        self.started += 1;
        Ok(())
    }

    /// Joins each session that has ended. Its thread is given back to the system.
    pub fn join_ended<R: Threads + Wait>(&mut self, rt: &R)
        ensures started { self.new.started ≡ self.old.started }
        ensures idle { self.new.joined.idle ≡ self.old.joined.idle }
    {
        for _ in rt.forever() {
            match self.ended.try_recv(rt) {
                Ok(key) => self.join(rt, key),
                Err(_) => return,
            }
        }
        unreachable!()
    }

    // Joins the session under this key.
    fn join<R: Threads>(&mut self, rt: &R, key: usize)
        ensures started { self.new.started ≡ self.old.started }
        ensures idle { self.new.joined.idle ≡ self.old.joined.idle }
    {
        if let Some(session) = self.running.try_remove(key) {
            self.joined.add(session.join(rt), self.started);
        }
    }

    /// How many were started.
    pub fn started(&self) -> u32
        ensures { result ≡ self.now.started }
    {
        self.started
    }

    /// Waits until all have ended: those that were started were then joined, each once. It returns
    /// nothing if the server is left meanwhile.
    pub fn join_all<R: Threads + Wait + Clock, W: Door>(
        self,
        rt: &R,
        door: &W,
    ) -> Option<JoinedSessions>
        ensures count { IfSome result (λ joined. joined.count ≡ self.started) }
        ensures idle { IfSome result (λ joined. joined.idle ≡ self.joined.idle) }
    {
        let mut sessions = self;
        for _ in rt.forever() {
            if sessions.running.is_empty() {
                return Some(sessions.joined);
            }
            if door.is_left() {
                return None;
            }
            let patience = Duration::from_millis(PATIENCE_MILLISECONDS);
            if let Ok(key) = sessions.ended.recv_timeout(rt, patience) {
                sessions.join(rt, key);
            }
        }
        unreachable!()
    }
}

// Gives the session of a connection a thread, which sends its key as it ends.
fn start_thread<R: Threads + Wait + Copy + Send + 'static, W: Door + Clone + Drop + Send + 'static>(
    rt: &R,
    connection: Connection,
    shared: &Shared<W>,
    asker: Asker,
    ends: Sender<usize>,
    key: usize,
) -> Result<JoinHandle<Over>, Unserved> {
    let Ok(spins) = shared.spins.clone() else {
        return Err(Unserved::NoMemory);
    };
    let Ok(door) = shared.door.clone() else {
        return Err(Unserved::NoMemory);
    };
    let (here, alloc) = (*rt, shared.alloc);
    let serve = move || {
        let over = serve_session(&here, alloc, connection, asker, spins, door);
        let _ = ends.send(&here, key);
        over
    };
    let thread = thread::Builder::new().stack_size(STACK_BYTES);
    match thread.spawn(rt, serve) {
        Ok(session) => Ok(session),
        Err(_) => Err(Unserved::NoThread),
    }
}
