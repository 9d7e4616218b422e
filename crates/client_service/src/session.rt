ghost use Rattle.std.specs.Prelude.{◌≡◌, ◌⊎◌, ◌+◌, ◌<◌, ℕ, List, true, false, OnOk, IfErr, Err};
ghost use Rattle.std.specs.Io.KnownBytes.{Appends, Consumes, IsAtEnd};
ghost use Rattle.sessions.specs.Session.{IsSession, IsCutOff};
ghost use Rattle.client_service.specs.Remote.{IsPosted};

use crate::connection::Connection;
use crate::door::{Door, Unserved};
use crate::remote::Remote;
use sessions::serve_lines;
use std::alloc::Global;
use std::io::{Read, Write};
use std::sync::Wait;
use workers::{Asker, Spins};
use world_actions::Refusal;

/// Shows that a session has ended: only `serve_session` makes one.
#[derive(Drop)]
pub struct Over(());

/// Answers the batches that the reader gives, one line each, as the session of this world. Each
/// line that isn't a fault is the text of a new post of that very batch. It ends as
/// `serve_lines` does.
pub fn serve_batches<R: Wait + Copy, B: Read, W: Write>(
    alloc: Global,
    r: &mut B,
    w: &mut W,
    world: &mut Remote<R>,
) -> Result<(), Refusal>
    ensures whole { OnOk result (IsAtEnd (B.remaining r.new)
        × (input : List ℕ) × Consumes (B.remaining r.old) (B.remaining r.new) input
        × (text : List ℕ) × Appends (W.contents w.old) (W.contents w.new) text
        × IsSession IsPosted world.old input text world.new false) }
    ensures too_long { result ≡ Err Refusal.BadLine
        → (input : List ℕ) × Consumes (B.remaining r.old) (B.remaining r.new) input
        × (text : List ℕ) × Appends (W.contents w.old) (W.contents w.new) text
        × IsSession IsPosted world.old input text world.new true }
    ensures cut_off { result ≡ Err Refusal.Device
        → (input : List ℕ) × Consumes (B.remaining r.old) (B.remaining r.new) input
        × (written : List ℕ) × Appends (W.contents w.old) (W.contents w.new) written
        × IsCutOff IsPosted world.old input written world.new }
    ensures memory { result ≡ Err Refusal.NoMemory
        → (r.new ≡ r.old) × (w.new ≡ w.old) × (world.new ≡ world.old) }
    ensures fault { IfErr result (λ refusal. (refusal ≡ Refusal.NoMemory)
        ⊎ ((refusal ≡ Refusal.BadLine) ⊎ (refusal ≡ Refusal.Device))) }
{
    serve_lines(alloc, r, w, world)
}

/// Serves a connection as the session of this asker, until its client leaves. It also ends if the
/// client neither sends nor takes a byte for as long as the connection waits, or by a fault, which
/// ends no other session. The bytes after a batch that is too long are read and dropped, so that
/// its answer arrives. The door hears of a session that has no memory.
pub fn serve_session<R: Wait + Copy, W: Door + Drop>(
    rt: &R,
    alloc: Global,
    connection: Connection,
    asker: Asker,
    spins: Spins,
    door: W,
) -> Over {
    let mut door = door;
    let pulse = door.pulse();
    if let Some(pulse) = &pulse {
        pulse.session_began();
    }
    let mut world = Remote::new(*rt, alloc, asker).spinning(spins);
    world.count_for(pulse);
    let stream = connection.stream();
    let served = serve_batches(alloc, &mut &*stream, &mut &*stream, &mut world);
    match served {
        Err(Refusal::NoMemory) => door.session_refused(Unserved::NoMemory),
        Err(Refusal::BadLine) => {
            let _ = stream.drain();
        }
        _ => {}
    }
    if let Some(pulse) = door.pulse() {
        pulse.session_ended();
    }
    Over(())
}

/// How many sessions have ended and been joined. Each is counted by what its thread returned. Their
/// connections end after so many seconds of silence.
#[derive(Clone, Copy, Debug, PartialEq, Eq)]
pub struct JoinedSessions {
    count: u32,
    idle: Option<u32>,
}

impl JoinedSessions {
    pub fn none(idle: Option<u32>) -> Self
        ensures { result ≡ record { count = 0; idle = idle } }
    {
        JoinedSessions { count: 0, idle }
    }

    /// Counts a session that is over. Fewer are counted than were started.
    pub fn add(&mut self, _over: Over, _started: u32)
        requires { self.old.count < _started }
        ensures { self.new ≡ record { count = self.old.count + 1; idle = self.old.idle } }
    {
        self.count += 1;
    }

    pub fn count(&self) -> u32
        ensures { result ≡ self.now.count }
    {
        self.count
    }
}
