//! The figures of a running server, printed again and again.
ghost use Rattle.std.specs.Prelude.{◌≡◌, ◌≤◌, ◌<◌, ◌-◌, ◌*◌, ◌/◌, Some, IfOk};
ghost use Rattle.world_server.specs.Lines.{left_text, report_text};
ghost use Rattle.world_server.specs.Room.{room_after, seconds_left};

use crate::line::Line;
use crate::printer::Printer;
use crate::room::room_after;
use client_service::{Counts, Pulse};
use crossbeam_channel::{Sender, bounded};
use std::alloc::Global;
use std::fmt;
use std::sync::{Arc, Wait};
use std::thread::{self, Threads};
use std::time::{Clock, Duration};
use worker_threads::NotStarted;

/// The figures of a server.
#[derive(Clone, Copy, Debug, PartialEq, Eq)]
pub struct Report {
    pub counts: Counts,
    /// How many batches were answered by a tick each second.
    pub rate: u64,
    /// The seconds until no more tick can end, if play goes on as it did since the last look and no
    /// image opens. Without a tick since then it isn't known.
    pub seconds_left: Option<u64>,
}

impl fmt::Display for Report {
    ghost output = { λ report. Some (report_text report) };

    fn fmt<W: fmt::Write>(&self, f: &mut fmt::Formatter<W>) -> fmt::Result {
        let Report {
            counts,
            rate,
            seconds_left,
        } = self;
        let (tick, acked, image) = (counts.tick, counts.acked, counts.image);
        let (sessions, waiting) = (counts.sessions, counts.waiting);
        write!(f, "tick {tick} acked {acked} image {image}")?;
        let room = RoomReport {
            since: counts.since,
            seconds_left: *seconds_left,
        };
        write!(
            f,
            " sessions {sessions} batches/s {rate} waiting {waiting}{room}"
        )
    }
}

// The room for ticks that is left, and for how many seconds it lasts, if that is known.
#[derive(Clone, Copy)]
struct RoomReport {
    since: u64,
    seconds_left: Option<u64>,
}

impl fmt::Display for RoomReport {
    ghost output = { λ room. Some (left_text room.since room.seconds_left) };

    fn fmt<W: fmt::Write>(&self, f: &mut fmt::Formatter<W>) -> fmt::Result {
        let room = room_after(self.since);
        match self.seconds_left {
            Some(seconds) => write!(f, " room {room} lasts {seconds}"),
            None => write!(f, " room {room}"),
        }
    }
}

/// The thread that prints the figures of a server each time so many seconds have passed.
#[derive(Drop)]
pub struct Reports {
    to: Sender<Arc<Pulse, Global>>,
    seconds: u32,
}

impl Reports {
    /// Lets it begin, with these counts.
    pub fn begin<R: Wait>(&self, rt: &R, pulse: Arc<Pulse, Global>) {
        let _ = self.to.try_send(rt, pulse);
    }
}

/// Starts the thread of the figures, which waits for the counts of a server. It runs on up to the
/// program's end, or ends if no counts can come.
pub fn start_reporter<R: Threads + Wait + Clock + Copy + Send + 'static>(
    rt: &R,
    alloc: Global,
    seconds: u32,
    errors: Printer,
) -> Result<Reports, NotStarted>
    requires { 0 < seconds }
    ensures { IfOk result (λ reports. reports.seconds ≡ seconds) }
{
    let (to, begins) = bounded::<Arc<Pulse, Global>, _>(alloc, 1)?;
    let here = *rt;
    let run = move || {
        if let Ok(pulse) = begins.recv(&here) {
            report_on(&here, seconds, &pulse, &errors);
        }
    };
    match thread::spawn(rt, run) {
        Ok(_) => Ok(Reports { to, seconds }),
        Err(_) => Err(NotStarted::NoThread),
    }
}

// Prints the figures for ever.
fn report_on<R: Wait + Clock>(rt: &R, seconds: u32, pulse: &Pulse, errors: &Printer) {
    let mut before = pulse.counts();
    for _ in rt.forever() {
        thread::sleep(rt, Duration::from_secs(u64::from(seconds)));
        let counts = pulse.counts();
        let report = report_of(before, counts, seconds);
        errors.print(rt, Line::Report(report));
        before = counts;
    }
}

// The figures, of which the rate is that of the last `seconds`.
fn report_of(before: Counts, now: Counts, seconds: u32) -> Report
    ensures counts { result.counts ≡ now }
    ensures rate { 0 < seconds → result.rate ≡ (now.answered - before.answered) / seconds }
    ensures left { result.seconds_left
        ≡ seconds_left (now.tick - before.tick) seconds (room_after now.since) }
{
    let answered = now.answered.saturating_sub(before.answered);
    let ticks = now.tick.saturating_sub(before.tick);
    Report {
        counts: now,
        rate: answered / u64::from(seconds.max(1)),
        seconds_left: seconds_left(ticks, seconds, room_after(now.since)),
    }
}

// In how many seconds the room is used up, if ticks go on to end at this rate.
fn seconds_left(ticks: u64, seconds: u32, room: u64) -> Option<u64>
    requires { room ≤ 65536 }
    ensures { result ≡ seconds_left ticks seconds room }
{
    if ticks == 0 {
        None
    } else {
        Some(room * u64::from(seconds) / ticks)
    }
}
