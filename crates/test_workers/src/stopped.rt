//! Workers that have ended and met: whatever a crash leaves of their files, it has
//! each answered tick.
use crate::running::{begin, end};
use crate::same::same;
use crate::worlds::{found_in, new_files};
use batches::{Batch, Request};
use client_service::Remote;
use crossbeam_channel::unbounded;
use disk_model::{Leaving, ModelFile};
use sessions::World;
use shared_capture::{Method, Pong, Zig};
use std::alloc::Global;
use std::process::Abort;
use std::sync::Wait;
use std::thread::{self, JoinHandle, Threads};
use worker_steps::Gates;
use worker_threads::StoppedWorkers;
use workers::{AskChannel, Asker, Cut};
use world_actions::{Action, Refusal};

/// After how many ticks a round is due.
const EVERY: u32 = 2;

const SESSIONS: u64 = 3;

/// The batches of a session, each of which adds 1 to the first cell.
const BATCHES: u64 = 3;

/// The ticks of all sessions.
const TICKS: u64 = 9;

/// More steps than the first round of two cells has, and than there are ticks.
const STEPS: u64 = 16;

/// How many steps each worker makes before it is held for good.
#[derive(Clone, Copy)]
struct Limits {
    mutator: Option<u64>,
    checkpointer: Option<u64>,
    log_writer: Option<u64>,
}

/// Which workers are held.
#[derive(Clone, Copy)]
enum Stopped {
    Mutator,
    LogWriter,
    All,
}

// Limits that let these workers make so many steps.
fn limits_of(stopped: Stopped, steps: u64) -> Limits {
    let steps = Some(steps);
    match stopped {
        Stopped::Mutator => Limits {
            mutator: steps,
            checkpointer: None,
            log_writer: None,
        },
        Stopped::LogWriter => Limits {
            mutator: None,
            checkpointer: None,
            log_writer: steps,
        },
        Stopped::All => Limits {
            mutator: steps,
            checkpointer: steps,
            log_writer: steps,
        },
    }
}

impl Limits {
    // A worker without a limit is never held.
    fn cuts(self) -> Gates<Cut, Cut, Cut> {
        Gates {
            mutator: cut_after(self.mutator),
            checkpointer: cut_after(self.checkpointer),
            log_writer: cut_after(self.log_writer),
        }
    }
}

fn cut_after(steps: Option<u64>) -> Cut {
    Cut {
        left: steps.unwrap_or(u64::MAX),
    }
}

fn one_more(alloc: Global) -> Result<Batch, Refusal> {
    let mut batch = Batch::new(alloc)?;
    batch.push_reserved(Request::Act(Action::Add { cell: 0, by: 1 }));
    Ok(batch)
}

// Sends a batch. Returns 1 if it is answered by a tick, else 0.
fn play_one<R: Wait + Copy>(alloc: Global, world: &mut Remote<R>) -> u64 {
    match one_more(alloc) {
        Ok(batch) => u64::from(world.batch(&batch, &mut Vec::new(alloc)).is_ok()),
        Err(_) => 0,
    }
}

// Plays a session, and counts its batches that are answered by a tick.
fn play<R: Wait + Copy>(rt: &R, alloc: Global, asker: Asker) -> u64 {
    let mut world = Remote::new(*rt, alloc, asker);
    let mut answered = 0u64;
    for _ in 0..BATCHES {
        answered = answered.saturating_add(play_one(alloc, &mut world));
    }
    answered
}

fn start_session<R: Threads + Wait + Abort + Copy + Send + 'static>(
    rt: &R,
    alloc: Global,
    asks: &mut AskChannel,
) -> JoinHandle<u64> {
    let asker = asks.session().expect(rt, "a session");
    let here = *rt;
    match thread::spawn(rt, move || play(&here, alloc, asker)) {
        Ok(session) => session,
        Err(_) => panic!(rt; "no thread"),
    }
}

// Starts all sessions, which send their batches on this channel.
fn start_sessions<R: Threads + Wait + Abort + Copy + Send + 'static>(
    rt: &R,
    alloc: Global,
    asks: &mut AskChannel,
) -> Vec<JoinHandle<u64>> {
    let mut sessions = Vec::new(alloc);
    for _ in 0..SESSIONS {
        sessions
            .push(start_session(rt, alloc, asks))
            .expect(rt, "memory");
    }
    sessions
}

fn join_sessions(rt: &impl Threads, sessions: Vec<JoinHandle<u64>>) -> u64 {
    let mut answered = 0u64;
    for session in sessions {
        answered = answered.saturating_add(session.join(rt));
    }
    answered
}

// Plays all sessions at once, and counts the batches that are answered by a tick.
fn play_sessions<R: Threads + Wait + Abort + Copy + Send + 'static>(
    rt: &R,
    alloc: Global,
    asks: AskChannel,
) -> u64 {
    let mut asks = asks;
    let sessions = start_sessions(rt, alloc, &mut asks);
    drop(asks);
    join_sessions(rt, sessions)
}

// Runs workers, which make so many steps, in a new world of two cells, and brings their ends
// together. Also returns how many batches were answered by a tick.
fn run<M: Method + Send + 'static, R: Threads + Wait + Abort + Copy + Send + 'static>(
    rt: &R,
    alloc: Global,
    limits: Limits,
) -> (StoppedWorkers<M, ModelFile, Cut, Cut, Cut>, u64) {
    let (to, _heard) = unbounded(alloc).expect(rt, "a channel");
    let files = new_files(rt, alloc, 2);
    let (workers, asks) = begin(rt, alloc, files, limits.cuts(), to, EVERY);
    let answered = play_sessions(rt, alloc, asks);
    (end(rt, workers), answered)
}

// Each tick was answered. Whatever a crash leaves, recovery finds the last tick.
fn check_stopped<M: Method>(
    rt: &impl Abort,
    alloc: Global,
    stopped: &StoppedWorkers<M, ModelFile, Cut, Cut, Cut>,
    answered: u64,
) {
    let ticks = (answered, stopped.mutator.ended(), stopped.acked());
    let all = (TICKS, TICKS, TICKS);
    same(rt, "ticks answered, ended and acknowledged", ticks, all);
    for leaving in [Leaving::Lose, Leaving::Keep, Leaving::Fill(1)] {
        let found = found_after(rt, alloc, stopped, leaving);
        same(rt, "what stands after a crash", found, (TICKS, TICKS));
    }
}

// Recovers from what a crash of this kind leaves. Returns the tick, and the word of the first cell.
fn found_after<M: Method>(
    rt: &impl Abort,
    alloc: Global,
    stopped: &StoppedWorkers<M, ModelFile, Cut, Cut, Cut>,
    leaving: Leaving,
) -> (u64, u64) {
    let (images, log) = (stopped.checkpointer.images(), stopped.log_writer.log());
    let image_a = left_of(rt, alloc, &images.image_a, leaving);
    let image_b = left_of(rt, alloc, &images.image_b, leaving);
    let log_a = left_of(rt, alloc, &log.a, leaving);
    let log_b = left_of(rt, alloc, &log.b, leaving);
    let (tick, _, word) = found_in(rt, alloc, &image_a, &image_b, &log_a, &log_b);
    (tick, word)
}

// The bytes that a crash of this kind leaves of a file.
fn left_of(rt: &impl Abort, alloc: Global, file: &ModelFile, leaving: Leaving) -> Vec<u8> {
    file.left_by(alloc, leaving).expect(rt, "memory")
}

// True if the newest image is that of the new world.
fn has_first_image<M: Method>(stopped: &StoppedWorkers<M, ModelFile, Cut, Cut, Cut>) -> bool {
    match stopped.checkpointer.images().keeper.newest() {
        Some((_, tick)) => tick == 0,
        None => false,
    }
}

// Runs workers whose checkpointer makes so many steps, and checks what they leave. Returns true if
// no image was opened.
fn try_steps<M: Method + Send + 'static, R: Threads + Wait + Abort + Copy + Send + 'static>(
    rt: &R,
    alloc: Global,
    steps: Option<u64>,
) -> bool {
    let limits = Limits {
        mutator: None,
        checkpointer: steps,
        log_writer: None,
    };
    let (stopped, answered) = run::<M, R>(rt, alloc, limits);
    check_stopped(rt, alloc, &stopped, answered);
    let has_first_image = has_first_image(&stopped);
    drop(stopped);
    has_first_image
}

// Leaves a round open after each number of its steps, and counts the runs in which no
// image was opened.
fn count_open<M: Method + Send + 'static, R: Threads + Wait + Abort + Copy + Send + 'static>(
    rt: &R,
    alloc: Global,
) -> u64 {
    let mut left_open = 0u64;
    for steps in 0..STEPS {
        let is_open = try_steps::<M, R>(rt, alloc, Some(steps));
        left_open = left_open.saturating_add(u64::from(is_open));
    }
    left_open
}

// Tries rounds that are run to their end, and rounds that are left open after each
// number of their steps.
fn try_ends<M: Method + Send + 'static, R: Threads + Wait + Abort + Copy + Send + 'static>(
    rt: &R,
    alloc: Global,
) {
    let is_open = try_steps::<M, R>(rt, alloc, None);
    same(rt, "no image was opened", is_open, false);
    let left_open = count_open::<M, R>(rt, alloc);
    assert!(rt;
        left_open > 0 && left_open < STEPS,
        "a round was left open {left_open} times"
    );
}

#[test]
fn what_was_answered_is_there_once_the_ends_have_met(rt: HostRuntime) {
    try_ends::<Zig, HostRuntime>(&rt, rt.alloc());
    try_ends::<Pong, HostRuntime>(&rt, rt.alloc());
}

// Each answered tick is acknowledged. Each acknowledged tick is recovered, and each
// recovered tick has ended.
fn are_between(rt: &impl Abort, answered: u64, acked: u64, stands: u64, ended: u64) {
    assert!(rt;
        answered <= acked && acked <= stands && stands <= ended,
        "{answered} answered, {acked} acknowledged, {stands} stand, {ended} ended"
    );
}

// Whatever a crash leaves, recovery finds each answered tick, and none that wasn't played.
fn check_held<M: Method>(
    rt: &impl Abort,
    alloc: Global,
    stopped: &StoppedWorkers<M, ModelFile, Cut, Cut, Cut>,
    answered: u64,
) {
    for leaving in [Leaving::Lose, Leaving::Keep, Leaving::Fill(1)] {
        let (tick, word) = found_after(rt, alloc, stopped, leaving);
        same(rt, "the word after the ticks", word, tick);
        are_between(rt, answered, stopped.acked(), tick, stopped.mutator.ended());
    }
}

// Runs workers that make so many steps, and returns how many batches were answered by a tick.
fn try_limits<M: Method + Send + 'static, R: Threads + Wait + Abort + Copy + Send + 'static>(
    rt: &R,
    alloc: Global,
    limits: Limits,
) -> u64 {
    let (stopped, answered) = run::<M, R>(rt, alloc, limits);
    check_held(rt, alloc, &stopped, answered);
    drop(stopped);
    answered
}

// Holds these workers after each number of steps. Before the first step no batch is answered.
fn try_held<M: Method + Send + 'static, R: Threads + Wait + Abort + Copy + Send + 'static>(
    rt: &R,
    alloc: Global,
    stopped: Stopped,
) {
    let answered = try_limits::<M, R>(rt, alloc, limits_of(stopped, 0));
    same(rt, "batches answered with no step", answered, 0);
    for steps in 1..STEPS {
        try_limits::<M, R>(rt, alloc, limits_of(stopped, steps));
    }
}

fn try_all_held<M: Method + Send + 'static, R: Threads + Wait + Abort + Copy + Send + 'static>(
    rt: &R,
    alloc: Global,
) {
    try_held::<M, R>(rt, alloc, Stopped::Mutator);
    try_held::<M, R>(rt, alloc, Stopped::LogWriter);
    try_held::<M, R>(rt, alloc, Stopped::All);
}

#[test]
fn what_was_answered_is_there_wherever_workers_are_held(rt: HostRuntime) {
    try_all_held::<Zig, HostRuntime>(&rt, rt.alloc());
    try_all_held::<Pong, HostRuntime>(&rt, rt.alloc());
}
