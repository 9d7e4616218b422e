ghost use Rattle.std.specs.Prelude.{◌≤◌};

use crate::opening::open_world;
use crate::player::{one_more, tick_in};
use crate::quiet::start_quiet;
use client_service::Remote;
use disk_model::{FourFiles, Fused, ModelFile};
use recovery::recover;
use sessions::World;
use shared_capture::Method;
use std::alloc::Global;
use std::sync::Wait;
use std::thread::Threads;
use trial_kit::{FAILING_FILES, FailureTally};
use worker_threads::{StoppedWorkers, Workers, meet_stopped, stop};
use workers::{AskChannel, Open};
use world_actions::Refusal;
use world_start::fresh_files;

/// How many batches are played. Each adds one to the only cell.
const BATCHES: u32 = 6;

/// After how many ticks an image is due.
const EVERY: u32 = 2;

/// More calls than a file has in a run.
const CALLS: u64 = 1_000;

type File = Fused<ModelFile>;

/// Lets each call of each file fail in turn.
pub fn fail_calls<R: Threads + Wait + Copy + Send + 'static, M: Method + Send + 'static>(
    rt: &R,
    alloc: Global,
) -> Result<FailureTally, Refusal> {
    let mut failures = FailureTally::new();
    for file in 0..FAILING_FILES {
        for call in 1..CALLS {
            if !fail_call::<R, M>(rt, alloc, file, call, &mut failures)? {
                failures.none = failures.none.saturating_add(1);
                break;
            }
        }
    }
    Ok(failures)
}

// Plays while the call of this number of a file fails. Returns true if there was such a call.
fn fail_call<R: Threads + Wait + Copy + Send + 'static, M: Method + Send + 'static>(
    rt: &R,
    alloc: Global,
    file: u32,
    call: u64,
    failures: &mut FailureTally,
) -> Result<bool, Refusal>
    requires { 1 ≤ call }
{
    let files = failing_files(alloc, file, call)?;
    match open_world::<M, File>(alloc, files) {
        Ok(opened) => {
            let (workers, asks) = start_quiet(rt, alloc, opened, EVERY)?;
            play(rt, alloc, workers, asks, failures)
        }
        Err((files, _)) => {
            judge_opening(alloc, files, failures);
            Ok(true)
        }
    }
}

// Plays, and returns true if a call had failed.
fn play<R: Threads + Wait + Copy, M: Method>(
    rt: &R,
    alloc: Global,
    workers: Workers<M, File, Open, Open, Open>,
    asks: AskChannel,
    failures: &mut FailureTally,
) -> Result<bool, Refusal> {
    let answered = run_batches(rt, alloc, asks);
    let mut stopped = stop(rt, workers);
    meet_stopped(&mut stopped);
    judge_end(alloc, &stopped, answered, failures)
}

// Judges the files after a call of the start failed.
fn judge_opening(alloc: Global, files: FourFiles<File>, failures: &mut FailureTally) {
    let stands = stands_in(
        alloc,
        [&files.image_a, &files.image_b, &files.log_a, &files.log_b],
    );
    failures.opening = failures.opening.saturating_add(1);
    judge(stands, 0, 0, failures);
}

// Judges the files that the workers left. Returns true if a call had failed.
fn judge_end<M: Method>(
    alloc: Global,
    stopped: &StoppedWorkers<M, File, Open, Open, Open>,
    answered: Result<u64, Refusal>,
    failures: &mut FailureTally,
) -> Result<bool, Refusal> {
    let answered = answered?;
    let (images, log) = (stopped.checkpointer.images(), stopped.log_writer.log());
    let stands = stands_in(alloc, [&images.image_a, &images.image_b, &log.a, &log.b]);
    judge(stands, answered, stopped.mutator.ended(), failures);
    let (images_down, log_down) = (stopped.checkpointer.is_down(), stopped.log_writer.is_down());
    failures.images = failures.images.saturating_add(u32::from(images_down));
    failures.log = failures.log.saturating_add(u32::from(log_down));
    Ok(images_down || log_down)
}

// The files of a new world of one cell. One of them fails at its call of this number.
fn failing_files(alloc: Global, file: u32, call: u64) -> Result<FourFiles<File>, Refusal>
    requires { 1 ≤ call }
{
    let files = FourFiles {
        image_a: empty_file(alloc)?,
        image_b: empty_file(alloc)?,
        log_a: empty_file(alloc)?,
        log_b: empty_file(alloc)?,
    };
    let files = match fresh_files(alloc, 1, files) {
        Ok(files) => files,
        Err((_, refusal)) => return Err(refusal),
    };
    let mut files = FourFiles {
        image_a: Fused::new(files.image_a),
        image_b: Fused::new(files.image_b),
        log_a: Fused::new(files.log_a),
        log_b: Fused::new(files.log_b),
    };
    match file {
        0 => files.image_a.arm(call),
        1 => files.image_b.arm(call),
        2 => files.log_a.arm(call),
        _ => files.log_b.arm(call),
    }
    Ok(files)
}

fn empty_file(alloc: Global) -> Result<ModelFile, Refusal> {
    ModelFile::new(alloc, Vec::new(alloc))
}

// Plays the batches in a session, and returns the last answered tick.
fn run_batches<R: Wait + Copy>(rt: &R, alloc: Global, asks: AskChannel) -> Result<u64, Refusal> {
    let mut asks = asks;
    let asker = asks.session().ok_or(Refusal::NoMemory)?;
    drop(asks);
    let mut world = Remote::new(*rt, alloc, asker);
    let batch = one_more(alloc, 0)?;
    let mut answered = 0;
    let mut text = Vec::new(alloc);
    for _ in 0..BATCHES {
        if world.batch(&batch, &mut text).is_ok() {
            answered = tick_in(&text).ok_or(Refusal::BadLine)?;
        }
    }
    Ok(answered)
}

// Recovers from the durable bytes, and returns the tick and the word of the cell.
fn stands_in(alloc: Global, files: [&File; 4]) -> Option<(u64, u64)> {
    let [image_a, image_b, log_a, log_b] = files;
    let found = recover(
        alloc,
        image_a.inner().durable(),
        image_b.inner().durable(),
        log_a.inner().durable(),
        log_b.inner().durable(),
    )
    .ok()?;
    Some((found.tick, found.words.first().copied()?))
}

// Counts a recovery as wrong unless it found each answered tick and none that didn't end. Each tick
// added one to the word.
fn judge(stands: Option<(u64, u64)>, answered: u64, ended: u64, failures: &mut FailureTally) {
    let is_right = match stands {
        Some((tick, word)) => answered <= tick && tick <= ended && word == tick,
        None => false,
    };
    if !is_right {
        failures.wrong = failures.wrong.saturating_add(1);
    }
}
