use crate::cuts::try_cuts;
use crate::player::Answered;
use crate::recorded::{Clock, keep_calls};
use crate::replay::{Calls, Replay};
use crate::serving::{BATCHES, PLAYERS, Served, serve};
use crate::ticks::Ticks;
use disk_model::FourFiles;
use file_disk::FileDisk;
use recovery::{Recovered, recover};
use shared_capture::Method;
use std::alloc::Global;
use std::fs::{File, Files};
use std::sync::atomic::{AtomicU64, Ordering};
use std::sync::{Arc, Wait};
use std::thread::Threads;
use std::time;
use trial_kit::{CutTally, Random};
use world_actions::Refusal;
use world_folder::{SystemFolder, open_files};

/// How often the power is cut for each method.
pub const CUTS: u64 = 500;

/// Plays the world in the files of a folder, and cuts the power at random moments of the run.
pub fn cut_power<
    R: Threads
        + Wait
        + time::Clock
        + Files<File = File>
        + Print
        + Eprint
        + AllocGlobal
        + Copy
        + Send
        + 'static,
    M: Method + Send + 'static,
>(rt: &R, folder: &str, seed: u64) -> Result<CutTally, Refusal> {
    let alloc = rt.alloc();
    let mut folder = SystemFolder::new(rt, folder);
    let mut files = open_files(&mut folder).map_err(|_: _| Refusal::Device)?;
    let left = read_left(alloc, &mut files)?;
    let clock = Arc::new(alloc, AtomicU64::new(1))?;
    let served = play::<R, M>(rt, alloc, files, &clock)?;
    let last = clock.load(Ordering::SeqCst);
    cut_all(alloc, &served, left, last, seed)
}

/// The world before the run, and copies in memory of the files as they were then.
#[derive(Drop)]
struct Left {
    begun: Recovered,
    files: FourFiles<Replay>,
}

fn read_left(alloc: Global, files: &mut FourFiles<FileDisk>) -> Result<Left, Refusal> {
    let bytes = files.read_all(alloc)?;
    let begun = stands_in(alloc, &bytes)?;
    Ok(Left {
        begun,
        files: replays(alloc, bytes)?,
    })
}

// Plays over these files, whose calls are recorded.
fn play<R: Threads + Wait + Copy + Send + 'static, M: Method + Send + 'static>(
    rt: &R,
    alloc: Global,
    files: FourFiles<FileDisk>,
    clock: &Clock,
) -> Result<Served<M>, Refusal> {
    let files = keep_calls(alloc, files, clock)?;
    serve::<R, M>(rt, alloc, files, clock)
}

// Recovers the world of these files.
fn stands_in(alloc: Global, bytes: &FourFiles<Vec<u8>>) -> Result<Recovered, Refusal> {
    recover(
        alloc,
        &bytes.image_a,
        &bytes.image_b,
        &bytes.log_a,
        &bytes.log_b,
    )
}

// Cuts the power of a run. It is an error if a file failed, or if a batch wasn't answered.
fn cut_all<M: Method>(
    alloc: Global,
    served: &Served<M>,
    left: Left,
    last: u64,
    seed: u64,
) -> Result<CutTally, Refusal> {
    if !is_up(served) {
        return Err(Refusal::Device);
    }
    let Left { begun, files } = left;
    let ticks = ticks_of(alloc, begun, &served.answers)?;
    look_at(alloc, served, files, &ticks, last, seed)
}

fn replays(alloc: Global, bytes: FourFiles<Vec<u8>>) -> Result<FourFiles<Replay>, Refusal> {
    let FourFiles {
        image_a,
        image_b,
        log_a,
        log_b,
    } = bytes;
    Ok(FourFiles {
        image_a: Replay::new(alloc, image_a)?,
        image_b: Replay::new(alloc, image_b)?,
        log_a: Replay::new(alloc, log_a)?,
        log_b: Replay::new(alloc, log_b)?,
    })
}

// Tries power cuts at moments of a run that was played to its end.
fn look_at<M: Method>(
    alloc: Global,
    served: &Served<M>,
    files: FourFiles<Replay>,
    ticks: &Ticks,
    last: u64,
    seed: u64,
) -> Result<CutTally, Refusal> {
    let calls = calls_of(served).ok_or(Refusal::NoMemory)?;
    let mut random = Random::new(seed);
    try_cuts(alloc, files, &calls, ticks, last, CUTS, &mut random)
}

// The calls of the files of a run, if there was memory for all.
fn calls_of<M: Method>(served: &Served<M>) -> Option<Calls<'_>> {
    let images = served.stopped.checkpointer.images();
    let log = served.stopped.log_writer.log();
    Some(Calls {
        image_a: images.image_a.calls()?,
        image_b: images.image_b.calls()?,
        log_a: log.a.calls()?,
        log_b: log.b.calls()?,
    })
}

// True if no file failed.
fn is_up<M: Method>(served: &Served<M>) -> bool {
    !served.stopped.checkpointer.is_down() && !served.stopped.log_writer.is_down()
}

// Collects the ticks of all players. Each of their batches was answered by its own tick,
// else it is an error.
fn ticks_of(alloc: Global, begun: Recovered, answers: &[Vec<Answered>]) -> Result<Ticks, Refusal> {
    let count = (PLAYERS as usize).saturating_mul(BATCHES as usize);
    let mut ticks = Ticks::new(alloc, begun, count)?;
    let mut kept = 0_usize;
    for player in answers {
        for one in player {
            if !ticks.keep(*one) {
                return Err(Refusal::BadLog);
            }
            kept = kept.saturating_add(1);
        }
    }
    if kept == count {
        Ok(ticks)
    } else {
        Err(Refusal::BadLog)
    }
}
