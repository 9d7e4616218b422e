//! The program `trial_stops`: stops one run after each of its moves, by crashes of five kinds.
//! The run has two ticks, a round, a third tick and another round. It is stopped again after
//! each move of the restart. Each call of a device in the run fails in turn. A second run, whose
//! log is left after, is stopped in the same way. The trial prints how often each tick was
//! recovered after a crash. It fails if another one was, if a tick never was, or if a run has
//! other moves than expected.
#![tactic(auto)]

mod failures;
mod fixed;
mod run;
mod stops;

use capture_core::Capture;
use failures::try_failures;
use fixed::{Shape, fixed_run, run_before_the_log};
use ping_pong::PingPong;
use shared_capture::{Joined, Pong, Zig};
use std::alloc::Global;
use std::io;
use std::process::ExitCode;
use stops::try_stops;
use trial_kit::{StopTally, exit_code_of};
use world_actions::Refusal;
use zigzag::Zigzag;

/// How many moves the images and the log have in the first part of the run. Each is a call of a
/// device or a take.
const FIRST: (u32, u32) = (9, 12);

/// How many they have in its second part, by Zigzag.
const SECOND: (u32, u32) = (9, 10);

/// How many they have in its second part, by Ping-Pong. It reads the cell that wasn't written since
/// from the other image.
const SECOND_BY_PING_PONG: (u32, u32) = (10, 10);

/// How many moves the run has whose log is left after: six, and those of an image.
const BEFORE_THE_LOG: usize = 15;

fn main(rt: HostRuntime) -> ExitCode {
    exit_code_of(&rt, try_all(&rt))
}

// Tries all stores. Returns true if all was right, and each tick was recovered.
fn try_all<R: Print + AllocGlobal>(rt: &R) -> io::Result<bool> {
    let zigzag = Shape {
        first: FIRST,
        second: SECOND,
    };
    let ping_pong = Shape {
        first: FIRST,
        second: SECOND_BY_PING_PONG,
    };
    Ok(
        try_store::<R, Zigzag>(rt, "zigzag", zigzag)?
            & try_store::<R, PingPong>(rt, "pingpong", ping_pong)?
            & try_store::<R, Joined<Zig>>(rt, "zigzag-shared", zigzag)?
            & try_store::<R, Joined<Pong>>(rt, "pingpong-shared", ping_pong)?,
    )
}

// Tries a store, and prints the counts. Returns true if they pass.
fn try_store<R: Print + AllocGlobal, C: Capture>(
    rt: &R,
    store: &str,
    shape: Shape,
) -> io::Result<bool> {
    match seen_of::<C>(rt.alloc(), shape) {
        Ok(tally) => {
            println!(rt; "{store}: {tally}")?;
            Ok(tally.passes())
        }
        Err(refusal) => {
            println!(rt; "{store}: refused with {}: {refusal}", refusal.code())?;
            Ok(false)
        }
    }
}

fn seen_of<C: Capture>(alloc: Global, shape: Shape) -> Result<StopTally, Refusal> {
    let mut tally = StopTally::new();
    let (steps, found) = fixed_run::<C>(alloc)?;
    tally.judge(found == shape);
    try_stops::<C>(alloc, &steps, &mut tally)?;
    try_failures::<C>(alloc, &steps, &mut tally)?;
    let images = run_before_the_log::<C>(alloc)?;
    tally.judge(images.len() == BEFORE_THE_LOG);
    try_stops::<C>(alloc, &images, &mut tally)?;
    Ok(tally)
}
