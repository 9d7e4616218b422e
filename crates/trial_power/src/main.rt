//! The program `trial_power`: lets workers in threads play worlds whose files fail, or
//! whose power is cut.
//!
//! It makes a world in the files of the current folder, and lets workers play it while each call of
//! a file is recorded. Then it cuts the power at random moments: it makes the files again as the
//! disk model lets a power cut leave them, and recovers. It also lets each call of each file fail
//! in turn, over files in memory. It prints its counts to standard error. It fails if an answered
//! tick is lost, if recovery finds a wrong world, or if something that can come never did.
#![tactic(auto)]

mod cuts;
mod failing;
mod opening;
mod player;
mod power;
mod quiet;
mod recorded;
mod replay;
mod serving;
mod ticks;

use failing::fail_calls;
use power::{CUTS, cut_power};
use shared_capture::{Method, Pong, Zig};
use std::fs::{File, Files};
use std::process::ExitCode;
use std::sync::Wait;
use std::thread::Threads;
use std::time::Clock;
use trial_kit::{CutTally, FailureTally, exit_code_of};
use world_actions::Refusal;
use world_folder::{FirstWords, SystemFolder, create};

/// The current folder of the program.
const FOLDER: &str = ".";

/// More cells than there are players, so that an image has two chunks.
const CELLS: u32 = 70;

fn main(rt: HostRuntime) -> ExitCode {
    exit_code_of(&rt, try_all(&rt))
}

// Tries one method, and then the other one in the same files. Returns true if nothing was lost.
fn try_all<
    R: Threads
        + Wait
        + Clock
        + Files<File = File>
        + Print
        + Eprint
        + AllocGlobal
        + Copy
        + Send
        + 'static,
>(rt: &R) -> Result<bool, Refusal> {
    let world = FirstWords::Zeros(CELLS);
    create(&mut SystemFolder::new(rt, FOLDER), world).map_err(|_: _| Refusal::Device)?;
    Ok(try_method::<R, Zig>(rt, "zigzag", 1)? & try_method::<R, Pong>(rt, "pingpong", 2)?)
}

fn try_method<
    R: Threads
        + Wait
        + Clock
        + Files<File = File>
        + Print
        + Eprint
        + AllocGlobal
        + Copy
        + Send
        + 'static,
    M: Method + Send + 'static,
>(rt: &R, method: &str, seed: u64) -> Result<bool, Refusal> {
    let tally = cut_power::<R, M>(rt, FOLDER, seed)?;
    let is_kept = report_cuts(rt, method, tally)?;
    let failures = fail_calls::<R, M>(rt, rt.alloc())?;
    Ok(report_failures(rt, method, failures)? && is_kept)
}

fn report_cuts<R: Print + Eprint>(rt: &R, method: &str, tally: CutTally) -> Result<bool, Refusal> {
    let _ = eprintln!(rt; "{method}: {tally}");
    let passes = tally.passes(CUTS);
    println!(rt; "{method}: {CUTS} power cuts, {}", text_of(passes)).map_err(
        |_: _| Refusal::Device,
    )?;
    Ok(passes)
}

fn report_failures<R: Print + Eprint>(
    rt: &R,
    method: &str,
    failures: FailureTally,
) -> Result<bool, Refusal> {
    let _ = eprintln!(rt; "{method}: {failures}");
    let passes = failures.passes();
    println!(rt;
        "{method}: each call of four files failed, {}",
        text_of(passes)
    )
    .map_err(|_: _| Refusal::Device)?;
    Ok(passes)
}

fn text_of(passes: bool) -> &'static str {
    if passes {
        "no answered tick lost"
    } else {
        "wrong"
    }
}
