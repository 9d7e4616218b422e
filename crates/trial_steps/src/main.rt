//! The program `trial_steps`: tries that a running server is sound after every step.
//!
//! The three workers of a world make random steps in one thread, over files in memory whose calls
//! fail. Gates hold the workers for a while, or for good. After each step the trial tries five
//! crashes. From what each leaves, recovery has to give the world after a pushed tick, with all
//! acknowledged ones. The next run begins from what a crash left. Then the workers run in
//! threads. Each is held at a random place, and their files are judged in the same way. The trial
//! prints to standard error how often each thing came. It fails if something was wrong, or if
//! something never came.
#![tactic(auto)]

mod cuts;
mod draft;
mod flaky;
mod hold;
mod model;
mod moment;
mod opening;
mod quiet;
mod run;
mod runs;
mod session;
mod stand;
mod tally;
mod trial;
mod words;
mod world;

use cuts::{CUTS, try_cuts};
use runs::{ALL_STEPS, try_steps};
use shared_capture::{Method, Pong, Zig};
use std::process::ExitCode;
use std::sync::Wait;
use std::thread::Threads;
use trial::Trial;
use trial_kit::exit_code_of;
use world_actions::Refusal;

fn main(rt: HostRuntime) -> ExitCode {
    exit_code_of(&rt, try_all(&rt))
}

// Tries both methods, and returns whether all was right.
fn try_all<R: Threads + Wait + Print + Eprint + AllocGlobal + Copy + Send + 'static>(
    rt: &R,
) -> Result<bool, Refusal> {
    Ok(try_method::<R, Zig>(rt, "zigzag", 1)? & try_method::<R, Pong>(rt, "pingpong", 2)?)
}

fn try_method<
    R: Threads + Wait + Print + Eprint + AllocGlobal + Copy + Send + 'static,
    M: Method + Send + 'static,
>(rt: &R, method: &str, seed: u64) -> Result<bool, Refusal> {
    let mut trial = Trial::new(rt.alloc(), seed)?;
    try_with::<R, M>(rt, method, &mut trial)
}

fn try_with<
    R: Threads + Wait + Print + Eprint + AllocGlobal + Copy + Send + 'static,
    M: Method + Send + 'static,
>(rt: &R, method: &str, trial: &mut Trial) -> Result<bool, Refusal> {
    let ends = try_steps::<R, M>(rt, trial);
    let were_right = report(rt, method, ALL_STEPS, "steps", ends, trial.tally.broken())?;
    let ends = try_cuts::<R, M>(rt, trial);
    let broken = trial.tally.broken();
    let are_right = report(rt, method, CUTS, "cuts in threads", ends, broken)?;
    Ok(trial.tally.report(rt, method) && were_right && are_right)
}

// Prints that all was right so far, or the first thing that was wrong.
fn report<R: Print>(
    rt: &R,
    method: &str,
    count: u64,
    what: &str,
    ends: Result<(), Refusal>,
    broken: Option<&str>,
) -> Result<bool, Refusal> {
    let reported = match (broken, ends) {
        (Some(rule), _) => println!(rt; "{method}: {count} {what}; {rule}"),
        (None, Err(refusal)) => println!(rt; "{method}: {count} {what}; {refusal}"),
        (None, Ok(())) => println!(rt; "{method}: {count} {what}; no acknowledged tick lost"),
    };
    reported.map_err(|_: _| Refusal::Device)?;
    Ok(broken.is_none() && ends.is_ok())
}
