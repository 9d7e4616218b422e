//! The program `measures`. Without a command it counts what the takes of each store hand out over
//! one list of moves, and how much memory a cell needs. It also counts the calls on the files of a
//! log and of images. These figures are the same on each machine. With `all` it measures how fast
//! the stores, the keepers and recovery are on this one. With `allocations` it makes calls whose
//! allocations can be counted from outside.
#![tactic(auto)]

mod allocations;
mod arguments;
mod counted;
mod counts;
mod devices;
mod figures;
mod file_allocations;
mod file_report;
mod images;
mod keeper_speed;
mod logs;
mod measuring;
mod moves;
mod pair_speed;
mod recovery_speed;
mod report;
mod rounds;
mod seats;
mod store;
mod ticks;
mod times;

use allocations::make_calls;
use anyhow::Error;
use arguments::matches_of;
use command_line::{command_words, exit_code_of, refused, unreadable};
use counts::report_counts;
use devices::report_devices;
use file_report::{report_keepers, report_recovery};
use keeper_speed::KeeperSpeed;
use logs::Log;
use measuring::{measure_ping_pong_pair, measure_stores, measure_zigzag_pair};
use recovery_speed::RecoverySpeed;
use report::{report_figures, report_pair, report_ratios};
use std::env::Env;
use std::fs::Files;
use std::process::ExitCode;
use std::thread::Threads;
use std::time::Clock;

fn main(rt: HostRuntime) -> ExitCode {
    let words = match command_words(&rt) {
        Ok(words) => words,
        Err(error) => return unreadable(&rt, &error).report(&rt),
    };
    match matches_of(rt.alloc(), &words) {
        Ok(matches) => exit_code_of(&rt, run(&rt, matches.subcommand_name())),
        Err(error) => refused(&rt, &error).report(&rt),
    }
}

fn run<R: Print + AllocGlobal + Clock + Env + Files + Threads + Sync>(
    rt: &R,
    command: Option<&str>,
) -> Result<(), Error> {
    match command {
        Some("allocations") => make_calls(rt),
        Some(_) => measure_all(rt),
        None => count_all(rt),
    }
}

fn count_all<R: Print + AllocGlobal>(rt: &R) -> Result<(), Error> {
    report_counts(rt)?;
    report_devices(rt)
}

fn measure_all<R: Print + AllocGlobal + Clock + Env + Files + Threads + Sync>(
    rt: &R,
) -> Result<(), Error> {
    let mut all = measure_stores(rt, rt.alloc())?;
    report_figures(rt, &mut all)?;
    report_ratios(rt, &mut all)?;
    measure_files(rt, all.zigzag.take.median())?;
    report_pair(rt, "shared zigzag", &measure_zigzag_pair(rt, rt.alloc())?)?;
    report_pair(
        rt,
        "shared pingpong",
        &measure_ping_pong_pair(rt, rt.alloc())?,
    )
}

// Measures the keepers and recovery. `take` is the time of a take of Zigzag in
// picoseconds, for comparison.
fn measure_files<R: Print + AllocGlobal + Clock + Env + Files>(
    rt: &R,
    take: u64,
) -> Result<(), Error> {
    let mut log = Log::new(rt.alloc())?;
    let action = measure_keepers(rt, &mut log, take)?;
    measure_recovery(rt, log.first_segment(), action)
}

// Measures both keepers, and returns the time of a replayed action in picoseconds.
fn measure_keepers<R: Print + AllocGlobal + Clock>(
    rt: &R,
    log: &mut Log,
    take: u64,
) -> Result<u64, Error> {
    let mut speed = KeeperSpeed::new(rt.alloc());
    speed.time_all(rt, rt.alloc(), log)?;
    report_keepers(rt, &mut speed, take)?;
    Ok(speed.action.median())
}

fn measure_recovery<R: Print + AllocGlobal + Clock + Env + Files>(
    rt: &R,
    segment: &[u8],
    action: u64,
) -> Result<(), Error> {
    let mut speed = RecoverySpeed::new(rt.alloc(), segment.len() as u64);
    speed.time_all(rt, segment)?;
    report_recovery(rt, &mut speed, action)
}
