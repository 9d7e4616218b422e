//! The program `trial_seats`: tries that each store hands out the words of its marks. In one thread
//! each store does one list of moves beside the plain copy. Then one thread writes and marks while
//! another takes, by both methods and without a lock. The words at each mark are compared with
//! those that were taken. It fails if words differ, or if something that can come did not.
#![tactic(auto)]

mod fingerprint;
mod kind;
mod player;
mod taking;
mod threads;
mod trial;
mod writing;
mod wrong;

use capture_core::Capture;
use kind::{KINDS, Kind, NAMES};
use ping_pong::PingPong;
use shared_capture::{Joined, Pong, Zig};
use std::alloc::Global;
use std::io;
use std::process::ExitCode;
use std::thread::Threads;
use threads::{try_ping_pong, try_zigzag};
use trial::try_store;
use trial_kit::{Counts, exit_code_of};
use wrong::Wrong;
use zigzag::Zigzag;

/// The sizes of the stores that are tried in one thread.
const SIZES: [usize; 6] = [1, 63, 64, 65, 130, 65_536];

/// The sizes of the stores that are tried in two threads.
const THREAD_SIZES: [usize; 2] = [65, 65_536];

/// How many rounds two threads have.
const ROUNDS: u32 = 1000;

fn main(rt: HostRuntime) -> ExitCode {
    exit_code_of(&rt, run(&rt))
}

// Tries all stores. Returns true if all words are the same, and each thing came.
fn run<R: Print + AllocGlobal + Threads + Sync>(rt: &R) -> io::Result<bool> {
    let mut all = Counts::new();
    let are_same = try_sizes::<R, Zigzag>(rt, "zigzag", false, &mut all)?
        && try_sizes::<R, PingPong>(rt, "pingpong", true, &mut all)?
        && try_sizes::<R, Joined<Zig>>(rt, "shared zigzag", false, &mut all)?
        && try_sizes::<R, Joined<Pong>>(rt, "shared pingpong", true, &mut all)?;
    Ok(are_same && all.report(rt, &NAMES)? && try_threads(rt)?)
}

// Tries a store of each size beside the plain copy.
fn try_sizes<R: Print + AllocGlobal, C: Capture>(
    rt: &R,
    store: &str,
    has_same: bool,
    all: &mut Counts<KINDS>,
) -> io::Result<bool> {
    for cells in SIZES {
        let seen = try_store::<C>(rt.alloc(), cells);
        if let Ok(counts) = &seen {
            all.add(counts);
        }
        if !report_takes(rt, store, has_same, cells, seen)? {
            return Ok(false);
        }
    }
    Ok(true)
}

// Prints how many takes were the same, or what was wrong. Returns true if all was right. `has_same`
// says if the store answers Same for unchanged cells.
fn report_takes<R: Print>(
    rt: &R,
    store: &str,
    has_same: bool,
    cells: usize,
    seen: Result<Counts<KINDS>, Wrong>,
) -> io::Result<bool> {
    let counts = match seen {
        Ok(counts) => counts,
        Err(wrong) => {
            println!(rt; "{store}, {cells} cells: {wrong}")?;
            return Ok(false);
        }
    };
    let (words, same) = (
        counts.of(Kind::Word as usize),
        counts.of(Kind::Same as usize),
    );
    let takes = words.saturating_add(same);
    println!(rt;
        "{store}, {cells} cells: {takes} takes are the same, {words} words and {same} unchanged"
    )?;
    Ok(words > 0 && (same > 0) == has_same)
}

// Tries two threads at stores of both methods.
fn try_threads<R: Print + AllocGlobal + Threads + Sync>(rt: &R) -> io::Result<bool> {
    for cells in THREAD_SIZES {
        let are_same = report_rounds(
            rt,
            "zigzag",
            cells,
            try_zigzag(rt, rt.alloc(), cells, ROUNDS),
        )? && report_rounds(
            rt,
            "pingpong",
            cells,
            try_ping_pong(rt, rt.alloc(), cells, ROUNDS),
        )?;
        if !are_same {
            return Ok(false);
        }
    }
    Ok(true)
}

// Prints how many rounds were the same, or what was wrong. Returns true if all was right.
fn report_rounds<R: Print>(
    rt: &R,
    method: &str,
    cells: usize,
    seen: Result<usize, Wrong>,
) -> io::Result<bool> {
    match seen {
        Ok(rounds) => println!(rt;
            "{method}, {cells} cells, two threads: {rounds} rounds are the same"
        )?,
        Err(wrong) => println!(rt; "{method}, {cells} cells, two threads: {wrong}")?,
    }
    Ok(seen.is_ok())
}
