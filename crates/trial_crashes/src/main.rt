//! The program `trial_crashes`: tries crashes after each step of both keepers. It runs rounds of
//! both capture methods and jobs of the log over files in memory. After each step it reads what
//! crashes of several kinds may leave. Then it lets the call of each step fail in turn, and reads
//! again. It prints how many calls failed, and how many outcomes have nothing, the state before, or
//! the state that is being written. It also prints how many outcomes and answers are wrong, and
//! fails if there is one.
#![tactic(auto)]

mod crash;
mod image_trial;
mod known;
mod log_trial;
mod outcome;
mod tally;

use image_trial::try_images;
use log_trial::try_log;
use ping_pong::PingPong;
use std::io;
use std::process::ExitCode;
use tally::Tally;
use trial_kit::exit_code_of;
use world_actions::Refusal;
use zigzag::Zigzag;

/// The sizes of the worlds that are tried.
const SIZES: [u32; 4] = [1, 64, 65, 130];

fn main(rt: HostRuntime) -> ExitCode {
    exit_code_of(&rt, run(&rt))
}

// Tries all, and returns true if nothing was wrong.
fn run<R: Print + AllocGlobal>(rt: &R) -> io::Result<bool> {
    let mut passes = true;
    for cells in SIZES {
        passes &= report(rt, "zigzag", cells, try_images::<Zigzag>(rt.alloc(), cells))?;
        let seen = try_images::<PingPong>(rt.alloc(), cells);
        passes &= report(rt, "pingpong", cells, seen)?;
    }
    passes &= report(rt, "log", 1, try_log(rt.alloc()))?;
    Ok(passes)
}

// Prints the counts of a method or of the log, and returns true if they pass.
fn report<R: Print>(
    rt: &R,
    method: &str,
    cells: u32,
    seen: Result<Tally, Refusal>,
) -> io::Result<bool> {
    match seen {
        Ok(tally) => {
            println!(rt; "{method} {cells}: {tally}")?;
            Ok(tally.passes())
        }
        Err(refusal) => {
            println!(rt;
                "{method} {cells}: refused with {}: {refusal}",
                refusal.code()
            )?;
            Ok(false)
        }
    }
}
