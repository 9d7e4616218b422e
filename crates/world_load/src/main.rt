//! The program `world_load`: clients that load a serving `worldd`, each by one batch after
//! another. It checks each answer, and prints ticks and actions a second, and how long batches
//! waited for their answers.
//!
//! The status is 0 if each answer was right, 1 after a fault or a wrong answer, and 2 for a
//! wrong command line.
#![tactic(auto)]

mod address;
mod answer;
mod arguments;
mod checker;
mod client;
mod counted;
mod crowd;
mod failure;
mod load;
mod progress;
mod report;

use address::Address;
use arguments::{load_of, matches_of};
use command_line::{
    NotRun, command_words, exit_code_of, refused, take_standard_streams, unreadable,
};
use crowd::run_crowd;
use failure::Failure;
use load::Load;
use report::print_report;
use std::net::{Net, TcpStream};
use std::process::ExitCode;
use std::sync::Wait;
use std::thread::Threads;
use std::time::Clock;

fn main(rt: HostRuntime) -> ExitCode {
    // Before a connection: it must not get the descriptor of a standard stream that is closed.
    let _null = match take_standard_streams(&rt) {
        Ok(null) => null,
        Err(error) => return exit_code_of(&rt, Err(error)),
    };
    let words = match command_words(&rt) {
        Ok(words) => words,
        Err(error) => return unreadable(&rt, &error).report(&rt),
    };
    match matches_of(rt.alloc(), &words) {
        Ok(matches) => match load_of(&matches) {
            Some((address, load)) => exit_code_of(&rt, run(&rt, address, load)),
            None => NotRun::Mistaken.report(&rt),
        },
        Err(error) => refused(&rt, &error).report(&rt),
    }
}

fn run<
    R: Net<Stream = TcpStream>
        + Threads
        + Wait
        + Clock
        + Print
        + Eprint
        + AllocGlobal
        + Copy
        + Send
        + 'static,
>(rt: &R, address: Address<'_>, load: Load) -> Result<(), Failure> {
    let seen = run_crowd(rt, rt.alloc(), address, load)?;
    print_report(rt, &load, &seen)
}
