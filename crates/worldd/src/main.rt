//! The program `worldd`: its command line, its exit statuses, and what it says of a fault.
//!
//! `steps` runs a script over a world in memory. `create` makes the files of a new world in a
//! folder. `recover`, `inspect` and `status` print which world the files of a folder hold, and
//! write nothing into it. `backup` copies it, also while it is served. `salvage` makes a world
//! of what can be read of damaged files. `serve` serves the world of a folder to clients of a port
//! or of a socket.
//!
//! The status is 0 if the run ended well, 2 for a wrong command line, and 1 after a fault. Standard
//! error then has `fault CODE`, and the reason on the next line. A server ends with 12 if its log
//! is down, and with 11 if its images are. A command that did its work ends with 14 if ticks that
//! were answered may be missing from the world that it found. `status --check` ends with 11, 12, 15
//! or 16 if the world isn't well. With `--statuses detailed` it is 13 after a fault by a shortage
//! of memory, threads or room on a disk, and 10 of a server whose listener failed.
#![tactic(auto)]

ghost use Rattle.std.specs.Prelude.{◌≡◌, IfSome, IfNone};
ghost use Rattle.std.specs.declared.io.Error.{Error};
ghost use Rattle.worldd.specs.Invocation.{IsPossible};

mod arguments;
mod help;
mod invocation;
mod serve_arguments;
mod streams;

use arguments::{matches_of, statuses_of};
use command_line::{NotRun, command_words, refused, take_standard_streams, unreadable};
use invocation::{Invocation, invocation_of};
use serve_arguments::service_of;
use std::fs::{File, Files};
use std::io;
use std::time::Clock;
use streams::run_steps;
use world_actions::Refusal;
use world_folder::{
    Ending, Exit, Failure, FirstWords, StandardStream, StreamFailure, SystemFolder, blame, create,
    create_of_words, guarded,
};
use world_reports::{back_up, inspect, recover, salvage_world, status};
use world_server::serve;

fn main(rt: HostRuntime) -> Exit {
    // Before a file of a world: it must not get the descriptor of a standard stream that is closed.
    let null = blame(rt.alloc(), "/dev", "null", take_standard_streams(&rt));
    let _null = match null {
        Ok(null) => null,
        Err(failure) => return Exit::plain(Ending::Failed(failure)),
    };
    let words = match command_words(&rt) {
        Ok(words) => words,
        Err(error) => return Exit::plain(not_run(unreadable(&rt, &error))),
    };
    match matches_of(rt.alloc(), &words) {
        Ok(matches) => Exit {
            ending: match service_of(&matches) {
                Some(service) => serve(&rt, &service),
                None => run(&rt, invocation_of(&matches)),
            },
            statuses: statuses_of(&matches),
        },
        Err(error) => Exit::plain(not_run(refused(&rt, &error))),
    }
}

// Does what the words ask for, except `serve`, which needs more of the system.
fn run<R: Input + Print + Eprint + Clock + Files<File = File> + AllocGlobal + Clone + Drop>(
    rt: &R,
    invocation: Option<Invocation<'_>>,
) -> Ending
    requires { IfSome invocation IsPossible }
    ensures { IfNone invocation.entry (result ≡ Ending.Mistaken) }
{
    let Some(invocation) = invocation else {
        return Ending::Mistaken;
    };
    match invocation {
        Invocation::Steps => run_steps(rt.alloc(), rt.reader(), io::writer(rt)),
        Invocation::Create {
            folder,
            cells,
            guards,
        } => {
            let mut system = SystemFolder::new(rt, folder);
            let made = create(&mut system, FirstWords::Zeros(cells));
            let ending = Ending::of_command(made.map_err(|failed: _| failed.failure));
            guarded(rt, folder, guards, ending)
        }
        Invocation::CreateOfWords {
            folder,
            words,
            asked,
            guards,
        } => {
            let mut system = SystemFolder::new(rt, folder);
            let made = create_of_words(rt, &mut system, words, asked);
            let ending = Ending::of_command(made.map_err(|failed: _| failed.failure));
            guarded(rt, folder, guards, ending)
        }
        Invocation::Recover { folder, on_loss } => {
            Ending::of_either(recover(&mut SystemFolder::new(rt, folder), on_loss))
        }
        Invocation::Inspect {
            folder,
            words,
            on_loss,
        } => Ending::of_either(inspect(&mut SystemFolder::new(rt, folder), words, on_loss)),
        Invocation::Status {
            folder,
            on_loss,
            checks,
        } => Ending::of_either(status(&mut SystemFolder::new(rt, folder), on_loss, checks)),
        Invocation::BackUp {
            folder,
            to,
            on_loss,
        } => {
            let mut from = SystemFolder::new(rt, folder);
            let mut into = SystemFolder::new(rt, to);
            Ending::of_copy(back_up(&mut from, &mut into, on_loss))
        }
        Invocation::Salvage { folder, to } => {
            let mut from = SystemFolder::new(rt, folder);
            let mut into = SystemFolder::new(rt, to);
            Ending::of_copy(salvage_world(&mut from, &mut into))
        }
    }
}

// How the program ends if it isn't run.
fn not_run(reason: NotRun) -> Ending
    ensures reported { reason ≡ NotRun.HelpPrinted → result ≡ Ending.HelpPrinted }
    ensures unprinted { (error : Error) → reason ≡ NotRun.Unprinted error
        → result ≡ Ending.Failed (Failure.Stream
        (record { stream = StandardStream.Output; error = error })) }
    ensures mistaken { reason ≡ NotRun.Mistaken → result ≡ Ending.Mistaken }
    ensures memory { reason ≡ NotRun.NoMemory
        → result ≡ Ending.Failed (Failure.Refused Refusal.NoMemory) }
{
    match reason {
        NotRun::HelpPrinted => Ending::HelpPrinted,
        NotRun::Unprinted(error) => Ending::Failed(Failure::Stream(StreamFailure {
            stream: StandardStream::Output,
            error,
        })),
        NotRun::Mistaken => Ending::Mistaken,
        NotRun::NoMemory => Ending::Failed(Failure::Refused(Refusal::NoMemory)),
    }
}

#[cfg(test)]
mod tests;
