//! The exit status of a program, and what it prints of its end.
ghost use Rattle.std.specs.Prelude.{◌≡◌, Some, true, false};
ghost use Rattle.std.specs.Process.{exit_status};
ghost use Rattle.world_folder.specs.Ending.{IsStatusOf, IsStatusOfError, IsStatusOfRefusal};
ghost use Rattle.world_folder.specs.Ending.{IsStatusOfFailure, IsStatusOfServer};
ghost use Rattle.world_folder.specs.Ending.{IsStatusOfUnfinished};
ghost use Rattle.world_folder.specs.Ending.{listener_status, shortage_status, unwell_status};
ghost use Rattle.world_folder.specs.Texts.{fault_text};

use crate::ending::{Ending, ServerEnding, Unwell};
use crate::escaped::Escaped;
use crate::failure::{Failure, StreamFailure};
use crate::system_error::{is_shortage, refusal_of};
use crate::unfinished::Unfinished;
use std::fmt::{self, Display};
use std::io;
use std::process::{ExitCode, Termination};
use world_actions::Refusal;

/// The exit statuses of a program.
#[derive(Clone, Copy, Debug, PartialEq, Eq)]
pub enum Statuses {
    /// 0, 1 after a fault, and 2 for a wrong command line. A server also has 11 and 12. A command
    /// whose world may be older has 14. A check of a world that isn't well has 11, 12, 15 and 16.
    Plain,
    /// Beside these 13 after a shortage, and 10 of a server whose listener failed.
    Detailed,
}

/// How the program ends, and by which exit statuses.
#[derive(Debug, Drop)]
pub struct Exit {
    pub ending: Ending,
    pub statuses: Statuses,
}

impl Exit {
    /// An end by the plain statuses, as before a command line is read.
    pub fn plain(ending: Ending) -> Self
        ensures { result ≡ record { ending = ending; statuses = Statuses.Plain } }
    {
        Exit {
            ending,
            statuses: Statuses::Plain,
        }
    }
}

impl Termination for Exit {
    /// Prints a fault by its code and in words, and returns the exit status.
    fn report<R: Eprint>(self, rt: &R) -> ExitCode
        ensures { IsStatusOf self.statuses self.ending (exit_status result) }
    {
        report_ending(rt, self.statuses, self.ending)
    }
}

fn report_ending<R: Eprint>(rt: &R, statuses: Statuses, ending: Ending) -> ExitCode
    ensures { IsStatusOf statuses ending (exit_status result) }
{
    match ending {
        Ending::Ran | Ending::HelpPrinted => ExitCode::SUCCESS,
        Ending::MayBeOlder => ExitCode::from(14),
        Ending::Mistaken => ExitCode::from(2),
        Ending::Failed(failure) => report_failure(rt, statuses, failure),
        Ending::Stopped(ending) => report_server(rt, statuses, ending),
        Ending::Unwell(why) => unwell_status(why),
    }
}

// Prints why a command failed, and returns the exit status.
fn report_failure<R: Eprint>(rt: &R, statuses: Statuses, failure: Failure) -> ExitCode
    ensures { IsStatusOfFailure statuses failure (exit_status result) }
{
    match failure {
        Failure::Refused(refusal) => report_fault(rt, statuses, refusal, refusal),
        Failure::Unreadable(file) => report_error(rt, statuses, file.error, file),
        Failure::NoWorld(fault) => report_fault(rt, statuses, fault.refusal(), fault),
        Failure::Occupied(file) => report_fault(rt, statuses, Refusal::NotEmpty, file),
        Failure::Unfinished(unfinished) => report_unfinished(rt, statuses, unfinished),
        Failure::Filled(folder) => report_fault(rt, statuses, Refusal::NotEmpty, folder),
        Failure::Inside(folder) => report_fault(rt, statuses, Refusal::NotEmpty, folder),
        Failure::Unlisted(file) => report_fault(rt, statuses, file.why.refusal(), file),
        Failure::Stream(failure) => report_stream(rt, failure),
        Failure::NoPort(port) => report_error(rt, statuses, port.error, port),
        Failure::NoThread => report_fault(rt, statuses, Refusal::NoMemory, NO_THREAD),
    }
}

const NO_THREAD: &str = "there is no thread for the server";

// The exit status of a command that checks a world which isn't well.
fn unwell_status(why: Unwell) -> ExitCode
    ensures { exit_status result ≡ unwell_status why }
{
    match why {
        Unwell::ImagesDown => ExitCode::from(11),
        Unwell::LogDown => ExitCode::from(12),
        Unwell::NotServed => ExitCode::from(15),
        Unwell::Hangs => ExitCode::from(16),
    }
}

// Prints why a server isn't well, if no exit status of its own says so. It returns the exit status.
fn report_server<R: Eprint>(rt: &R, statuses: Statuses, ending: ServerEnding) -> ExitCode
    ensures { IsStatusOfServer statuses ending (exit_status result) }
{
    match ending {
        ServerEnding::ListenerFailed => report_listener(rt, statuses),
        ServerEnding::ImagesDown => ExitCode::from(11),
        ServerEnding::LogDown => ExitCode::from(12),
    }
}

// Prints that a listener failed, if no exit status of its own says so.
fn report_listener<R: Eprint>(rt: &R, statuses: Statuses) -> ExitCode
    ensures { exit_status result ≡ listener_status statuses }
{
    match statuses {
        Statuses::Plain => {
            print_refusal(rt, Refusal::Device, LISTENER_FAILED);
            ExitCode::from(1)
        }
        Statuses::Detailed => ExitCode::from(10),
    }
}

const LISTENER_FAILED: &str = "the listener failed";

// Prints why a world wasn't made, and returns the exit status.
fn report_unfinished<R: Eprint>(rt: &R, statuses: Statuses, unfinished: Unfinished) -> ExitCode
    ensures { IsStatusOfUnfinished statuses unfinished.why (exit_status result) }
{
    match unfinished.why.error() {
        Some(error) => report_error(rt, statuses, error, unfinished),
        None => report_fault(rt, statuses, Refusal::NoMemory, unfinished),
    }
}

// Prints that a stream failed, and returns the exit status.
fn report_stream<R: Eprint>(rt: &R, failure: StreamFailure) -> ExitCode
    ensures { exit_status result ≡ 1 }
{
    print_refusal(rt, refusal_of(&failure.error), failure);
    ExitCode::from(1)
}

// Prints a fault by the code of its refusal, and in these words. It returns the exit status.
fn report_fault<R: Eprint, D: Display + Drop>(
    rt: &R,
    statuses: Statuses,
    refusal: Refusal,
    words: D,
) -> ExitCode
    ensures { IsStatusOfRefusal statuses refusal (exit_status result) }
{
    print_refusal(rt, refusal, words);
    fault_status(statuses, refusal == Refusal::NoMemory)
}

// Prints an error of the system as a fault, in these words. It returns the exit status.
fn report_error<R: Eprint, D: Display + Drop>(
    rt: &R,
    statuses: Statuses,
    error: io::Error,
    words: D,
) -> ExitCode
    ensures { IsStatusOfError statuses error (exit_status result) }
{
    print_refusal(rt, refusal_of(&error), words);
    fault_status(statuses, is_shortage(&error))
}

// Prints a code and the reason.
fn print_refusal<R: Eprint, D: Display + Drop>(rt: &R, refusal: Refusal, words: D) {
    let _ = rt.eprintln(FaultLine(refusal));
    let _ = eprintln!(rt; "worldd: {}", Escaped(words));
}

// The line on a fault, by the code of its refusal.
#[derive(Clone, Copy)]
struct FaultLine(Refusal);

impl fmt::Display for FaultLine {
    ghost output = { λ line. Some (fault_text line.0) };

    fn fmt<W: fmt::Write>(&self, f: &mut fmt::Formatter<W>) -> fmt::Result {
        write!(f, "fault {}", self.0.code())
    }
}

// The exit status of a fault. A shortage passes, so the same command is worth another try.
fn fault_status(statuses: Statuses, is_shortage: bool) -> ExitCode
    ensures shortage { is_shortage ≡ true → exit_status result ≡ shortage_status statuses }
    ensures other { is_shortage ≡ false → exit_status result ≡ 1 }
{
    match (statuses, is_shortage) {
        (Statuses::Detailed, true) => ExitCode::from(13),
        _ => ExitCode::from(1),
    }
}
