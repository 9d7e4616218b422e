use crate::failure::Failure;
use crate::lost::{Finding, Lost};
use world_actions::Refusal;

/// How the program ends.
#[derive(Debug, Drop)]
pub enum Ending {
    /// The command did its work.
    Ran,
    /// The command did its work. Ticks that were answered may be missing from the world that it
    /// found.
    MayBeOlder,
    /// The help or the version was printed.
    HelpPrinted,
    /// The command line is wrong.
    Mistaken,
    /// The command failed, or a server couldn't begin.
    Failed(Failure),
    /// A server has stopped that isn't well.
    Stopped(ServerEnding),
    /// The command did its work, which was to check a served world. It isn't well.
    Unwell(Unwell),
}

/// How a server ends that isn't well.
#[derive(Clone, Copy, Debug, PartialEq, Eq)]
pub enum ServerEnding {
    /// Its listener failed. Its log and its images are well.
    ListenerFailed,
    /// Its log is well, and its images are down.
    ImagesDown,
    /// Its log is down.
    LogDown,
}

/// Why a world isn't well that is to be served.
#[derive(Clone, Copy, Debug, PartialEq, Eq)]
pub enum Unwell {
    /// The images of its server are down.
    ImagesDown,
    /// The log of its server is down, or its files were removed or replaced.
    LogDown,
    /// No server is known that serves it.
    NotServed,
    /// Its server gives no sign of life.
    Hangs,
}

impl Ending {
    ghost use Rattle.std.specs.Prelude.{◌≡◌, Ok, Err, IsOk, IfOk, IfErr};
    ghost use Rattle.world_folder.specs.Ending.{IsDone, ending_of};

    /// The end of a run.
    pub fn of_run(run: Result<(), Refusal>) -> Self
        ensures well { run ≡ Ok tt → result ≡ Ending.Ran }
        ensures fault { (refusal : Refusal) → run ≡ Err refusal
            → result ≡ Ending.Failed (Failure.Refused refusal) }
    {
        match run {
            Ok(()) => Ending::Ran,
            Err(refusal) => Ending::Failed(Failure::Refused(refusal)),
        }
    }

    /// The end of a command that did its work on files of which this was found.
    pub fn of_finding(finding: Option<Finding>) -> Self
        ensures ends { result ≡ ending_of finding }
        ensures done { IsDone result }
    {
        match finding {
            Some(Finding::Doubtful(_) | Finding::Lost(Lost::Older(_))) => Ending::MayBeOlder,
            Some(Finding::Lost(_)) | None => Ending::Ran,
        }
    }

    /// The end of a command that returns its ending unless it fails.
    pub fn of_either(run: Result<Self, Failure>) -> Self
        ensures well { IfOk run (λ ending. result ≡ ending) }
        ensures fails { IfErr run (λ failure. result ≡ Ending.Failed failure) }
    {
        match run {
            Ok(ending) => ending,
            Err(failure) => Ending::Failed(failure),
        }
    }

    /// The end of a copy, which also returns its files.
    pub fn of_copy<T: Drop>(run: Result<(T, Self), Failure>) -> Self
        ensures well { IfOk run (λ done. result ≡ done.1) }
        ensures fails { IfErr run (λ failure. result ≡ Ending.Failed failure) }
    {
        match run {
            Ok((_files, ending)) => ending,
            Err(failure) => Ending::Failed(failure),
        }
    }

    /// The end of a command that returns an ending only if it fails.
    pub fn of_command<T: Drop>(run: Result<T, Failure>) -> Self
        ensures well { IsOk run → result ≡ Ending.Ran }
        ensures fails { IfErr run (λ failure. result ≡ Ending.Failed failure) }
    {
        match run {
            Ok(_) => Ending::Ran,
            Err(failure) => Ending::Failed(failure),
        }
    }
}
