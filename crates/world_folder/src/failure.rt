ghost use Rattle.std.specs.Prelude.{◌≡◌, Some};
ghost use Rattle.std.specs.Path.{path_buf_bytes};
ghost use Rattle.world_folder.specs.NewWorldFiles.{IsOccupied};
ghost use Rattle.world_folder.specs.Ending.{IsOfPrint};
ghost use Rattle.world_folder.specs.Texts.{filled_text, inside_text, unlisted_text};

use crate::fault::WorldFault;
use crate::opening::Unreadable;
use crate::system_error::{Reason, refusal_of};
use crate::unfinished::Unfinished;
use crate::words_text::BadWords;
use std::alloc::AllocError;
use std::path::PathBuf;
use std::{fmt, io};
use world_actions::Refusal;

/// Why a command failed, or a server couldn't begin. It is printed as a fault.
#[derive(Debug, Drop)]
pub enum Failure {
    /// It is refused so.
    Refused(Refusal),
    /// This file can't be read.
    Unreadable(Unreadable),
    /// The files hold no world.
    NoWorld(WorldFault),
    /// A world can't be made over this file.
    Occupied(Occupied),
    /// A world wasn't made, and files of it may be.
    Unfinished(Unfinished),
    /// A copy can't be made in this folder.
    Filled(Filled),
    /// A copy can't be made in the world's own folder.
    Inside(Inside),
    /// A world can't be made of the words in this file.
    Unlisted(Unlisted),
    /// A standard stream can't be read or written.
    Stream(StreamFailure),
    /// No client can come by this port.
    NoPort(NoPort),
    /// The system gives no thread for a server.
    NoThread,
}

/// A file that isn't closed.
#[derive(Debug, Drop)]
pub struct Occupied {
    pub path: PathBuf,
}

impl fmt::Display for Occupied {
    fn fmt<W: fmt::Write>(&self, f: &mut fmt::Formatter<W>) -> fmt::Result {
        write!(f, "{}: {}", self.path.as_str(), Refusal::NotEmpty)
    }
}

/// A folder that isn't empty.
#[derive(Debug, Drop)]
pub struct Filled {
    pub path: PathBuf,
}

impl fmt::Display for Filled {
    ghost output = { λ filled. Some (filled_text (path_buf_bytes filled.path)) };

    fn fmt<W: fmt::Write>(&self, f: &mut fmt::Formatter<W>) -> fmt::Result {
        write!(
            f,
            "{}: the folder isn't empty: choose an empty one",
            self.path.as_str()
        )
    }
}

/// A folder that lies in a world's folder.
#[derive(Debug, Drop)]
pub struct Inside {
    pub path: PathBuf,
}

impl fmt::Display for Inside {
    ghost output = { λ inside. Some (inside_text (path_buf_bytes inside.path)) };

    fn fmt<W: fmt::Write>(&self, f: &mut fmt::Formatter<W>) -> fmt::Result {
        write!(
            f,
            "{}: it lies in the world's folder: choose one outside",
            self.path.as_str()
        )
    }
}

/// A file that doesn't list the words of a world, and why.
#[derive(Debug, Drop)]
pub struct Unlisted {
    pub path: PathBuf,
    pub why: BadWords,
}

impl fmt::Display for Unlisted {
    ghost output = { λ unlisted. Some (unlisted_text (path_buf_bytes unlisted.path) unlisted.why) };

    fn fmt<W: fmt::Write>(&self, f: &mut fmt::Formatter<W>) -> fmt::Result {
        write!(f, "{}: {}", self.path.as_str(), self.why)
    }
}

/// A port that can't be listened on, and why.
#[derive(Debug, Drop)]
pub struct NoPort {
    pub port: u16,
    pub error: io::Error,
}

impl fmt::Display for NoPort {
    fn fmt<W: fmt::Write>(&self, f: &mut fmt::Formatter<W>) -> fmt::Result {
        write!(f, "port {}: {}", self.port, Reason(self.error))
    }
}

/// A standard stream.
#[derive(Clone, Copy, Debug, PartialEq, Eq)]
pub enum StandardStream {
    Input,
    Output,
}

/// A standard stream that failed, and why.
#[derive(Clone, Copy, Debug)]
pub struct StreamFailure {
    pub stream: StandardStream,
    pub error: io::Error,
}

impl fmt::Display for StreamFailure {
    fn fmt<W: fmt::Write>(&self, f: &mut fmt::Formatter<W>) -> fmt::Result {
        match self.stream {
            StandardStream::Input => write!(f, "standard input: {}", Reason(self.error)),
            StandardStream::Output => write!(f, "standard output: {}", Reason(self.error)),
        }
    }
}

impl From<AllocError> for Failure {
    ghost use Rattle.std.specs.Prelude.{◌≡◌};
    ghost use Rattle.world_actions.specs.declared.refusal.Refusal.TheVariants.{NoMemory};
    ghost use Rattle.world_folder.specs.declared.failure.Failure.TheVariants.{Refused};

    ghost from_gives = { λ _ failure. failure ≡ Refused NoMemory };

    fn from(_: AllocError) -> Self {
        Failure::Refused(Refusal::NoMemory)
    }
}

/// The reason why files hold no world.
impl From<WorldFault> for Failure {
    ghost use Rattle.std.specs.Prelude.{◌≡◌};
    ghost use Rattle.world_folder.specs.declared.failure.Failure.TheVariants.{NoWorld};

    ghost from_gives = { λ fault failure. failure ≡ NoWorld fault };

    fn from(fault: WorldFault) -> Self {
        Failure::NoWorld(fault)
    }
}

/// The error of a print: standard output failed, or there was no memory for its text.
impl From<io::Error> for Failure {
    ghost from_gives = { λ _ failure. IsOfPrint failure };

    fn from(error: io::Error) -> Self {
        failure_of_print(error)
    }
}

/// How a command fails that can't print a line.
pub fn failure_of_print(error: io::Error) -> Failure
    ensures print { IsOfPrint result }
    ensures other { ¬ IsOccupied result }
{
    match refusal_of(&error) {
        Refusal::Device => Failure::Stream(StreamFailure {
            stream: StandardStream::Output,
            error,
        }),
        refusal => Failure::Refused(refusal),
    }
}
