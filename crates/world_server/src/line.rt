//! The lines that a server prints.
ghost use Rattle.std.specs.Prelude.{◌≡◌};
ghost use Rattle.world_server.specs.Lines.{line_text};

use crate::reporter::Report;
use client_service::Unserved;
use disk_model::{FourFiles, WorldFile};
use std::path::PathBuf;
use std::{fmt, io};
use world_folder::{Finding, Reason};

/// A file whose call failed, and why.
#[derive(Clone, Copy, Debug)]
pub struct FailedFile {
    pub file: WorldFile,
    pub error: io::Error,
}

/// A line that a server prints.
#[derive(Clone, Copy, Debug)]
pub enum Line {
    /// The command line doesn't say after how many ticks an image is due.
    ManyImages,
    Recovered {
        ended: u64,
        from: u64,
    },
    /// This was found of the four files.
    Found(Finding),
    /// The loss of the ticks after this one is accepted.
    LossAccepted(u64),
    /// The guard wasn't written.
    GuardFailed(io::Error),
    Listening(u16),
    ListeningAtSocket,
    Stopped {
        ended: u64,
        acked: u64,
    },
    ImageOpened(u64),
    ImagesDown(Option<FailedFile>),
    LogDown {
        acked: u64,
        failure: Option<FailedFile>,
    },
    /// The file no longer stands under its name.
    FileMissed(WorldFile),
    /// This number of ticks may still end until an image opens.
    RoomLeft(u64),
    SessionRefused(Unserved),
    ShortageBegan(io::Error),
    ShortageEnded,
    ListenerFailed(io::Error),
    PortClosed,
    SocketClosed,
    OutputFailed(io::Error),
    Report(Report),
    /// This number of lines found no room.
    Dropped(u64),
    /// None follows.
    Last,
}

/// The paths that lines may name.
#[derive(Drop)]
pub struct Paths {
    pub files: FourFiles<PathBuf>,
    /// The path of the server's socket; empty without one.
    pub socket: PathBuf,
}

/// A line with the paths that it may name.
#[derive(Clone, Copy)]
pub struct Printed<'a> {
    pub line: Line,
    pub paths: &'a Paths,
}

impl fmt::Display for Printed<'_> {
    ghost output = { λ printed. line_text printed.paths.now printed.line };

    fn fmt<W: fmt::Write>(&self, f: &mut fmt::Formatter<W>) -> fmt::Result {
        match self.line {
            Line::ManyImages => {
                f.write_str(
                    "an image every 64 ticks can halve the speed: give --every, for example 4096",
                )
            }
            Line::Recovered { ended, from } => write!(f, "recovered {ended} from {from}"),
            Line::Found(finding) => write!(f, "{finding}"),
            Line::LossAccepted(tick) => write!(
                f,
                "the loss is accepted: numbers after tick {tick} are given again, since a log has no gap"
            ),
            Line::GuardFailed(error) => write!(f, "the guard wasn't written: {}", Reason(error)),
            Line::Listening(port) => write!(f, "listening {port}"),
            Line::ListeningAtSocket => write!(f, "listening {}", self.paths.socket.as_str()),
            Line::Stopped { ended, acked } => write!(f, "stopped tick {ended} acked {acked}"),
            Line::ImageOpened(tick) => write!(f, "image of tick {tick} opened"),
            Line::ImagesDown(failure) => {
                f.write_str("images down")?;
                write_failure(f, &self.paths.files, failure)
            }
            Line::LogDown { acked, failure } => {
                write!(f, "log down after tick {acked}")?;
                write_failure(f, &self.paths.files, failure)
            }
            Line::FileMissed(file) => write!(
                f,
                "{} was removed or replaced: save the files before the server ends",
                self.paths.files.get(file).as_str()
            ),
            Line::RoomLeft(0) => {
                f.write_str("each batch is refused with 6: no image has opened for 65536 ticks")
            }
            Line::RoomLeft(left) => write!(
                f,
                "images down: {left} more ticks can end, then each batch is refused with 6"
            ),
            Line::SessionRefused(Unserved::NoMemory) => {
                f.write_str("session refused: there is no memory")
            }
            Line::SessionRefused(Unserved::NoThread) => {
                f.write_str("session refused: there is no thread")
            }
            Line::ShortageBegan(error) => write!(f, "clients wait: {}", Reason(error)),
            Line::ShortageEnded => f.write_str("clients no longer wait"),
            Line::ListenerFailed(error) => write!(f, "listener failed: {}", Reason(error)),
            Line::PortClosed => f.write_str("the port is closed: no more clients can come"),
            Line::SocketClosed => f.write_str("the socket is closed: no more clients can come"),
            Line::OutputFailed(error) => write!(f, "standard output: {}", Reason(error)),
            Line::Report(report) => write!(f, "{report}"),
            Line::Dropped(count) => write!(f, "lines dropped: {count}"),
            Line::Last => Ok(()),
        }
    }
}

// Adds the file that failed, and why.
fn write_failure<W: fmt::Write>(
    f: &mut fmt::Formatter<W>,
    paths: &FourFiles<PathBuf>,
    failure: Option<FailedFile>,
) -> fmt::Result {
    let Some(FailedFile { file, error }) = failure else {
        return Ok(());
    };
    write!(f, ": {}: {}", paths.get(file).as_str(), Reason(error))
}
