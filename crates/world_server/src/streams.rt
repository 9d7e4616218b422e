//! The two standard streams of a server.
ghost use Rattle.std.specs.Prelude.{◌≡◌, ◌≢◌, Ok, Err, IfOk, IfErr};
ghost use Rattle.world_folder.specs.Ending.{IsFailed};
ghost use Rattle.world_server.specs.Paths.{ArePathsIn, ArePathsOf};
ghost use Rattle.world_server.specs.Serving.{EndsServing};

use crate::line::{Line, Paths, Printed};
use crate::printer::{LineWriter, Printer, StandardError, StandardOutput, start_printer};
use crate::service::{Address, Service};
use crossbeam_channel::Receiver;
use disk_model::{FourFiles, IMAGE_A, IMAGE_B, LOG_A, LOG_B};
use std::alloc::{AllocError, Global};
use std::io;
use std::path::PathBuf;
use std::sync::Wait;
use std::thread::Threads;
use std::time::Clock;
use worker_threads::NotStarted;
use world_folder::{Ending, Failure, path_of};

/// Standard output and standard error, each with a thread that prints its lines.
#[derive(Drop)]
pub struct Streams {
    pub output: Printer,
    pub errors: Printer,
    printed: Receiver<io::Result<()>>,
    noted: Receiver<io::Result<()>>,
}

impl Streams {
    /// Starts the two threads of a server.
    pub fn start<R: Threads + Wait + Print + Eprint + AllocGlobal + Copy + Send + 'static>(
        rt: &R,
        service: &Service<'_>,
    ) -> Result<Self, NotStarted> {
        let alloc = rt.alloc();
        let stream = StandardError {
            rt: *rt,
            paths: paths_of(alloc, service)?,
        };
        let (errors, noted) = start_printer(rt, alloc, stream)?;
        let stream = StandardOutput {
            rt: *rt,
            paths: paths_of(alloc, service)?,
            errors: errors.clone()?,
        };
        let (output, printed) = start_printer(rt, alloc, stream)?;
        Ok(Streams {
            output,
            errors,
            printed,
            noted,
        })
    }

    /// Waits until the lines have left, or for some seconds if a stream isn't read, and ends the
    /// program so. A server that ended well ends with a fault if its output couldn't be printed.
    pub fn finish<R: Wait + Clock>(self, rt: &R, ending: Ending) -> Ending
        ensures ends { EndsServing ending → EndsServing result }
        ensures other { ending ≢ Ending.Ran → result ≡ ending }
    {
        let Streams {
            output,
            errors,
            printed,
            noted,
        } = self;
        let printed = output.finish(rt, printed);
        let _ = errors.finish(rt, noted);
        ending_after_output(ending, printed)
    }
}

/// Prints a line on standard output, at once if there is no thread for it.
pub fn print_line<R: Wait + Print + AllocGlobal>(
    rt: &R,
    service: &Service<'_>,
    streams: &Option<Streams>,
    line: Line,
) {
    match streams {
        Some(streams) => streams.output.print(rt, line),
        None => print_at_once(rt, service, line),
    }
}

/// Prints a line on standard error, at once if there is no thread for it.
pub fn note_line<R: Wait + Eprint + AllocGlobal + Copy>(
    rt: &R,
    service: &Service<'_>,
    streams: &Option<Streams>,
    line: Line,
) {
    match streams {
        Some(streams) => streams.errors.print(rt, line),
        None => note_at_once(rt, service, line),
    }
}

fn print_at_once<R: Print + AllocGlobal>(rt: &R, service: &Service<'_>, line: Line) {
    if let Ok(paths) = paths_of(rt.alloc(), service) {
        let printed = Printed {
            line,
            paths: &paths,
        };
        let _ = println!(rt; "{printed}");
    }
}

fn note_at_once<R: Eprint + AllocGlobal + Copy>(rt: &R, service: &Service<'_>, line: Line) {
    if let Ok(paths) = paths_of(rt.alloc(), service) {
        let _ = StandardError { rt: *rt, paths }.print(line);
    }
}

// How a server ends whose output was printed so.
fn ending_after_output(ending: Ending, printed: io::Result<()>) -> Ending
    ensures ends { EndsServing ending → EndsServing result }
    ensures other { ending ≢ Ending.Ran → result ≡ ending }
    ensures well { printed ≡ Ok tt → result ≡ ending }
    ensures unheard { ending ≡ Ending.Ran → IfErr printed (λ _. IsFailed result) }
{
    match (ending, printed) {
        (Ending::Ran, Err(error)) => Ending::Failed(Failure::from(error)),
        (ending, _) => ending,
    }
}

// The paths that the lines of a server may name.
fn paths_of(alloc: Global, service: &Service<'_>) -> Result<Paths, AllocError>
    ensures { IfOk result (ArePathsOf service.now) }
{
    let socket = match service.address {
        Address::Port(_) => "",
        Address::Socket { path, .. } => path,
    };
    Ok(Paths {
        files: files_of(alloc, service.folder)?,
        socket: PathBuf::from_str(alloc, socket)?,
    })
}

fn files_of(alloc: Global, folder: &str) -> Result<FourFiles<PathBuf>, AllocError>
    ensures { IfOk result (ArePathsIn folder.now) }
{
    Ok(FourFiles {
        image_a: path_of(alloc, folder, IMAGE_A)?,
        image_b: path_of(alloc, folder, IMAGE_B)?,
        log_a: path_of(alloc, folder, LOG_A)?,
        log_b: path_of(alloc, folder, LOG_B)?,
    })
}
