//! A stream whose lines leave by a thread of their own, so that nobody waits for its reader.

use crate::line::{Line, Paths, Printed};
use crossbeam_channel::{Receiver, Sender, bounded};
use std::alloc::{AllocError, Global};
use std::io;
use std::sync::atomic::{AtomicU64, Ordering};
use std::sync::{Arc, Wait};
use std::thread::{self, Threads};
use std::time::{Clock, Duration};
use worker_threads::NotStarted;
use world_folder::Escaped;

/// How many lines may wait for a stream.
const LINES: usize = 256;

/// For how many seconds the end of the program waits for room in a stream that isn't read, and then
/// for its last line.
const PATIENCE_SECONDS: u64 = 1;

/// A standard stream that prints lines.
pub trait LineWriter {
    /// Prints a line, which may wait for the stream's reader.
    fn print(&self, line: Line) -> io::Result<()>;
}

/// Standard error: each line begins with the program's name, and its control
/// characters are escaped.
#[derive(Drop)]
pub struct StandardError<R: Eprint> {
    pub rt: R,
    pub paths: Paths,
}

impl<R: Eprint> LineWriter for StandardError<R> {
    fn print(&self, line: Line) -> io::Result<()> {
        let printed = Printed {
            line,
            paths: &self.paths,
        };
        eprintln!(self.rt; "worldd: {}", Escaped(printed))
    }
}

/// Standard output. The other stream says that a line couldn't be printed.
#[derive(Drop)]
pub struct StandardOutput<R: Print + Wait> {
    pub rt: R,
    pub paths: Paths,
    pub errors: Printer,
}

impl<R: Print + Wait> LineWriter for StandardOutput<R> {
    fn print(&self, line: Line) -> io::Result<()> {
        let printed = Printed {
            line,
            paths: &self.paths,
        };
        let answer = println!(self.rt; "{printed}");
        if let Err(error) = &answer {
            self.errors.print(&self.rt, Line::OutputFailed(*error));
        }
        answer
    }
}

/// Takes lines for a stream, and never waits.
#[derive(Drop)]
pub struct Printer {
    lines: Sender<Line>,
    dropped: Arc<AtomicU64, Global>,
}

impl Clone for Printer {
    fn clone(&self) -> Result<Self, AllocError> {
        Ok(Printer {
            lines: self.lines.clone()?,
            dropped: self.dropped.clone()?,
        })
    }
}

impl Printer {
    /// Prints a line in its turn. One that finds no room is dropped and counted.
    pub fn print<R: Wait>(&self, rt: &R, line: Line) {
        if self.lines.try_send(rt, line).is_err() {
            self.dropped.fetch_add(1, Ordering::SeqCst);
        }
    }

    /// Waits until all lines have left, but no longer than a reader may be waited for. It returns
    /// the first failure of the stream.
    pub fn finish<R: Wait + Clock>(
        self,
        rt: &R,
        outcome: Receiver<io::Result<()>>,
    ) -> io::Result<()> {
        let patience = Duration::from_secs(PATIENCE_SECONDS);
        let _ = self.lines.send_timeout(rt, Line::Last, patience);
        match outcome.recv_timeout(rt, patience) {
            Ok(printed) => printed,
            Err(_) => Ok(()),
        }
    }
}

/// Starts the thread of a stream. Its outcome comes after the last line.
pub fn start_printer<
    R: Threads + Wait + Copy + Send + 'static,
    S: LineWriter + Send + Drop + 'static,
>(rt: &R, alloc: Global, stream: S) -> Result<(Printer, Receiver<io::Result<()>>), NotStarted> {
    let (to, lines) = bounded(alloc, LINES)?;
    let (done, outcome) = bounded(alloc, 1)?;
    let dropped = Arc::new(alloc, AtomicU64::new(0)).map_err(|_: _| AllocError)?;
    let counted = dropped.clone()?;
    let here = *rt;
    let run = move || {
        let printed = print_lines(&here, lines, &counted, &stream);
        let _ = done.try_send(&here, printed);
    };
    match thread::spawn(rt, run) {
        Ok(_) => Ok((Printer { lines: to, dropped }, outcome)),
        Err(_) => Err(NotStarted::NoThread),
    }
}

// Prints each line until the last one, and how many were dropped once there is room. It returns
// the first failure.
fn print_lines<R: Wait, S: LineWriter>(
    rt: &R,
    lines: Receiver<Line>,
    dropped: &AtomicU64,
    stream: &S,
) -> io::Result<()> {
    let mut outcome = Ok(());
    for line in lines.iter(rt) {
        if let Line::Last = line {
            break;
        }
        outcome = outcome.and(stream.print(line));
        let count = dropped.swap(0, Ordering::SeqCst);
        if count > 0 {
            outcome = outcome.and(stream.print(Line::Dropped(count)));
        }
    }
    outcome
}
