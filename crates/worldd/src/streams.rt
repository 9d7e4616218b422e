//! The standard streams of a script, each of which keeps why it failed.
ghost use Rattle.std.specs.Prelude.{◌≡◌, ◌≢◌, IsOk, Err};
ghost use Rattle.world_actions.specs.declared.refusal.Refusal.{Refusal as Reason};

use std::alloc::Global;
use std::io::{self, ErrorKind, Read, Write};
use steps::run_script;
use world_actions::Refusal;
use world_folder::{Ending, Failure, StandardStream, StreamFailure};

/// A stream, and why its last call that failed did.
#[derive(Drop)]
struct Watched<S: Drop> {
    stream: S,
    failure: Option<io::Error>,
}

impl<S: Drop> Watched<S> {
    fn new(stream: S) -> Self {
        Watched {
            stream,
            failure: None,
        }
    }

    // Keeps the failure of a call, except of one that is tried again.
    fn keep<T>(&mut self, answer: io::Result<T>) -> io::Result<T>
        ensures { result ≡ answer }
    {
        if let Err(error) = &answer
            && error.kind() != ErrorKind::Interrupted
        {
            self.failure = Some(*error);
        }
        answer
    }
}

impl<S: Read + Drop> Read for Watched<S> {
    fn read(&mut self, into: &mut [u8]) -> io::Result<usize> {
        let answer = self.stream.read(into);
        self.keep(answer)
    }
}

impl<S: Write + Drop> Write for Watched<S> {
    fn write(&mut self, bytes: &[u8]) -> io::Result<usize> {
        let answer = self.stream.write(bytes);
        self.keep(answer)
    }

    fn flush(&mut self) -> io::Result<()> {
        let answer = self.stream.flush();
        self.keep(answer)
    }
}

/// Runs a script of these streams. A stream that fails ends the program with its name and its
/// reason. The writer must not buffer, since a script doesn't flush it.
pub fn run_steps<R: Read + Drop, W: Write + Drop>(alloc: Global, input: R, output: W) -> Ending {
    let mut input = Watched::new(input);
    let mut output = Watched::new(output);
    let run = run_script(alloc, &mut input, &mut output);
    ending_of(run, input.failure, output.failure)
}

// How the program ends after a script whose streams failed so.
fn ending_of(
    run: Result<(), Refusal>,
    input: Option<io::Error>,
    output: Option<io::Error>,
) -> Ending
    ensures well { IsOk run → result ≡ Ending.Ran }
    ensures fault { (refusal : Reason) → run ≡ Err refusal → refusal ≢ Refusal.Device
        → result ≡ Ending.Failed (Failure.Refused refusal) }
{
    match (run, input, output) {
        (Err(Refusal::Device), Some(error), _) => failed_stream(StandardStream::Input, error),
        (Err(Refusal::Device), None, Some(error)) => failed_stream(StandardStream::Output, error),
        (run, _, _) => Ending::of_run(run),
    }
}

// How the program ends if a stream failed.
fn failed_stream(stream: StandardStream, error: io::Error) -> Ending {
    Ending::Failed(Failure::Stream(StreamFailure { stream, error }))
}
