ghost use Rattle.std.specs.Prelude.{◌≡◌, IsOk, IsErr};
ghost use Rattle.std.specs.Process.{exit_status};

use std::fmt::Display;
use std::process::ExitCode;

/// The exit status of a run, with a line on standard error on what ended it too early.
pub fn exit_code_of<R: Eprint, E: Display + Drop>(rt: &R, run: Result<(), E>) -> ExitCode
    ensures well { IsOk run → exit_status result ≡ 0 }
    ensures fails { IsErr run → exit_status result ≡ 1 }
{
    match run {
        Ok(()) => ExitCode::SUCCESS,
        Err(error) => {
            let _ = eprintln!(rt; "error: {error}");
            ExitCode::from(1)
        }
    }
}
