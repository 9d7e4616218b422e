ghost use Rattle.std.specs.Prelude.{◌≡◌, ◌≢◌, true, Ok};
ghost use Rattle.std.specs.Process.{exit_status};

use std::fmt::Display;
use std::process::ExitCode;

/// Returns the exit status of a trial: 0 if all was right, else 1. Prints an error.
pub fn exit_code_of<R: Eprint, E: Display + Drop>(rt: &R, run: Result<bool, E>) -> ExitCode
    ensures right { run ≡ Ok true → exit_status result ≡ 0 }
    ensures wrong { run ≢ Ok true → exit_status result ≡ 1 }
{
    match run {
        Ok(true) => ExitCode::SUCCESS,
        Ok(false) => ExitCode::from(1),
        Err(error) => {
            let _ = eprintln!(rt; "error: {error}");
            ExitCode::from(1)
        }
    }
}
