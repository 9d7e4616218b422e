use crate::exit_code::exit_code_of;
use std::alloc::AllocError;
use std::process::ExitCode;
use std::{fmt, io};

/// Why a program does none of its work.
#[derive(Clone, Copy, Debug)]
pub enum NotRun {
    /// Help or the version was asked for, and printed.
    HelpPrinted,
    /// Help or the version was asked for, and standard output failed.
    Unprinted(io::Error),
    /// The command line is wrong, and the reason was printed.
    Mistaken,
    /// There is no memory for its words.
    NoMemory,
}

impl NotRun {
    ghost use Rattle.std.specs.Prelude.{◌≡◌};
    ghost use Rattle.std.specs.Process.{exit_status};
    ghost use Rattle.std.specs.declared.io.Error.{Error};
    ghost use Rattle.command_line.specs.declared.not_run.NotRun.TheVariants.{HelpPrinted};
    ghost use Rattle.command_line.specs.declared.not_run.NotRun.TheVariants.{Unprinted, Mistaken};
    ghost use Rattle.command_line.specs.declared.not_run.NotRun.TheVariants.{NoMemory};

    /// Returns the exit status. A failed output and lack of memory weren't reported before, so they
    /// are printed on standard error.
    pub fn report<R: Eprint>(self, rt: &R) -> ExitCode
        ensures reported { self ≡ HelpPrinted → exit_status result ≡ 0 }
        ensures unprinted { (error : Error) → self ≡ Unprinted error → exit_status result ≡ 1 }
        ensures mistaken { self ≡ Mistaken → exit_status result ≡ 2 }
        ensures memory { self ≡ NoMemory → exit_status result ≡ 1 }
    {
        match self {
            NotRun::HelpPrinted => ExitCode::SUCCESS,
            NotRun::Unprinted(error) => exit_code_of(rt, Err(Output(error))),
            NotRun::Mistaken => ExitCode::from(2),
            NotRun::NoMemory => exit_code_of(rt, Err(AllocError)),
        }
    }
}

// A failure of standard output.
#[derive(Clone, Copy)]
struct Output(io::Error);

impl fmt::Display for Output {
    fn fmt<W: fmt::Write>(&self, f: &mut fmt::Formatter<W>) -> fmt::Result {
        write!(f, "standard output: {}", self.0)
    }
}
