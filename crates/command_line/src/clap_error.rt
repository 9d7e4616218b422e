ghost use Rattle.std.specs.Prelude.{◌≡◌, ◌≢◌, ◌⊎◌, IsOk, IfErr};
ghost use Rattle.std.specs.declared.io.Error.{Error as SystemError};
ghost use Rattle.clap.specs.Values.{kind_of};

use crate::not_run::NotRun;
use clap::error::{Error, ErrorKind};
use std::io;

/// A command line that isn't right, or that asks for help or the version. It prints clap's text,
/// except if memory is lacking.
pub fn refused<R: Print + Eprint>(rt: &R, error: &Error) -> NotRun
    ensures memory { kind_of error.now ≡ ErrorKind.OutOfMemory → result ≡ NotRun.NoMemory }
    ensures reported { (kind_of error.now ≡ ErrorKind.DisplayHelp)
        ⊎ (kind_of error.now ≡ ErrorKind.DisplayVersion)
        → (result ≡ NotRun.HelpPrinted) ⊎ ((why : SystemError) × (result ≡ NotRun.Unprinted why)) }
    ensures mistaken { kind_of error.now ≢ ErrorKind.OutOfMemory
        → kind_of error.now ≢ ErrorKind.DisplayHelp
        → kind_of error.now ≢ ErrorKind.DisplayVersion → result ≡ NotRun.Mistaken }
{
    if error.kind() == ErrorKind::OutOfMemory {
        return NotRun::NoMemory;
    }
    let printed = error.print(rt);
    if error.use_stderr() {
        NotRun::Mistaken
    } else {
        reported(printed)
    }
}

// Help or the version that was printed so.
fn reported(printed: io::Result<()>) -> NotRun
    ensures ok { IsOk printed → result ≡ NotRun.HelpPrinted }
    ensures err { IfErr printed (λ why. result ≡ NotRun.Unprinted why) }
{
    match printed {
        Ok(()) => NotRun::HelpPrinted,
        Err(error) => NotRun::Unprinted(error),
    }
}
