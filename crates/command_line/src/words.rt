ghost use Rattle.std.specs.Prelude.{◌≡◌, ◌≢◌};
ghost use Rattle.std.specs.IoError.{error_kind};

use crate::not_run::NotRun;
use std::env::{self, Env};
use std::io::{self, ErrorKind};

/// The words of the command line, the program's name first.
pub fn command_words(rt: &(impl Env + AllocGlobal)) -> io::Result<Vec<String>> {
    env::args(rt)?.collect(rt.alloc()).map_err(io::Error::from)
}

/// Words that the system couldn't give. It prints the reason on standard error, except if
/// memory is lacking.
pub fn unreadable<R: Eprint>(rt: &R, error: &io::Error) -> NotRun
    ensures memory { error_kind error.now ≡ ErrorKind.OutOfMemory → result ≡ NotRun.NoMemory }
    ensures mistaken { error_kind error.now ≢ ErrorKind.OutOfMemory → result ≡ NotRun.Mistaken }
{
    if error.kind() == ErrorKind::OutOfMemory {
        return NotRun::NoMemory;
    }
    let _ = match error.kind() {
        ErrorKind::InvalidData => eprintln!(rt; "error: {NOT_TEXT}"),
        _ => eprintln!(rt; "error: the command line can't be read: {error}"),
    };
    NotRun::Mistaken
}

const NOT_TEXT: &str = "a word of the command line isn't UTF-8: a path has to be";
