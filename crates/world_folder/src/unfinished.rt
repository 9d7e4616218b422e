//! A world that wasn't made, and the files of it that were.
use crate::opening::Unreadable;
use disk_model::{FourFiles, IMAGE_A, IMAGE_B, LOG_A, LOG_B};
use std::{fmt, io};
use world_actions::Refusal;

/// Why a world wasn't made.
#[derive(Debug, Drop)]
pub enum Why {
    /// There was no memory.
    NoMemory,
    /// A file failed.
    File(Unreadable),
}

impl Why {
    ghost use Rattle.std.specs.Prelude.{◌≡◌};
    ghost use Rattle.world_folder.specs.Ending.{error_of_why};

    /// The error of the system, if a file failed.
    pub fn error(&self) -> Option<io::Error>
        ensures { result ≡ error_of_why self.now }
    {
        match self {
            Why::NoMemory => None,
            Why::File(file) => Some(file.error),
        }
    }
}

/// Why a world wasn't made, and which files were. They stay, and may recover.
#[derive(Debug, Drop)]
pub struct Unfinished {
    pub made: FourFiles<bool>,
    pub why: Why,
}

impl fmt::Display for Unfinished {
    fn fmt<W: fmt::Write>(&self, f: &mut fmt::Formatter<W>) -> fmt::Result {
        match &self.why {
            Why::NoMemory => write!(f, "{}", Refusal::NoMemory)?,
            Why::File(file) => write!(f, "{file}")?,
        }
        write_made(f, self.made.image_a, IMAGE_A)?;
        write_made(f, self.made.image_b, IMAGE_B)?;
        write_made(f, self.made.log_a, LOG_A)?;
        write_made(f, self.made.log_b, LOG_B)
    }
}

fn write_made<W: fmt::Write>(f: &mut fmt::Formatter<W>, made: bool, name: &str) -> fmt::Result {
    if made {
        write!(f, "; {name} was made")
    } else {
        Ok(())
    }
}
