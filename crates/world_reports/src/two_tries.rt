//! A file of a damaged world, which is read again if it looks lost.
ghost use Rattle.std.specs.Prelude.{◌≡◌, ◌↔◌, IsTrue};
ghost use Rattle.world_reports.specs.TwoTries.{IsLost, IsTried, AreTried};

use disk_model::{FourFiles, WorldFile};
use std::io::{self, ErrorKind};
use world_folder::{Source, read_file};

/// The result of reading a file, at one try or two.
#[derive(Drop)]
pub struct TwoTries {
    /// The error of the first try, if there was a second.
    pub failed: Option<io::Error>,
    /// The result of the last try.
    pub value: io::Result<Vec<u8>>,
}

impl TwoTries {
    ghost use Rattle.std.specs.Prelude.{◌≡◌};
    ghost use Rattle.world_reports.specs.SalvagedWorld.{failed_once};

    /// The error of the first try, if the second one succeeded.
    pub fn failed_once(&self) -> Option<io::Error>
        ensures { result ≡ failed_once self.now }
    {
        if self.value.is_err() {
            None
        } else {
            self.failed
        }
    }
}

/// Reads each file of a folder, as `read_folder` does. One that looks lost is read once more.
pub fn try_folder<F: Source>(folder: &mut F) -> FourFiles<TwoTries>
    ensures { IsTrue F.honest → IsTrue F.File.honest
        → AreTried result (F.history folder.old) (F.history folder.new) }
{
    FourFiles {
        image_a: try_file(folder, WorldFile::ImageA),
        image_b: try_file(folder, WorldFile::ImageB),
        log_a: try_file(folder, WorldFile::LogA),
        log_b: try_file(folder, WorldFile::LogB),
    }
}

fn try_file<F: Source>(folder: &mut F, file: WorldFile) -> TwoTries
    ensures { IsTrue F.honest → IsTrue F.File.honest → IsTried file result.failed result.value
        (F.history folder.old) (F.history folder.new) }
{
    match read_file(folder, file) {
        Err(error) if is_lost(&error) => TwoTries {
            failed: Some(error),
            value: read_file(folder, file),
        },
        value => TwoTries {
            failed: None,
            value,
        },
    }
}

/// True if a file isn't there, or its device can't read it.
pub fn is_lost(error: &io::Error) -> bool
    ensures { IsTrue result ↔ IsLost error.now }
{
    error.kind() == ErrorKind::NotFound || error.raw_os_error() == Some(libc::EIO)
}
