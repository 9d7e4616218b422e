//! The files of a folder as readers see them: opened only to be read, and read as far as
//! their formats go.
ghost use Rattle.std.specs.Prelude.{◌≡◌, Ok, IsTrue, IfOk, IfErr, OnErr, IfSome, IsErr, IsErrAnd};
ghost use Rattle.world_folder.specs.Fault.{AreRead};
ghost use Rattle.world_folder.specs.Ending.{ReportsOfFirst};
ghost use Rattle.world_folder.specs.History.{AreInTurn};
ghost use Rattle.world_folder.specs.ReadIn.{IsFileRead, IsReadIn};

use crate::failure::Failure;
use crate::folders::{Reading, Source, WorldDisk};
use crate::system_error::error_of;
use disk_model::{Disk, FourFiles, IMAGE_A, IMAGE_B, LOG_A, LOG_B, WorldFile};
use file_readers::{read_image_file, read_segment_file};
use std::alloc::Global;
use std::io;
use world_actions::Refusal;

/// The bytes of each file of a folder that its format reads, or why it can't be read. Each is
/// opened for reading only, and nothing is locked.
pub fn read_folder<F: Source>(folder: &mut F) -> FourFiles<io::Result<Vec<u8>>>
    ensures { IsTrue F.honest → IsTrue F.File.honest
        → AreInTurn IsReadIn result (F.history folder.old) (F.history folder.new) }
{
    FourFiles {
        image_a: read_file(folder, WorldFile::ImageA),
        image_b: read_file(folder, WorldFile::ImageB),
        log_a: read_file(folder, WorldFile::LogA),
        log_b: read_file(folder, WorldFile::LogB),
    }
}

/// The bytes of a file of a folder that its format reads, or why it can't be read. It is opened for
/// reading only, and synced before.
pub fn read_file<F: Source>(folder: &mut F, file: WorldFile) -> io::Result<Vec<u8>>
    ensures { IsTrue F.honest → IsTrue F.File.honest
        → IsReadIn file result (F.history folder.old) (F.history folder.new) }
{
    let mut opened = folder.open_to_read(file, Reading::Synced)?;
    opened.read_whole(folder.alloc(), file)
}

/// The bytes of a file that its format reads.
pub fn read_whole<D: Disk>(alloc: Global, file: WorldFile, disk: &mut D) -> Result<Vec<u8>, Refusal>
    ensures read { IsTrue D.honest
        → IfOk result (λ bytes. IsFileRead file (D.content disk.old) bytes.items) }
    ensures kept { IsTrue D.honest → D.content disk.new ≡ D.content disk.old }
{
    match file {
        WorldFile::ImageA | WorldFile::ImageB => read_image_file(alloc, disk),
        WorldFile::LogA | WorldFile::LogB => read_segment_file(alloc, disk),
    }
}

/// The answer of a call, or the system's error if a call of the file failed.
pub fn explain<D: WorldDisk, T>(disk: &mut D, answer: Result<T, Refusal>) -> io::Result<T>
    ensures ok { IfOk answer (λ value. (result ≡ Ok value) × (disk.new ≡ disk.old)) }
    ensures fails { OnErr answer (IsErr result) }
    ensures reason { IsTrue D.honest
        → OnErr answer
        (IfSome (D.failure disk.old) (λ error. IsErrAnd result (λ why. why ≡ error))) }
{
    match answer {
        Ok(value) => Ok(value),
        Err(refusal) => match disk.last_failure() {
            Some(error) => Err(error),
            None => Err(error_of(refusal)),
        },
    }
}

/// The bytes of all files if each was read, else how the program ends for the first that wasn't.
pub fn all_read<F: Source>(
    folder: &F,
    read: FourFiles<io::Result<Vec<u8>>>,
) -> Result<FourFiles<Vec<u8>>, Failure>
    ensures read { IfOk result (AreRead read) }
    ensures unread { IfErr result (ReportsOfFirst (F.path folder.now) read) }
{
    Ok(FourFiles {
        image_a: folder.blame(IMAGE_A, read.image_a)?,
        image_b: folder.blame(IMAGE_B, read.image_b)?,
        log_a: folder.blame(LOG_A, read.log_a)?,
        log_b: folder.blame(LOG_B, read.log_b)?,
    })
}
