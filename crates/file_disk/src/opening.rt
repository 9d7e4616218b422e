//! The calls that settle a file before it is read.
ghost use Rattle.std.specs.Prelude.{◌≡◌, ◌≢◌, ◌↔◌, ◌<ℤ◌, pos, Ok, Err, Some, IsTrue, IsOk};
ghost use Rattle.std.specs.Prelude.{IsErrAnd, IfErr};
ghost use Rattle.std.specs.Fd.{file_raw_fd};
ghost use Rattle.std.specs.IoError.{raw_os_error};
ghost use Rattle.file_disk.specs.Opening.{IsUnwritable};

use std::fs::File;
use std::io;
use std::os::fd::AsRawFd;

/// The highest descriptor of a standard stream.
const STANDARD_ERROR: i32 = 2;

/// Refuses a file at the descriptor of a standard stream, which text for people would
/// be written into.
pub fn above_streams(file: &File) -> io::Result<()>
    ensures { IsOk result → pos 2 <ℤ file_raw_fd file.now }
{
    if file.as_raw_fd() > STANDARD_ERROR {
        Ok(())
    } else {
        Err(io::Error::other("a standard stream is closed"))
    }
}

/// Drops the system's copies of a file's bytes, so that later reads ask the device. After a sync
/// that failed, which may have been an earlier program's, the system keeps copies that the device
/// doesn't have, and no later sync writes them. The system keeps the copies of bytes that a program
/// has mapped, and those of a file system without a device.
pub fn drop_copies(file: &File) -> io::Result<()> {
    answer_of(libc::posix_fadvise(file.as_raw_fd(), 0, 0, libc::POSIX_FADV_DONTNEED))
}

// The answer of a call of the system that returns 0 or the number of an error.
fn answer_of(number: i32) -> io::Result<()>
    ensures ok { number ≡ pos 0 → result ≡ Ok tt }
    ensures err { number ≢ pos 0 → IsErrAnd result (λ error. raw_os_error error ≡ Some number) }
{
    if number == 0 {
        Ok(())
    } else {
        Err(io::Error::from_raw_os_error(number))
    }
}

/// The system's answer to the sync of a file that is only read. If the file can't be written,
/// no sync is needed.
pub fn if_writable(synced: io::Result<()>) -> io::Result<()>
    ensures ok { synced ≡ Ok tt → result ≡ Ok tt }
    ensures unwritable { IfErr synced (λ error. IsUnwritable error → result ≡ Ok tt) }
    ensures other { IfErr synced (λ error. ¬ IsUnwritable error → result ≡ Err error) }
{
    match synced {
        Err(error) if is_unwritable(&error) => Ok(()),
        answer => answer,
    }
}

fn is_unwritable(error: &io::Error) -> bool
    ensures { IsTrue result ↔ IsUnwritable error.now }
{
    match error.raw_os_error() {
        Some(number) => { number == libc::EBADF || number == libc::EINVAL || number == libc::EROFS }
        None => false,
    }
}
