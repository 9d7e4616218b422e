ghost use Rattle.std.specs.Prelude.{◌↔◌, ◌≢◌, ◌<ℤ◌, pos, IsTrue, IfOk, IfSome};
ghost use Rattle.std.specs.Fd.{file_raw_fd};

use std::fs::{File, Files, OpenOptions};
use std::io;
use std::os::fd::{AsRawFd, IntoRawFd};

/// The highest descriptor of a standard stream.
const STANDARD_ERROR: i32 = 2;

/// Takes each standard stream that is closed by /dev/null, up to the end of the program. Without
/// it the system gives descriptor 0, 1 or 2 to the next file that the program opens. Text for
/// people is then written into that file. If a stream is closed it returns /dev/null at a
/// descriptor above them: the system gives the lowest one that is free, so none of them is. If all
/// three are open it opens nothing.
pub fn take_standard_streams<R: Files<File = File>>(rt: &R) -> io::Result<Option<File>>
    ensures { IfOk result (λ taken. IfSome taken (λ null. pos 2 <ℤ file_raw_fd null)) }
{
    if are_open() {
        return Ok(None);
    }
    for _ in 0..=STANDARD_ERROR + 1 {
        let null = OpenOptions::new()
            .read(true)
            .write(true)
            .open(rt, "/dev/null")?;
        if null.as_raw_fd() > STANDARD_ERROR {
            return Ok(Some(null));
        }
        null.into_raw_fd();
    }
    Err(io::Error::other("a standard stream is closed"))
}

// True if no standard stream is closed.
fn are_open() -> bool {
    is_open(0) && is_open(1) && is_open(STANDARD_ERROR)
}

// Advice on a descriptor asks for nothing new here. The system refuses it for another reason if
// it is no file's.
fn is_open(descriptor: i32) -> bool {
    shows_open(libc::posix_fadvise(descriptor, 0, 0, libc::POSIX_FADV_NORMAL))
}

// The answer of a call on a descriptor shows that it is open: it is any but the number of
// a bad descriptor.
fn shows_open(answer: i32) -> bool
    ensures { IsTrue result ↔ answer ≢ pos 9 }
{
    answer != libc::EBADF
}
