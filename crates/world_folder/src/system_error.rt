ghost use Rattle.std.specs.Prelude.{◌≡◌, ◌≢◌, ◌↔◌, IsTrue, IsSomeAnd, None, codes};
ghost use Rattle.std.specs.IoError.{error_kind, raw_os_error};
ghost use Rattle.world_folder.specs.Ending.{IsExhausted, IsShortage};

use std::alloc::AllocError;
use std::fmt;
use std::io::{self, ErrorKind};
use world_actions::Refusal;

/// The reason of an error of the system, in words. A full disk and a file at its limit have a text
/// each, and a write that wrote a part of its bytes names both. Any other error has the system's.
#[derive(Clone, Copy)]
pub struct Reason(pub io::Error);

/// The reason of a full disk.
const FULL_DISK: &str = "the disk is full";

/// The reason of a file that may not grow.
const SIZE_LIMIT: &str = "the file has reached a limit on its size";

/// The causes of a short write. The system would say which one at a further write, and may end the
/// program by a signal.
const SHORT_WRITE: &str = "the disk is full, or the file has reached a limit on its size";

// The system has no descriptor more.
const ENFILE: i32 = 23;

// The system has no lock more.
const ENOLCK: i32 = 37;

// The system has no room for a socket's data.
const ENOBUFS: i32 = 105;

impl fmt::Display for Reason {
    fn fmt<W: fmt::Write>(&self, f: &mut fmt::Formatter<W>) -> fmt::Result {
        match own_text(&self.0) {
            Some(text) => f.write_str(text),
            None => write!(f, "{}", self.0),
        }
    }
}

// The text in place of the system's, if this error has one.
fn own_text(error: &io::Error) -> Option<&'static str>
    ensures full { error_kind error.now ≡ ErrorKind.StorageFull
        → IsSomeAnd result (λ text. text.now ≡ codes "the disk is full") }
    ensures limited { error_kind error.now ≡ ErrorKind.FileTooLarge
        → IsSomeAnd result (λ text. text.now ≡ codes "the file has reached a limit on its size") }
    ensures short { error_kind error.now ≡ ErrorKind.WriteZero → IsSomeAnd result (λ text.
        text.now ≡ codes "the disk is full, or the file has reached a limit on its size") }
    ensures other { error_kind error.now ≢ ErrorKind.StorageFull
        → error_kind error.now ≢ ErrorKind.FileTooLarge
        → error_kind error.now ≢ ErrorKind.WriteZero → result ≡ None }
{
    match error.kind() {
        ErrorKind::StorageFull => Some(FULL_DISK),
        ErrorKind::FileTooLarge => Some(SIZE_LIMIT),
        ErrorKind::WriteZero => Some(SHORT_WRITE),
        _ => None,
    }
}

/// The refusal for an error of the system: lack of memory, or a fault of its device.
pub fn refusal_of(error: &io::Error) -> Refusal
    ensures memory { error_kind error.now ≡ ErrorKind.OutOfMemory → result ≡ Refusal.NoMemory }
    ensures device { error_kind error.now ≢ ErrorKind.OutOfMemory → result ≡ Refusal.Device }
{
    if error.kind() == ErrorKind::OutOfMemory {
        Refusal::NoMemory
    } else {
        Refusal::Device
    }
}

/// True if memory, room on a disk or another resource of the system is short, which may be there at
/// another try.
pub fn is_shortage(error: &io::Error) -> bool
    ensures { IsTrue result ↔ IsShortage error.now }
{
    let kind = error.kind();
    kind == ErrorKind::OutOfMemory
        || kind == ErrorKind::StorageFull
        || kind == ErrorKind::QuotaExceeded
        || kind == ErrorKind::FileTooLarge
        || kind == ErrorKind::WriteZero
        || is_exhausted(error.raw_os_error())
}

// True if the system has no descriptor, lock or buffer more.
fn is_exhausted(error: Option<i32>) -> bool
    ensures { IsTrue result ↔ IsExhausted error }
{
    error == Some(ENFILE)
        || error == Some(libc::EMFILE)
        || error == Some(ENOLCK)
        || error == Some(ENOBUFS)
}

/// The error of the system for a refusal.
pub fn error_of(refusal: Refusal) -> io::Error
    ensures memory { refusal ≡ Refusal.NoMemory → error_kind result ≡ ErrorKind.OutOfMemory }
    ensures other { refusal ≢ Refusal.NoMemory → error_kind result ≢ ErrorKind.OutOfMemory }
{
    match refusal {
        Refusal::NoMemory => io::Error::from(AllocError),
        _ => io::Error::other("the device failed"),
    }
}
