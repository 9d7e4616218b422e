//! The lock of a file, by which programs know that another one writes it. It is the system's
//! advisory lock, which ends with the open file.
ghost use Rattle.std.specs.Prelude.{◌≡◌, ◌≢◌, Ok, IsOk, IsErr, IfErr};

use std::fs::{File, TryLockError};
use std::time::{Clock, Duration};
use std::{io, thread};

/// How often a writer tries to lock a file that a reader asks for the same.
const TRIES: u32 = 1_000;

/// How long the next try waits.
const PAUSE_MILLISECONDS: u64 = 1;

/// Why a file isn't locked that a writer has.
pub const WRITTEN: &str = "another program writes this world";

/// Why a file isn't locked that a reader has at each try.
const READ: &str = "a program that looks at this world keeps its lock";

/// The answer of a reader that asks for the lock of a file.
#[derive(Clone, Copy, Debug, PartialEq, Eq)]
pub enum LockState {
    /// A writer holds it.
    Held,
    Free,
    /// The system can't say.
    Unknown,
}

/// Locks a file for the program that writes it. It is refused at once if another writer has the
/// lock. A reader has it only for a moment: that is waited for, a second at most.
pub fn lock<R: Clock>(rt: &R, file: &File) -> io::Result<()> {
    for _ in 0..TRIES {
        match file.try_lock() {
            Ok(()) => return Ok(()),
            Err(TryLockError::Error(error)) => return Err(error),
            Err(TryLockError::WouldBlock) => unless_held(lock_state(file))?,
        }
        thread::sleep(rt, Duration::from_millis(PAUSE_MILLISECONDS));
    }
    Err(io::Error::other(READ))
}

/// Asks for the lock of a file as a reader does, and gives it back at once. It never waits.
pub fn lock_state(file: &File) -> LockState {
    let answer = file.try_lock_shared();
    if answer.is_ok() {
        let _ = file.unlock();
    }
    state_of(answer)
}

// Returns the state of a lock by the answer to a reader.
fn state_of(answer: Result<(), TryLockError>) -> LockState
    ensures free { IsOk answer → result ≡ LockState.Free }
    ensures held { answer ≡ Err TryLockError.WouldBlock → result ≡ LockState.Held }
    ensures unknown { IfErr answer (λ error. error ≢ TryLockError.WouldBlock
        → result ≡ LockState.Unknown) }
{
    match answer {
        Ok(()) => LockState::Free,
        Err(TryLockError::WouldBlock) => LockState::Held,
        Err(TryLockError::Error(_)) => LockState::Unknown,
    }
}

// Refuses a lock that another writer holds.
fn unless_held(state: LockState) -> io::Result<()>
    ensures held { state ≡ LockState.Held → IsErr result }
    ensures other { state ≢ LockState.Held → result ≡ Ok tt }
{
    match state {
        LockState::Held => Err(io::Error::other(WRITTEN)),
        LockState::Free | LockState::Unknown => Ok(()),
    }
}
