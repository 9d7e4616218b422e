//! A valve on files: once it is shut, none of their syncs succeeds.
ghost use Rattle.std.specs.Prelude.{◌≡◌, true, false, IfErr, IsErr, IsErrAnd};

use std::alloc::{AllocError, Global};
use std::io;
use std::sync::Arc;
use std::sync::atomic::{AtomicBool, Ordering};

/// Whether the syncs of files may still succeed. Its clones share it.
#[derive(Drop)]
pub struct Valve {
    is_shut: Arc<AtomicBool, Global>,
}

impl Valve {
    /// An open valve.
    pub fn new(alloc: Global) -> Result<Self, AllocError> {
        Ok(Valve {
            is_shut: Arc::new(alloc, AtomicBool::new(false))?,
        })
    }

    /// Shuts it for good. A sync of its files that hasn't returned yet fails too, so a tick that
    /// isn't answered yet never is.
    pub fn shut(&self) {
        self.is_shut.store(true, Ordering::SeqCst);
    }

    fn is_shut(&self) -> bool {
        self.is_shut.load(Ordering::SeqCst)
    }
}

impl Clone for Valve {
    fn clone(&self) -> Result<Self, AllocError> {
        Ok(Valve {
            is_shut: Arc::try_clone(&self.is_shut)?,
        })
    }
}

/// The answer to a sync of a file behind this valve.
pub fn passed(valve: &Option<Valve>, synced: io::Result<()>) -> io::Result<()>
    ensures failed { IfErr synced (λ error. IsErrAnd result (λ why. why ≡ error)) }
{
    match valve {
        Some(valve) => unless_shut(valve.is_shut(), synced),
        None => synced,
    }
}

// The answer to a sync that has ended. If the valve is shut by then, it is a failure.
fn unless_shut(is_shut: bool, synced: io::Result<()>) -> io::Result<()>
    ensures shut { is_shut ≡ true → IsErr result }
    ensures open { is_shut ≡ false → result ≡ synced }
    ensures failed { IfErr synced (λ error. IsErrAnd result (λ why. why ≡ error)) }
{
    synced?;
    if is_shut {
        return Err(io::Error::other("it was removed or replaced"));
    }
    Ok(())
}
