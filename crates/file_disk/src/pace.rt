//! The pace at which images are written while a world is played.
ghost use Rattle.std.specs.Prelude.{◌≡◌, ◌↔◌, ◌<◌, ◌≤◌, ◌+◌, ◌-◌, min, false, IsTrue};
ghost use Rattle.disk_model.specs.Disk.{last_count};

use libc::types::timespec;
use std::alloc::{AllocError, Global};
use std::sync::Arc;
use std::sync::atomic::{AtomicU64, Ordering};

/// How many written bytes are synced together.
const PIECE_BYTES: u64 = 16_384;

/// How many ticks may be played during one round before its image is written without pauses. The
/// log has room for eight times as many.
const PACED_TICKS: u64 = 8_192;

/// The pause after a piece: half a millisecond.
const PAUSE: timespec = timespec {
    tv_sec: 0,
    tv_nsec: 500_000,
};

/// How many ticks have ended, for the files that are paced by them. Its clones share the count.
#[derive(Drop)]
pub struct Pace {
    ticks: Arc<AtomicU64, Global>,
}

impl Pace {
    /// The pace of a world that isn't played yet: nothing is paced.
    pub fn new(alloc: Global) -> Result<Self, AllocError> {
        Ok(Pace {
            ticks: Arc::new(alloc, AtomicU64::new(0))?,
        })
    }

    /// Notes how many ticks have ended since the world began.
    pub fn ticks_ended(&self, ticks: u64) {
        self.ticks.store(ticks, Ordering::SeqCst);
    }

    fn ticks(&self) -> u64 {
        self.ticks.load(Ordering::SeqCst)
    }
}

impl Clone for Pace {
    fn clone(&self) -> Result<Self, AllocError> {
        Ok(Pace {
            ticks: Arc::try_clone(&self.ticks)?,
        })
    }
}

/// The pace of one file.
#[derive(Drop)]
pub struct Paced {
    pace: Pace,
    /// How many ticks had ended at the last sync that was asked for, after which a round begins.
    begun: u64,
    /// How many bytes were written since the last sync.
    unsynced: u64,
}

impl Paced {
    /// A file of which nothing is unsynced.
    pub fn by(pace: Pace) -> Self
        ensures { (result.begun ≡ 0) × (result.unsynced ≡ 0) }
    {
        Paced {
            pace,
            begun: 0,
            unsynced: 0,
        }
    }

    /// The file is synced.
    pub fn synced(&mut self)
        ensures { self.new.unsynced ≡ 0 }
    {
        self.begun = self.pace.ticks();
        self.unsynced = 0;
    }

    /// Counts the bytes of a write. Returns true if the piece that they end is to be synced, with
    /// a pause.
    pub fn ends_piece(&mut self, written: usize) -> bool
        ensures ends { IsTrue result
            → (16384 ≤ self.old.unsynced + written) × (self.new.unsynced ≡ 0) }
        ensures begun { self.new.begun ≡ self.old.begun }
        ensures goes_on { result ≡ false
            → self.new.unsynced ≡ min (self.old.unsynced + written) last_count }
    {
        self.unsynced = self.unsynced.saturating_add(written as u64);
        if self.unsynced < PIECE_BYTES || !is_paced(self.begun, self.pace.ticks()) {
            return false;
        }
        self.unsynced = 0;
        true
    }
}

// True if a round that began after `begun` ticks is still paced after `ticks`.
fn is_paced(begun: u64, ticks: u64) -> bool
    ensures { IsTrue result ↔ ((0 < ticks) × (ticks - begun < 8192)) }
{
    ticks > 0 && ticks.saturating_sub(begun) < PACED_TICKS
}

/// Leaves the device to other threads for a while. A signal may end the pause before.
pub fn pause() {
    let mut left = PAUSE;
    libc::nanosleep(&PAUSE, &mut left);
}
