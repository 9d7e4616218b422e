//! The guard of a running server, which says how far its world has come.
ghost use Rattle.std.specs.Prelude.{◌≡◌, ◌++◌, ◌∷◌, [], ℕ, Ok, None, Some, true, false, IfErr};
ghost use Rattle.world_server.specs.Guarding.{next_guard, IsStarted};

use crate::heartbeat::Heartbeat;
use crate::runtime::LookUp;
use crate::standing::{is_overdue, passed_since};
use shared_capture::SignalIn;
use std::alloc::Global;
use std::fs::{File, Files};
use std::io;
use std::path::PathBuf;
use std::time::{Clock, Instant};
use world_folder::{Guard, new_guard, seconds_now};

/// How many seconds lie between two guards.
const APART_SECONDS: u32 = 1;

/// Writes the guard of a world beside play, in the thread that looks at its server.
#[derive(Drop)]
pub struct GuardKeeper {
    /// The world's folder.
    pub folder: PathBuf,
    /// The signs of life between the writes.
    pub heartbeat: Heartbeat,
    /// The guard that was written last, or at the start was to be.
    pub written: Guard,
    /// Loads the greatest acknowledged tick.
    pub acked: SignalIn,
    /// The time of the last write.
    pub tried_at: Option<Instant>,
    /// True if that failed.
    pub failed: bool,
}

impl GuardKeeper {
    /// Writes the guard if a tick or an image is new, unless one was written in the last second. It
    /// returns the error of a write that fails after one that succeeded.
    pub fn look<R: LookUp + Clock>(&mut self, rt: &R, image: u64) -> Option<io::Error> {
        let passed = passed_since(rt, self.tried_at);
        if self.tried_at.is_some() && !is_overdue(Some(APART_SECONDS), passed) {
            return None;
        }
        self.write(rt, image)
    }

    /// Writes the guard if a tick or an image is new, or if the last write failed.
    pub fn write<R: LookUp + Clock>(&mut self, rt: &R, image: u64) -> Option<io::Error> {
        let guard = self.due(image, seconds_now(rt))?;
        self.tried_at = Instant::now(rt).ok();
        let answer = rt.put_guard(self.folder.as_str(), &guard);
        self.note_answer(guard, answer)
    }

    // The guard to be written: it has the greatest acknowledged tick, which is loaded for it, and
    // that of the newest image. If nothing is new there is none, unless the last write failed.
    fn due(&mut self, image: u64, seconds: u64) -> Option<Guard>
        ensures { (loaded : ℕ)
            × (self.new ≡ record self.old {
              acked = record self.old.acked { numbers = self.old.acked.numbers ++ loaded ∷ [] };
            })
            × (result ≡ next_guard self.old.failed self.old.written loaded image seconds) }
    {
        let acked = self.acked.latest();
        next_guard(self.failed, self.written, acked, image, seconds)
    }

    // Notes how a write of this guard went. It returns the first error of several.
    fn note_answer(&mut self, guard: Guard, answer: io::Result<()>) -> Option<io::Error>
        ensures written { answer ≡ Ok tt
            → (self.new ≡ record self.old { written = guard; failed = false }) × (result ≡ None) }
        ensures failed { IfErr answer (λ error. (self.new ≡ record self.old { failed = true })
            × (self.old.failed ≡ false → result ≡ Some error)
            × (self.old.failed ≡ true → result ≡ None)) }
    {
        let was_failed = self.failed;
        match answer {
            Ok(()) => {
                self.written = guard;
                self.failed = false;
                None
            }
            Err(error) => {
                self.failed = true;
                if was_failed { None } else { Some(error) }
            }
        }
    }
}

// The guard after this one, if the acknowledged tick or the image is greater, or a write failed.
fn next_guard(failed: bool, written: Guard, acked: u64, image: u64, seconds: u64) -> Option<Guard>
    ensures { result ≡ next_guard failed written acked image seconds }
{
    if failed || acked > written.acked || image > written.image {
        Some(Guard {
            world: written.world,
            starts: written.starts,
            acked: written.acked.max(acked),
            image: written.image.max(image),
            seconds,
        })
    } else {
        None
    }
}

/// The guard at a start that recovered this tick from an image of that one, after the guard that
/// was there. A world that is older than that one gets another number.
pub fn started_guard<R: Files<File = File> + Clock + AllocGlobal>(
    rt: &R,
    was: Option<Guard>,
    tick: u64,
    image: u64,
) -> Guard
    ensures { IsStarted was tick image result }
{
    match was {
        Some(was) if was.acked <= tick => Guard {
            world: was.world,
            starts: was.starts.saturating_add(1),
            acked: tick,
            image,
            seconds: seconds_now(rt),
        },
        _ => Guard {
            starts: 1,
            ..new_guard(rt, tick, image)
        },
    }
}
