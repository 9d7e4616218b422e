//! How often a thread spins for what it waits for before it sleeps.
ghost use Rattle.std.specs.Prelude.{◌≡◌};
ghost use Rattle.workers.specs.Spins.{session_spins, worker_spins, misses_after};

use std::alloc::{AllocError, Global};
use std::sync::Arc;
use std::sync::atomic::{AtomicU64, Ordering};
use std::thread::{self, Threads};

/// How often a session spins for its post while a processor may be idle.
const SESSION_SPINS: u32 = 100;

/// How often a worker spins for work while many sessions wait, so that none of them has to wake it.
const WORKER_SPINS: u32 = 200;

/// How often a worker spins while few sessions wait: at most half as many as there are processors.
/// These spins take some 0.3 ms, within which a client that was just answered mostly sends its next
/// batch.
const LONG_SPINS: u32 = 1_000;

/// The fewest processors with one for each thread on a batch's way: client, session and workers.
const PROCESSORS_LEAST: u64 = 4;

/// A worker stops spinning after this number of waits in a row that ended in sleep.
const MISSES_MOST: u32 = 4;

/// How many waits a worker that has stopped spinning leaves out before it tries again.
const WAITS_BETWEEN: u32 = 16;

/// How many sessions wait for their posts, and how many processors there are. Its clones
/// share the count.
#[derive(Drop)]
pub struct Spins {
    waiting: Arc<AtomicU64, Global>,
    processors: u64,
}

/// How often one worker spins, which depends on how its last waits ended. If `spins` is `None`, it
/// waits as its channel does.
#[derive(Drop)]
pub(crate) struct WorkerSpins {
    spins: Option<Spins>,
    misses: u32,
}

/// A session that counts as waiting until this is dropped.
pub struct Counted<'a> {
    waiting: &'a AtomicU64,
}

impl Spins {
    /// The spins on a machine with this number of processors. No session waits yet.
    pub fn new(alloc: Global, processors: u64) -> Result<Self, AllocError> {
        Ok(Spins {
            waiting: Arc::new(alloc, AtomicU64::new(0))?,
            processors,
        })
    }

    /// The spins on a machine with the processors that this program may use: 1 if the system
    /// doesn't say how many.
    pub fn on_this_machine<R: Threads>(rt: &R, alloc: Global) -> Result<Self, AllocError> {
        let processors = match thread::available_parallelism(rt) {
            Ok(count) => count.get() as u64,
            Err(_) => 1,
        };
        Spins::new(alloc, processors)
    }

    /// Counts a session as waiting.
    pub fn enter(&self) -> Counted<'_> {
        self.waiting.fetch_add(1, Ordering::SeqCst);
        Counted {
            waiting: &self.waiting,
        }
    }

    /// How often a session spins for its post before it sleeps.
    pub fn of_session(&self) -> u32 {
        session_spins(self.waiting(), self.processors)
    }

    // How many sessions wait for their posts.
    fn waiting(&self) -> u64 {
        self.waiting.load(Ordering::SeqCst)
    }
}

impl WorkerSpins {
    /// A worker that never spins.
    pub(crate) fn none() -> Self
        ensures { result.misses ≡ 0 }
    {
        WorkerSpins {
            spins: None,
            misses: 0,
        }
    }

    /// A worker that hasn't waited yet.
    pub(crate) fn by(spins: Spins) -> Self
        ensures { result.misses ≡ 0 }
    {
        WorkerSpins {
            spins: Some(spins),
            misses: 0,
        }
    }

    /// How often the worker spins for work before it sleeps. Other threads run between its spins.
    /// It sleeps at once if this has become 0.
    pub(crate) fn count(&self) -> u32 {
        match &self.spins {
            Some(spins) => worker_spins(spins.waiting(), spins.processors, self.misses),
            None => 0,
        }
    }

    /// A spin found work.
    pub(crate) fn found(&mut self)
        ensures { self.new ≡ record self.old { misses = 0 } }
    {
        self.misses = 0;
    }

    /// No spin found work, so the worker sleeps.
    pub(crate) fn missed(&mut self)
        ensures { self.new ≡ record self.old { misses = misses_after self.old.misses } }
    {
        self.misses = misses_after(self.misses);
    }
}

impl Clone for Spins {
    fn clone(&self) -> Result<Self, AllocError> {
        Ok(Spins {
            waiting: Arc::try_clone(&self.waiting)?,
            processors: self.processors,
        })
    }
}

impl Drop for Counted<'_> {
    fn drop(self) {
        let Counted { waiting } = self;
        waiting.fetch_sub(1, Ordering::SeqCst);
    }
}

// How often a session spins while this number of sessions waits.
fn session_spins(waiting: u64, processors: u64) -> u32
    ensures { result ≡ session_spins waiting processors }
{
    if waiting < processors {
        SESSION_SPINS
    } else {
        0
    }
}

// How often a worker spins while this number of sessions waits, after this number of misses.
fn worker_spins(waiting: u64, processors: u64, misses: u32) -> u32
    ensures { result ≡ worker_spins waiting processors misses }
{
    if processors < waiting.saturating_sub(processors) {
        WORKER_SPINS
    } else if PROCESSORS_LEAST <= processors && waiting <= processors / 2 && misses < MISSES_MOST {
        LONG_SPINS
    } else {
        0
    }
}

// The misses that count after one more. The last miss before a new try counts as few.
fn misses_after(misses: u32) -> u32
    ensures { result ≡ misses_after misses }
{
    if misses < MISSES_MOST + WAITS_BETWEEN - 1 {
        misses + 1
    } else {
        MISSES_MOST - 1
    }
}
