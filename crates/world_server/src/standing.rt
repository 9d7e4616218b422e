//! The state of a running server that its threads share: what is down, and whether it
//! is to be left.
ghost use Rattle.std.specs.Prelude.{◌≡◌, ◌↔◌, true, IsTrue};
ghost use Rattle.world_server.specs.Serving.{EndsServing, left_ending, IsOverdue};

use std::sync::atomic::{AtomicBool, AtomicU64, Ordering};
use std::time::{Clock, Duration, Instant};
use world_folder::{Ending, ServerEnding};

/// The parts of a server that are down.
#[derive(Clone, Copy, Debug, PartialEq, Eq)]
pub struct Losses {
    pub log: bool,
    pub images: bool,
    pub listener: bool,
}

/// The parts of a server that are down, as its threads report them.
#[derive(Drop)]
pub struct Standing {
    log: AtomicBool,
    images: AtomicBool,
    listener: AtomicBool,
    is_left: AtomicBool,
    /// The tick of the newest image that was opened.
    image: AtomicU64,
}

impl Standing {
    /// All is well, and no image was opened.
    pub fn new() -> Self {
        Standing {
            log: AtomicBool::new(false),
            images: AtomicBool::new(false),
            listener: AtomicBool::new(false),
            is_left: AtomicBool::new(false),
            image: AtomicU64::new(0),
        }
    }

    pub fn log_is_down(&self) {
        self.log.store(true, Ordering::SeqCst);
    }

    pub fn images_are_down(&self) {
        self.images.store(true, Ordering::SeqCst);
    }

    pub fn listener_is_down(&self) {
        self.listener.store(true, Ordering::SeqCst);
    }

    pub fn are_images_down(&self) -> bool {
        self.images.load(Ordering::SeqCst)
    }

    pub fn image_opened(&self, tick: u64) {
        self.image.store(tick, Ordering::SeqCst);
    }

    pub fn image(&self) -> u64 {
        self.image.load(Ordering::SeqCst)
    }

    /// The server is to be left.
    pub fn leave(&self) {
        self.is_left.store(true, Ordering::SeqCst);
    }

    pub fn is_left(&self) -> bool {
        self.is_left.load(Ordering::SeqCst)
    }

    pub fn losses(&self) -> Losses {
        Losses {
            log: self.log.load(Ordering::SeqCst),
            images: self.are_images_down(),
            listener: self.listener.load(Ordering::SeqCst),
        }
    }
}

/// How the program ends if its server is left: by its log, else by its images, else by its
/// listener. If none is down it ends well: what it answered is durable, as after its own end.
pub fn ending_of_left(lost: Losses) -> Ending
    ensures left { result ≡ left_ending lost }
    ensures ends { EndsServing result }
{
    if lost.log {
        return Ending::Stopped(ServerEnding::LogDown);
    }
    if lost.images {
        return Ending::Stopped(ServerEnding::ImagesDown);
    }
    if lost.listener {
        return Ending::Stopped(ServerEnding::ListenerFailed);
    }
    Ending::Ran
}

/// How much time has passed since then, if that time is known.
pub fn passed_since<R: Clock>(rt: &R, since: Option<Instant>) -> Option<Duration> {
    since?.elapsed(rt).ok()
}

/// True if `seconds` have passed. Without a number or a known time they never have.
pub fn is_overdue(seconds: Option<u32>, passed: Option<Duration>) -> bool
    ensures { IsTrue result ↔ IsOverdue seconds passed }
{
    match (seconds, passed) {
        (Some(seconds), Some(passed)) => passed >= Duration::from_secs(u64::from(seconds)),
        _ => false,
    }
}

/// True if a server is left for its images: they are down, for as long as they may be.
pub fn is_left_for_images(images_down: bool, seconds: Option<u32>, passed: Option<Duration>) -> bool
    ensures { IsTrue result ↔ ((images_down ≡ true) × IsOverdue seconds passed) }
{
    images_down && is_overdue(seconds, passed)
}
