//! The counts of a running server for its operator.

use std::sync::atomic::{AtomicU64, Ordering};

/// The counts of a running server. Each thread counts by itself, and none waits for another.
#[derive(Drop)]
pub struct Pulse {
    sessions: AtomicU64,
    asked: AtomicU64,
    settled: AtomicU64,
    answered: AtomicU64,
    tick: AtomicU64,
    since: AtomicU64,
    acked: AtomicU64,
    image: AtomicU64,
}

/// The counts at about one time: each is read by itself.
#[derive(Clone, Copy, Debug, PartialEq, Eq)]
pub struct Counts {
    /// How many sessions run.
    pub sessions: u64,
    /// How many batches wait for their answer.
    pub waiting: u64,
    /// How many no longer wait: they were answered by a tick, or by a fault.
    pub settled: u64,
    /// How many batches were answered by a tick.
    pub answered: u64,
    /// How many ticks have ended. The last ones may not be durable yet.
    pub tick: u64,
    /// How many of them have ended since the last mark or start.
    pub since: u64,
    /// The greatest tick that was answered or recovered.
    pub acked: u64,
    /// The tick of the newest image.
    pub image: u64,
}

impl Pulse {
    /// The counts of a server that recovered this tick from an image of that one.
    pub fn new(acked: u64, image: u64) -> Self {
        Pulse {
            sessions: AtomicU64::new(0),
            asked: AtomicU64::new(0),
            settled: AtomicU64::new(0),
            answered: AtomicU64::new(0),
            tick: AtomicU64::new(acked),
            since: AtomicU64::new(0),
            acked: AtomicU64::new(acked),
            image: AtomicU64::new(image),
        }
    }

    pub fn session_began(&self) {
        self.sessions.fetch_add(1, Ordering::SeqCst);
    }

    pub fn session_ended(&self) {
        self.sessions.fetch_sub(1, Ordering::SeqCst);
    }

    /// A session sent a batch.
    pub fn asked(&self) {
        self.asked.fetch_add(1, Ordering::SeqCst);
    }

    /// A session was answered: by a tick, or by a fault.
    pub fn answered(&self, tick: Option<u64>) {
        self.settled.fetch_add(1, Ordering::SeqCst);
        if let Some(tick) = tick {
            self.answered.fetch_add(1, Ordering::SeqCst);
            raise(&self.acked, tick);
        }
    }

    /// Notes how many ticks have ended in all, and since the last mark or start.
    pub fn ticks_ended(&self, ticks: u64, since: u64) {
        self.tick.store(ticks, Ordering::SeqCst);
        self.since.store(since, Ordering::SeqCst);
    }

    /// The image of this tick is open.
    pub fn image_opened(&self, tick: u64) {
        raise(&self.image, tick);
    }

    pub fn counts(&self) -> Counts {
        let settled = self.settled.load(Ordering::SeqCst);
        let asked = self.asked.load(Ordering::SeqCst);
        Counts {
            sessions: self.sessions.load(Ordering::SeqCst),
            waiting: asked.saturating_sub(settled),
            settled,
            answered: self.answered.load(Ordering::SeqCst),
            tick: self.tick.load(Ordering::SeqCst),
            since: self.since.load(Ordering::SeqCst),
            acked: self.acked.load(Ordering::SeqCst),
            image: self.image.load(Ordering::SeqCst),
        }
    }
}

// Stores a tick that is greater than the one that is there.
fn raise(greatest: &AtomicU64, tick: u64) {
    for _ in 0..u64::MAX {
        let held = greatest.load(Ordering::SeqCst);
        if tick <= held {
            return;
        }
        let stored = greatest.compare_exchange(held, tick, Ordering::SeqCst, Ordering::SeqCst);
        if stored.is_ok() {
            return;
        }
    }
}
