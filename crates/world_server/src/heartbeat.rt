//! The signs of life of a server: the time of its guard's file.
ghost use Rattle.std.specs.Prelude.{◌≡◌};
ghost use Rattle.world_server.specs.Guarding.{goes_on};

use crate::runtime::LookUp;
use crate::standing::{is_overdue, passed_since};
use client_service::{Counts, Pulse};
use std::alloc::Global;
use std::sync::Arc;
use std::time::{Clock, Instant};

/// How many seconds lie between two signs of life.
const APART_SECONDS: u32 = 1;

/// Gives signs of life beside play, in the thread that looks at the server.
#[derive(Drop)]
pub struct Heartbeat {
    pulse: Arc<Pulse, Global>,
    /// How many batches no longer waited at the last sign.
    settled: u64,
    /// The time of the last sign.
    given_at: Option<Instant>,
}

impl Heartbeat {
    /// No sign yet of the server with these counts.
    pub fn new(pulse: Arc<Pulse, Global>) -> Self {
        Heartbeat {
            pulse,
            settled: 0,
            given_at: None,
        }
    }

    /// Touches the guard in a folder, at most once a second. It doesn't while batches wait, and
    /// none was settled since the last time.
    pub fn look<R: LookUp + Clock>(&mut self, rt: &R, folder: &str) {
        let passed = passed_since(rt, self.given_at);
        if self.given_at.is_some() && !is_overdue(Some(APART_SECONDS), passed) {
            return;
        }
        let counts = self.pulse.counts();
        if goes_on(self.settled, counts) {
            self.settled = counts.settled;
            self.given_at = Instant::now(rt).ok();
            let _ = rt.touch_guard(folder);
        }
    }
}

// True if no batch waits, or if more are settled than before.
fn goes_on(settled: u64, now: Counts) -> bool
    ensures { result ≡ goes_on settled now }
{
    now.waiting == 0 || now.settled > settled
}
