use crate::counts::Counts;
use std::fmt;

/// How many ticks recovery may find: 0 to 3.
const TICKS: usize = 4;

/// Counts of the stops, crashes and failures of a run, and of the answers that were judged.
#[derive(Drop)]
pub struct StopTally {
    /// How many prefixes of a run were stopped by crashes.
    pub stops: u64,
    /// How many crashes came, except those in starts.
    pub crashes: u64,
    pub crashes_in_starts: u64,
    pub images_failed: u64,
    pub log_failed: u64,
    /// How often recovery found each tick.
    pub stood: Counts<TICKS>,
    /// How many answers were judged, and how many of them were wrong.
    pub judged: u64,
    pub wrong: u64,
}

impl StopTally {
    ghost use Rattle.std.specs.Prelude.{◌≡◌, ◌<◌, IsTrue};

    /// Counts that are all 0.
    pub fn new() -> Self {
        StopTally {
            stops: 0,
            crashes: 0,
            crashes_in_starts: 0,
            images_failed: 0,
            log_failed: 0,
            stood: Counts::new(),
            judged: 0,
            wrong: 0,
        }
    }

    /// Counts one more stopped prefix.
    pub fn stop(&mut self) {
        self.stops = self.stops.saturating_add(1);
    }

    /// Counts a crash. `stands` is the tick that recovery found, or `None` if it found none that it
    /// may find, which is wrong.
    pub fn crash(&mut self, stands: Option<u64>) {
        self.crashes = self.crashes.saturating_add(1);
        self.stand(stands);
    }

    /// Does the same for a crash in a start.
    pub fn crash_in_start(&mut self, stands: Option<u64>) {
        self.crashes_in_starts = self.crashes_in_starts.saturating_add(1);
        self.stand(stands);
    }

    fn stand(&mut self, stands: Option<u64>) {
        match stands {
            Some(tick) => self.stood.count(tick as usize),
            None => self.judge(false),
        }
    }

    /// Counts a run in which a call of the images failed.
    pub fn images_failed(&mut self) {
        self.images_failed = self.images_failed.saturating_add(1);
    }

    /// Counts a run in which a call of the log failed.
    pub fn log_failed(&mut self) {
        self.log_failed = self.log_failed.saturating_add(1);
    }

    /// Counts one more judged answer, and a wrong one as wrong.
    pub fn judge(&mut self, is_right: bool) {
        self.judged = self.judged.saturating_add(1);
        if !is_right {
            self.wrong = self.wrong.saturating_add(1);
        }
    }

    /// True if nothing was wrong, all was tried, and recovery found each tick.
    pub fn passes(&self) -> bool
        ensures { IsTrue result
            → (self.now.wrong ≡ 0) × (0 < self.now.stops) × (0 < self.now.crashes_in_starts)
            × (0 < self.now.images_failed) × (0 < self.now.log_failed) × (0 < self.now.judged) }
    {
        let all_tried = self.stops > 0
            && self.crashes_in_starts > 0
            && self.images_failed > 0
            && self.log_failed > 0
            && self.judged > 0;
        all_tried && self.wrong == 0 && self.stood.each_came()
    }
}

impl fmt::Display for StopTally {
    fn fmt<W: fmt::Write>(&self, f: &mut fmt::Formatter<W>) -> fmt::Result {
        write!(
            f,
            "{} stops, {} crashes, {} in starts; runs with a failed call: {} of images, {} of the log",
            self.stops, self.crashes, self.crashes_in_starts, self.images_failed, self.log_failed
        )?;
        write!(
            f,
            "; stood 0: {}, 1: {}, 2: {}, 3: {}; {} answers judged, {} wrong",
            self.stood.of(0),
            self.stood.of(1),
            self.stood.of(2),
            self.stood.of(3),
            self.judged,
            self.wrong
        )
    }
}
