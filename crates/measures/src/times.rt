use std::alloc::{AllocError, Global};
use trial_kit::of_thousandths;

/// The times of one operation, measured several times.
#[derive(Drop)]
pub struct Times {
    list: Vec<u64>,
}

impl Times {
    ghost use Rattle.std.specs.Prelude.{◌≤◌};

    /// A list without a time.
    pub fn new(alloc: Global) -> Self {
        Times {
            list: Vec::new(alloc),
        }
    }

    /// Adds a time.
    pub fn push(&mut self, time: u64) -> Result<(), AllocError> {
        Ok(self.list.push(time)?)
    }

    /// The time that so many of a hundred don't exceed, and 0 if there is none.
    pub fn percentile(&mut self, percent: u32) -> u64
        requires { (1 ≤ percent) × (percent ≤ 100) }
    {
        self.list.sort_unstable();
        of_thousandths(&self.list, percent * 10)
    }

    /// The time in the middle.
    pub fn median(&mut self) -> u64 {
        self.percentile(50)
    }
}

/// The picoseconds of each of so many things, which together took so many nanoseconds.
pub fn picoseconds(nanoseconds: u64, things: u64) -> u64 {
    nanoseconds
        .saturating_mul(1000)
        .checked_div(things)
        .unwrap_or(0)
}
