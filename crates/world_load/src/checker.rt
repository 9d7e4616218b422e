use crate::answer::{accepted, tick_of};
use std::alloc::{AllocError, Global};
use std::marker::Model;

/// The wanted answers of a connection, and the last tick that was answered.
#[derive(Drop)]
pub struct Checker {
    end: Vec<u8>,
    last: u64,
}

impl Model for Checker {
    ghost use Rattle.world_load.specs.Answer.{Checking};

    ghost Value = { Checking };

    ghost view = { λ checker. record { end = checker.end.items; last = checker.last } };
}

impl Checker {
    ghost use Rattle.std.specs.Prelude.{◌≡◌, ◌≢◌, ◌<◌, ◌^◌, ℕ, false, IsTrue, IfOk};
    ghost use Rattle.world_load.specs.Answer.{all_accepted, answer_with};

    /// For batches of this number of lines, none of which is answered yet.
    pub fn new(alloc: Global, lines: u32) -> Result<Self, AllocError>
        ensures { IfOk result (λ checker. checker ≡ record { end = all_accepted lines; last = 0 }) }
    {
        Ok(Checker {
            end: accepted(alloc, lines)?,
            last: 0,
        })
    }

    /// The last tick that was answered.
    pub fn last(&self) -> u64
        ensures { result ≡ self.now.last }
    {
        self.last
    }

    /// True if the next batch may be answered so: all its lines are accepted, and its tick is
    /// after the last one.
    pub fn hear(&mut self, answer: &[u8]) -> bool
        ensures right { IsTrue result → (answer.now ≡ answer_with self.old.end self.new.last)
            × (self.old.last < self.new.last) × (self.new.end ≡ self.old.end) }
        ensures wrong { result ≡ false → (tick : ℕ) → self.old.last < tick → tick < 2 ^ 64
            → answer.now ≢ answer_with self.old.end tick }
        ensures same { result ≡ false → self.new ≡ self.old }
    {
        match tick_of(answer, &self.end) {
            Some(tick) if tick > self.last => {
                self.last = tick;
                true
            }
            _ => false,
        }
    }
}
