use crate::outcome::Outcome;
use std::fmt;

/// Counts of outcomes, of wrong answers of the keepers, and of failed calls.
#[derive(Clone, Copy, Debug, PartialEq, Eq)]
pub struct Tally {
    /// How many outcomes have nothing.
    pub closed: u32,
    /// How many outcomes have the state before.
    pub before: u32,
    /// How many outcomes have the state that is being written.
    pub whole: u32,
    /// How many outcomes have none of these.
    pub wrong: u32,
    /// How many answers of keepers are wrong.
    pub wrong_answers: u32,
    /// How many calls were made to fail.
    pub failed: u32,
}

impl Tally {
    ghost use Rattle.std.specs.Prelude.{◌≡◌, ◌+◌, ◌^◌, ◌<◌, ◌↔◌, true, false, IsTrue};
    ghost use Rattle.trial_crashes.specs.Tally.{one_more, counted, outcomes};

    /// Counts that are all 0.
    pub fn new() -> Self
        ensures { outcomes result ≡ 0 }
    {
        Tally {
            closed: 0,
            before: 0,
            whole: 0,
            wrong: 0,
            wrong_answers: 0,
            failed: 0,
        }
    }

    /// Counts an outcome.
    pub fn outcome(&mut self, outcome: Outcome)
        ensures counted { self.new ≡ counted outcome self.old }
        ensures one { outcomes self.old + 1 < 2 ^ 32 → outcomes self.new ≡ outcomes self.old + 1 }
    {
        match outcome {
            Outcome::Closed => self.closed = self.closed.saturating_add(1),
            Outcome::Before => self.before = self.before.saturating_add(1),
            Outcome::Whole => self.whole = self.whole.saturating_add(1),
            Outcome::Wrong => self.wrong = self.wrong.saturating_add(1),
        }
    }

    /// Counts a keeper's answer if it is wrong.
    pub fn answer(&mut self, is_right: bool)
        ensures right { is_right ≡ true → self.new ≡ self.old }
        ensures wrong { is_right ≡ false
            → self.new.wrong_answers ≡ one_more self.old.wrong_answers }
        ensures outcomes { outcomes self.new ≡ outcomes self.old }
    {
        if !is_right {
            self.wrong_answers = self.wrong_answers.saturating_add(1);
        }
    }

    /// Counts a call that was made to fail.
    pub fn failure(&mut self)
        ensures failed { self.new.failed ≡ one_more self.old.failed }
        ensures outcomes { outcomes self.new ≡ outcomes self.old }
    {
        self.failed = self.failed.saturating_add(1);
    }
    /// True if nothing was wrong.
    pub fn passes(&self) -> bool
        ensures { IsTrue result ↔ ((self.now.wrong ≡ 0) × (self.now.wrong_answers ≡ 0)) }
    {
        self.wrong == 0 && self.wrong_answers == 0
    }
}

impl fmt::Display for Tally {
    fn fmt<W: fmt::Write>(&self, f: &mut fmt::Formatter<W>) -> fmt::Result {
        write!(
            f,
            "{} calls failed in turn, {} answers wrong; of outcomes {} closed, {} as before, {} whole, {} wrong",
            self.failed, self.wrong_answers, self.closed, self.before, self.whole, self.wrong
        )
    }
}
