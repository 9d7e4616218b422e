use crate::wrong::{Rule, Wrong, expect, hold};
use plain_moves::PlainAnswer;
use std::alloc::Global;
use std::collections::VecDeque;
use world_core::Fate;

/// The most records that may wait.
const RECORDS: usize = 64;

/// The most ticks that one group takes.
const GROUP: u32 = 32;

/// The steps of a group, and those of a start or a switch if nothing has to be closed.
const STEPS: u32 = 4;

/// The steps that close a segment.
const CLOSING: u32 = 2;

/// A record that waits for the log.
#[derive(Clone, Copy, PartialEq, Eq)]
enum Queued {
    Tick,
    Switch(u64),
}

/// The job of the log.
#[derive(Clone, Copy, PartialEq, Eq)]
enum Job {
    // The start, of which so many steps are done.
    Start { done: u32 },
    // Nothing.
    Rest,
    // A group, with so many steps left.
    Group { left: u32 },
    // A switch, with so many steps left.
    Switch { left: u32 },
}

/// The state of the log, only by moves and answers.
#[derive(Drop)]
pub struct LogModel {
    queue: VecDeque<Queued>,
    job: Job,
    // The last tick that was taken from the queue.
    taken: u64,
    acknowledged: u64,
    has_switched: bool,
    down: bool,
}

impl LogModel {
    /// The log at the beginning of a start at this tick.
    pub fn new(alloc: Global, tick: u64) -> Self {
        LogModel {
            queue: VecDeque::new(alloc),
            job: Job::Start { done: 0 },
            taken: tick,
            acknowledged: tick,
            has_switched: false,
            down: false,
        }
    }

    /// True if the start has not ended.
    pub fn is_starting(&self) -> bool {
        matches!(self.job, Job::Start { .. })
    }

    /// True if a call failed.
    pub fn is_down(&self) -> bool {
        self.down
    }

    /// True if no more records may wait.
    pub fn is_full(&self) -> bool {
        self.queue.len() >= RECORDS
    }

    /// The tick of the first switch that waits.
    pub fn next_switch(&self) -> Option<u64> {
        for queued in &self.queue {
            if let Queued::Switch(tick) = queued {
                return Some(*tick);
            }
        }
        None
    }

    /// The greatest tick of a receipt or of an open image, or the start's tick before
    /// the first one.
    pub fn acknowledged(&self) -> u64 {
        self.acknowledged
    }

    /// Queues an ended tick.
    pub fn queue_tick(&mut self) -> Result<(), Wrong> {
        Ok(self.queue.push_back(Queued::Tick)?)
    }

    /// Queues the switch of a mark.
    pub fn queue_switch(&mut self, tick: u64) -> Result<(), Wrong> {
        Ok(self.queue.push_back(Queued::Switch(tick))?)
    }

    /// Counts the ticks up to this one as acknowledged.
    pub fn acknowledge(&mut self, tick: u64) {
        self.acknowledged = self.acknowledged.max(tick);
    }

    /// Judges the answer to a cover of an open image's tick, and follows it. While no job is in
    /// work, the records before the switch at that tick are dropped.
    pub fn cover(&mut self, tick: u64, given: PlainAnswer) -> Result<(), Wrong> {
        let before = self.taken;
        let count = self.before_switch(tick);
        for _ in 0..count {
            if self.queue.pop_front() == Some(Queued::Tick) {
                self.taken = self.taken.saturating_add(1);
            }
        }
        if self.taken == before {
            return expect(PlainAnswer::LogIdle, given);
        }
        self.acknowledge(self.taken);
        hold(self.taken == tick, Rule::CoversItsTick)?;
        expect(PlainAnswer::LogAcked(tick), given)
    }

    // How many records wait before the switch at this tick. The number is 0 if a job is in work or
    // no such switch waits.
    fn before_switch(&self, tick: u64) -> usize {
        if self.job != Job::Rest {
            return 0;
        }
        let mut count = 0usize;
        for queued in &self.queue {
            if *queued == Queued::Switch(tick) {
                return count;
            }
            count = count.saturating_add(1);
        }
        0
    }

    /// Judges the answer to a step, and follows it. `waits` is true while the start's image is not
    /// open yet. `starting` is true if the start isn't over after the step.
    pub fn step(
        &mut self,
        fate: Fate,
        waits: bool,
        given: PlainAnswer,
        starting: bool,
    ) -> Result<(), Wrong> {
        expect(self.answer(fate, waits), given)?;
        match given {
            PlainAnswer::LogWorking | PlainAnswer::LogAcked(_) => self.advance(starting),
            PlainAnswer::LogDown => {
                self.down = true;
                Ok(())
            }
            _ => Ok(()),
        }
    }

    // The right answer to a step. Each step that has work makes a call.
    fn answer(&self, fate: Fate, waits: bool) -> PlainAnswer {
        let rests = self.job == Job::Rest && self.queue.is_empty();
        if waits || (rests && !self.down) {
            PlainAnswer::LogIdle
        } else if self.down || fate == Fate::Failed {
            PlainAnswer::LogDown
        } else if self.job == (Job::Group { left: 1 }) {
            PlainAnswer::LogAcked(self.taken)
        } else {
            PlainAnswer::LogWorking
        }
    }

    // Follows a step that did its work.
    fn advance(&mut self, starting: bool) -> Result<(), Wrong> {
        match self.job {
            Job::Start { done } => return self.advance_start(done.saturating_add(1), starting),
            Job::Rest => self.take(),
            Job::Group { left: 1 } => {
                self.acknowledge(self.taken);
                self.job = Job::Rest;
            }
            Job::Group { left } => self.job = Job::Group {
                left: left.saturating_sub(1),
            },
            Job::Switch { left: 1 } => {
                self.has_switched = true;
                self.job = Job::Rest;
            }
            Job::Switch { left } => self.job = Job::Switch {
                left: left.saturating_sub(1),
            },
        }
        Ok(())
    }

    // Follows a step of a start. A start closes no segment, one or both.
    fn advance_start(&mut self, done: u32, starting: bool) -> Result<(), Wrong> {
        if starting {
            self.job = Job::Start { done };
            return hold(done < STEPS + 2 * CLOSING, Rule::StartSteps);
        }
        self.job = Job::Rest;
        let whole = done == STEPS || done == STEPS + CLOSING || done == STEPS + 2 * CLOSING;
        hold(whole, Rule::StartSteps)
    }

    // Makes the first step of a group or of a switch. The first switch after a start finds the
    // other segment shut. Each later one has to close it.
    fn take(&mut self) {
        if let Some(Queued::Switch(_)) = self.queue.front() {
            self.queue.pop_front();
            let closing = if self.has_switched { CLOSING } else { 0 };
            self.job = Job::Switch {
                left: STEPS - 1 + closing,
            };
            return;
        }
        for _ in 0..GROUP {
            if self.queue.front() != Some(&Queued::Tick) {
                break;
            }
            self.queue.pop_front();
            self.taken = self.taken.saturating_add(1);
        }
        self.job = Job::Group { left: STEPS - 1 };
    }
}
