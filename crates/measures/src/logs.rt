ghost use Rattle.std.specs.Prelude.{◌≡◌, ◌+◌, IfOk, OnOk};
ghost use Rattle.action_log.specs.declared.format.TheConstants.{SEGMENT_TICKS};

use crate::counted::{Calls, File, empty_file};
use crate::ticks::busy_tick;
use action_log::{
    GROUP_TICKS, LogAnswer, LogKeeper, Record, SEGMENT_TICKS, log_outcomes, log_queues,
    tick_refusal,
};
use circular_buffer::HeapCircularBuffer;
use std::alloc::Global;
use std::marker::Model;
use world_actions::Refusal;
use world_ticks::Tick;

/// The groups of a full segment, each of the most ticks.
pub const GROUPS: usize = SEGMENT_TICKS / GROUP_TICKS;

/// More bytes than a full segment of such ticks has, 2^22.
const FILE_BYTES: u64 = 4_194_304;

/// A log that is written: its keeper, its queue, and its two files. `since` ticks are queued or
/// written above `base`.
#[derive(Drop)]
pub struct Log {
    keeper: LogKeeper,
    queue: HeapCircularBuffer<Record>,
    log_a: File,
    log_b: File,
    base: u64,
    since: u64,
}

// Contracts see how many ticks are above the base.
impl Model for Log {
    ghost use Rattle.std.specs.Prelude.{◌≡◌, ◌+◌, ◌≤◌, ℕ};
    ghost use Rattle.world_ticks.specs.declared.tick.TheConstants.{TICK_MAX};
    ghost use Rattle.action_log.specs.Progress.{QueueFollows, end_of};
    ghost use Rattle.action_log.specs.Files.{FitsFiles};

    ghost Value = { ℕ };

    ghost view = { λ log. log.since };

    ghost invariant = { λ log. QueueFollows log.keeper log.queue.items
        × (end_of log.keeper log.queue.items ≡ record { base = log.base; count = log.since })
        × (log.base + log.since ≤ TICK_MAX)
        × FitsFiles log.keeper log.log_a.inner.content log.log_b.inner.content };
}

impl Log {
    /// The log of a new world, whose start is still to be made.
    pub fn new(alloc: Global) -> Result<Self, Refusal>
        ensures { IfOk result (λ log. log ≡ 0) }
    {
        log_queues();
        log_outcomes::<File>();
        Ok(Log {
            keeper: LogKeeper::new(alloc, 0, [false, false])?,
            queue: HeapCircularBuffer::with_capacity(alloc, GROUP_TICKS)?,
            log_a: empty_file(alloc, FILE_BYTES)?,
            log_b: empty_file(alloc, FILE_BYTES)?,
            base: 0,
            since: 0,
        })
    }

    // Queues a tick. There is room for a group.
    fn push(&mut self, tick: Tick) -> Result<(), Refusal>
        ensures { OnOk result (self.new ≡ self.old + 1) }
    {
        log_queues();
        let ended = self.base + self.since;
        if let Some(refusal) = tick_refusal(self.keeper.is_down(), ended, self.since) {
            return Err(refusal);
        }
        if self.queue.try_push_back(Record::Tick(tick)).is_err() {
            return Err(Refusal::QueueFull);
        }
        self.since += 1;
        Ok(())
    }

    /// Queues a group of so many ticks.
    pub fn push_group(&mut self, alloc: Global, ticks: usize) -> Result<(), Refusal>
        ensures { OnOk result (self.new ≡ self.old + ticks) }
    {
        for _ in 0..ticks {
            let number = self.base + self.since;
            self.push(busy_tick(alloc, number)?)?;
        }
        Ok(())
    }

    /// Queues a switch.
    pub fn switch(&mut self) -> Result<(), Refusal>
        ensures { OnOk result (self.new ≡ 0) }
    {
        log_queues();
        let tick = self.base + self.since;
        if self.queue.try_push_back(Record::Switch(tick)).is_err() {
            return Err(Refusal::QueueFull);
        }
        self.base = tick;
        self.since = 0;
        Ok(())
    }

    /// Writes all queued records.
    pub fn write(&mut self) -> Result<(), Refusal>
        ensures { self.new ≡ self.old }
    {
        for _ in 0..self.keeper.work(&self.queue) {
            match self.step() {
                LogAnswer::Idle => break,
                LogAnswer::Down => return Err(Refusal::LogDown),
                LogAnswer::Working | LogAnswer::Acked(_) => {}
            }
        }
        Ok(())
    }

    /// Makes the start, and writes a full segment in groups of the most ticks.
    pub fn write_segment(&mut self, alloc: Global) -> Result<(), Refusal>
        ensures { OnOk result (self.new ≡ self.old + SEGMENT_TICKS) }
    {
        self.write()?;
        for _ in 0..GROUPS {
            self.push_group(alloc, GROUP_TICKS)?;
            self.write()?;
        }
        Ok(())
    }

    fn step(&mut self) -> LogAnswer
        ensures { self.new ≡ self.old }
    {
        self.keeper
            .step(&mut self.queue, &mut self.log_a, &mut self.log_b)
    }

    /// Returns the calls on both files since it was last asked.
    pub fn take_calls(&mut self) -> Calls
        ensures { self.new ≡ self.old }
    {
        let calls = self.log_a.take_calls();
        calls.both(self.log_b.take_calls())
    }

    /// The bytes of log.a, which has the first segment.
    pub fn first_segment(&self) -> &[u8] {
        self.log_a.inner().now()
    }
}
