ghost use Rattle.std.specs.Prelude.{◌≡◌, ◌≢◌, ◌+◌, ◌*◌, ◌/◌, ◌^◌, ◌<◌, ◌≤◌, ◌++◌, ◌∷◌, [], length};
ghost use Rattle.std.specs.Prelude.{IfOk, OnOk};
ghost use Rattle.action_log.specs.Queue.{QueueFits};
ghost use Rattle.trial_crashes.specs.declared.crash.TheConstants.{KINDS};
ghost use Rattle.trial_crashes.specs.Tally.{outcomes};

use crate::crash::{CRASHES, empty_file};
use crate::outcome::Outcome;
use crate::tally::Tally;
use action_log::{LogAnswer, LogKeeper, Record, log_outcomes};
use circular_buffer::HeapCircularBuffer;
use disk_model::{Fused, ModelFile};
use recovery::{Recovered, recover};
use std::alloc::Global;
use std::marker::Model;
use world_actions::{Action, Refusal};
use world_ticks::Tick;

/// The ticks before the switch: a group of 32, and one of 1.
const FIRST_TICKS: u64 = 33;

/// The ticks in all: one after the switch.
const TICKS: u64 = 34;

/// More steps than the trial has.
const STEPS: u32 = 100;

/// A world of one cell, 0, at tick 0, as an image file.
const IMAGE: [u8; 25] = [
    1, 1, 0, 0, 0, 0, 0, 0, 0, 0, 0, 0, 0, 0, 0, 0, 0, 0, 0, 0, 0, 0, 0, 0, 0,
];

/// Runs a start, two groups, a switch and a group. After each step it recovers from what crashes of
/// each kind leave. Then it lets the call of each step fail in turn, and recovers again.
pub fn try_log(alloc: Global) -> Result<Tally, Refusal> {
    let mut tally = Tally::new();
    let steps = run(alloc, None, &mut tally)?;
    for failing in 1..=steps {
        run(alloc, Some(failing), &mut tally)?;
    }
    Ok(tally)
}

// Runs to the end, or up to the step whose call fails, and counts the steps that made a call.
fn run(alloc: Global, failing: Option<u32>, tally: &mut Tally) -> Result<u32, Refusal> {
    let mut trial = LogTrial::new(alloc, records(alloc)?)?;
    run_steps(&mut trial, failing, tally)
}

fn run_steps(
    trial: &mut LogTrial,
    failing: Option<u32>,
    tally: &mut Tally,
) -> Result<u32, Refusal> {
    for step in 0..STEPS {
        if failing == Some(step.saturating_add(1)) {
            trial.fail(tally)?;
            return Ok(step);
        }
        let answer = trial.step();
        trial.check(tally)?;
        if answer == LogAnswer::Idle {
            tally.answer(trial.acked == TICKS);
            return Ok(step);
        }
    }
    Ok(STEPS)
}

/// A keeper with its queue and its two files, and the tick of its greatest receipt.
#[derive(Drop)]
struct LogTrial {
    alloc: Global,
    keeper: LogKeeper,
    queue: HeapCircularBuffer<Record>,
    log_a: Fused<ModelFile>,
    log_b: Fused<ModelFile>,
    acked: u64,
}

// Contracts see the tick of the greatest receipt.
impl Model for LogTrial {
    ghost use Rattle.std.specs.Prelude.{ℕ};
    ghost use Rattle.disk_model.specs.CrashOutcome.{IsCrashOutcome};
    ghost use Rattle.action_log.specs.Logs.{LogPlace};
    ghost use Rattle.action_log.specs.Progress.{QueueFollows};
    ghost use Rattle.action_log.specs.Stands.{Stands};

    ghost Value = { ℕ };

    ghost view = { λ trial. trial.acked };

    ghost invariant = { λ trial. QueueFollows trial.keeper trial.queue.items
        × ((place : LogPlace)
        × Stands trial.keeper trial.log_a.inner.content trial.log_b.inner.content
        (IsCrashOutcome trial.log_a.inner) (IsCrashOutcome trial.log_b.inner) place) };
}

impl LogTrial {
    // Two empty files, and these records.
    fn new(alloc: Global, queue: HeapCircularBuffer<Record>) -> Result<Self, Refusal>
        requires { QueueFits 0 0 queue.items }
    {
        log_outcomes::<Fused<ModelFile>>();
        Ok(LogTrial {
            alloc,
            keeper: LogKeeper::new(alloc, 0, [false, false])?,
            queue,
            log_a: empty_file(alloc)?,
            log_b: empty_file(alloc)?,
            acked: 0,
        })
    }

    fn step(&mut self) -> LogAnswer {
        log_outcomes::<Fused<ModelFile>>();
        let answer = self
            .keeper
            .step(&mut self.queue, &mut self.log_a, &mut self.log_b);
        if let LogAnswer::Acked(receipt) = answer {
            self.acked = receipt.tick();
        }
        answer
    }

    // Lets the call of the next step fail. Then this step and the next one must answer Down.
    fn fail(&mut self, tally: &mut Tally) -> Result<(), Refusal> {
        self.log_a.arm(1);
        self.log_b.arm(1);
        tally.failure();
        tally.answer(self.step() == LogAnswer::Down);
        self.check(tally)?;
        tally.answer(self.step() == LogAnswer::Down);
        self.check(tally)
    }

    // Recovers from what crashes of each kind leave of both files.
    fn check(&self, tally: &mut Tally) -> Result<(), Refusal>
        ensures { OnOk result (outcomes tally.old + KINDS * KINDS < 2 ^ 32
            → outcomes tally.new ≡ outcomes tally.old + KINDS * KINDS) }
    {
        for crash_a in CRASHES {
            let log_a = self.log_a.inner().left_by(self.alloc, crash_a)?;
            self.check_beside(&log_a, tally)?;
        }
        Ok(())
    }

    // Recovers from what crashes of each kind leave of the second file, beside these bytes
    // of the first one.
    fn check_beside(&self, log_a: &[u8], tally: &mut Tally) -> Result<(), Refusal>
        ensures { OnOk result (outcomes tally.old + KINDS < 2 ^ 32
            → outcomes tally.new ≡ outcomes tally.old + KINDS) }
    {
        for crash_b in CRASHES {
            let log_b = self.log_b.inner().left_by(self.alloc, crash_b)?;
            let found = recover(self.alloc, &IMAGE, &[], log_a, &log_b)?;
            tally.outcome(outcome_of(&found, self.acked));
        }
        Ok(())
    }
}

// The outcome of a recovery, if the ticks up to `acked` are acknowledged: no tick, those ticks, or
// more. Tick k added k to the only cell.
fn outcome_of(found: &Recovered, acked: u64) -> Outcome
    ensures acknowledged { result ≢ Outcome.Wrong → acked ≤ found.now.tick }
    ensures words { result ≢ Outcome.Wrong
        → found.now.words.items ≡ found.now.tick * (found.now.tick + 1) / 2 ∷ [] }
{
    let sum = found.tick.saturating_mul(found.tick.saturating_add(1)) / 2;
    if found.tick < acked || found.tick > TICKS || found.words.as_slice() != [sum].as_slice() {
        Outcome::Wrong
    } else if found.tick == 0 {
        Outcome::Closed
    } else if found.tick == acked {
        Outcome::Before
    } else {
        Outcome::Whole
    }
}

// The ticks before the switch, the switch, and the tick after it: tick k adds k to the only cell.
fn records(alloc: Global) -> Result<HeapCircularBuffer<Record>, Refusal>
    ensures { IfOk result (λ queue. QueueFits 0 0 queue.items) }
{
    let mut queue = HeapCircularBuffer::with_capacity(alloc, 64)?;
    for i in 0..FIRST_TICKS {
        push(&mut queue, Record::Tick(tick(alloc, i + 1)?));
    }
    push(&mut queue, Record::Switch(FIRST_TICKS));
    push(&mut queue, Record::Tick(tick(alloc, TICKS)?));
    Ok(queue)
}

// Adds a record for which there is room.
fn push(queue: &mut HeapCircularBuffer<Record>, added: Record)
    requires { length queue.old.items < queue.old.capacity }
    ensures items { queue.new.items ≡ queue.old.items ++ added ∷ [] }
    ensures capacity { queue.new.capacity ≡ queue.old.capacity }
{
    queue.push_back(added);
}

// The tick of this number.
fn tick(alloc: Global, number: u64) -> Result<Tick, Refusal>
    requires { number ≤ 1000 }
{
    let mut tick = Tick::new(alloc);
    tick.reserve(1)?;
    tick.push_reserved(Action::Add {
        cell: 0,
        by: number as i64,
    });
    Ok(tick)
}
