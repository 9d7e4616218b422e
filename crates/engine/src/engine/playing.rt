ghost use Rattle.std.specs.Prelude.{◌≡◌, ◌≢◌, ◌+◌, ◌<◌, [], length, OnOk, OnErr, IfErr};
ghost use Rattle.std.specs.Prelude.{Err, IsOk};
ghost use Rattle.world_ticks.specs.declared.tick.TheConstants.{TICK_MAX};
ghost use Rattle.world_ticks.specs.Tick.{decision};
ghost use Rattle.image_files.specs.declared.phase.Phase.TheVariants.{Idle};
ghost use Rattle.action_log.specs.declared.format.TheConstants.{SEGMENT_TICKS};
ghost use Rattle.restart.specs.declared.start.TheConstants.{QUEUE_RECORDS};
ghost use Rattle.batches.specs.Answer.{accepted_of, words_after};
ghost use Rattle.engine.specs.Steps.{DoesAction, DoesActions, EndsTick, BeginsRound};
ghost use Rattle.engine.specs.Steps.{CoversQueue};

use crate::answers::Answers;
use crate::engine::Engine;
use action_log::{LogAnswer, Record, log_queues};
use batches::{Batch, answers_are_ticks};
use capture_core::{Capture, accesses_write};
use disk_model::Disk;
use std::mem;
use world_actions::{Action, Refusal};
use world_ticks::{Tick, act};

impl<C: Capture, D: Disk> Engine<C, D> {
    /// Does an action of the running tick.
    pub fn act(&mut self, action: Action) -> Result<(), Refusal>
        ensures done { OnOk result (DoesAction self.old action self.new) }
        ensures unchanged { OnErr result (self.new ≡ self.old) }
        ensures refused { IfErr result (λ refusal. refusal ≢ Refusal.NoMemory
            → decision self.old.content.live self.old.running action ≡ Err refusal) }
        ensures memory { result ≡ Err Refusal.NoMemory
            → IsOk (decision self.old.content.live self.old.running action) }
    {
        accesses_write::<C>();
        act(&mut self.store, &mut self.running, action)
    }

    /// Plays a batch as the running tick, and puts its answers into `answers`. All memory is taken
    /// first.
    pub fn play<A: Answers>(&mut self, b: &Batch, answers: &mut A) -> Result<(), Refusal>
        requires none { self.old.running ≡ [] }
        requires number { self.old.ended < TICK_MAX }
        ensures answers { OnOk result (A.reports answers.new
            b.now.list self.old.content.live (self.old.ended + 1)) }
        ensures does { OnOk result
            (DoesActions self.old (accepted_of b.now.list self.old.content.live) self.new) }
        ensures words { OnOk result
            (self.new.content.live ≡ words_after b.now.list self.old.content.live) }
        ensures memory { IfErr result (λ refusal. refusal ≡ Refusal.NoMemory) }
        ensures unchanged { OnErr result (self.new ≡ self.old) }
    {
        accesses_write::<C>();
        answers_are_ticks();
        let number = self.ended + 1;
        answers.answer(&mut self.store, &mut self.running, b, number)
    }

    /// Ends the running tick, and returns its number.
    pub fn end(&mut self) -> u64
        requires number { self.old.ended < TICK_MAX }
        requires few { self.old.since < SEGMENT_TICKS }
        requires room { length self.old.queue < QUEUE_RECORDS }
        ensures number { result ≡ self.old.ended + 1 }
        ensures ended { EndsTick self.old self.new }
    {
        log_queues();
        let tick = mem::replace(&mut self.running, Tick::new(self.alloc));
        let _ = self.queue.push_back(Record::Tick(tick));
        self.ended += 1;
        self.since += 1;
        self.ended
    }

    /// Takes the records from the queue that the image of this tick has.
    pub fn cover(&mut self, tick: u64) -> LogAnswer
        ensures { CoversQueue tick self.old result self.new }
    {
        self.log.cover(&mut self.queue, tick)
    }

    /// Marks the store, and begins the round of the ended ticks. Returns its tick.
    pub fn begin_round(&mut self) -> u64
        requires idle { self.old.images.phase ≡ Idle }
        requires room { length self.old.queue < QUEUE_RECORDS }
        ensures number { result ≡ self.old.ended }
        ensures begun { BeginsRound self.old self.new }
    {
        log_queues();
        self.store.mark();
        self.images.begin(self.ended);
        let _ = self.queue.push_back(Record::Switch(self.ended));
        self.since = 0;
        self.ended
    }
}
