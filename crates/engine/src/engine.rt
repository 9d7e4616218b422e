ghost use Rattle.std.specs.Prelude.{◌≡◌, ◌⊎◌, ◌<◌, ◌≤◌, ◌↔◌, false, length, nat_le, IsTrue};
ghost use Rattle.std.specs.Prelude.{IfNone, IfSome};
ghost use Rattle.world_ticks.specs.declared.tick.TheConstants.{TICK_MAX};
ghost use Rattle.image_files.specs.declared.phase.Phase.TheVariants.{Idle, Down};
ghost use Rattle.image_files.specs.Progress.{newest_tick};
ghost use Rattle.action_log.specs.Progress.{start_left};
ghost use Rattle.action_log.specs.declared.format.TheConstants.{SEGMENT_TICKS};
ghost use Rattle.restart.specs.declared.start.TheConstants.{QUEUE_RECORDS};
ghost use Rattle.engine.specs.World.{IsInOrder, IsAtRest};
ghost use Rattle.engine.specs.Refusals.{is_down, is_in_round, tick_refusal_of, mark_refusal_of};
ghost use Rattle.engine.specs.Refusals.{cover_refusal_of, MayMark};

use action_log::{LogKeeper, Record, tick_refusal};
use capture_core::Capture;
use circular_buffer::HeapCircularBuffer;
use disk_model::{Disk, FourFiles};
use image_files::ImageKeeper;
use restart::QUEUE_RECORDS;
use std::alloc::Global;
use std::marker::Model;
use world_actions::Refusal;
use world_ticks::Tick;

mod beginning;
mod fuses;
mod parts;
mod playing;
mod runs;
mod steps;
mod words;

pub use beginning::known_shut;
pub use parts::Parts;

/// A world in memory beside its four files. Contracts see it as a `World`, whatever its store.
#[derive(Drop)]
pub struct Engine<C: Capture, D: Disk> {
    alloc: Global,
    store: C,
    running: Tick,
    ended: u64,
    since: u64,
    queue: HeapCircularBuffer<Record>,
    images: ImageKeeper,
    log: LogKeeper,
    files: FourFiles<D>,
}

impl<C: Capture, D: Disk> Model for Engine<C, D> {
    ghost use Rattle.std.specs.Prelude.{◌≡◌};
    ghost use Rattle.restart.specs.declared.start.TheConstants.{QUEUE_RECORDS};
    ghost use Rattle.engine.specs.World.{World, IsInOrder};

    ghost Value = { World D };

    ghost view = { λ engine. record {
      content = C.content engine.store;
      running = engine.running.list;
      ended = engine.ended;
      since = engine.since;
      queue = engine.queue.items;
      images = engine.images;
      log = engine.log;
      files = engine.files;
    } };

    ghost invariant = { λ engine. (engine.queue.capacity ≡ QUEUE_RECORDS)
        × IsInOrder D.Disk (record {
          content = C.content engine.store;
          running = engine.running.list;
          ended = engine.ended;
          since = engine.since;
          queue = engine.queue.items;
          images = engine.images;
          log = engine.log;
          files = engine.files;
        }) };
}

impl<C: Capture, D: Disk> Engine<C, D> {
    /// Law: a world is in order between any two operations.
    pub fn in_order(&self)
        ensures { IsInOrder D.Disk self.now }
    {
        let _ = &self.queue;
    }

    /// Its four files.
    pub fn files(&self) -> &FourFiles<D>
        ensures { result.now ≡ self.now.files }
    {
        &self.files
    }

    /// How many ticks have ended.
    pub fn ended(&self) -> u64
        ensures { result ≡ self.now.ended }
    {
        self.ended
    }

    /// How many ticks have ended since the last mark or start.
    pub fn since(&self) -> u64
        ensures { result ≡ self.now.since }
    {
        self.since
    }

    /// True if a call of the log's device failed.
    pub fn log_is_down(&self) -> bool
        ensures { result ≡ self.now.log.down }
    {
        self.log.is_down()
    }

    /// True if a call of a device failed for the images.
    pub fn images_are_down(&self) -> bool
        ensures down { IsTrue result ↔ (self.now.images.phase ≡ Down) }
        ensures flag { result ≡ is_down self.now.images.phase }
    {
        self.images.is_down()
    }

    /// True if the queue is full.
    pub fn queue_is_full(&self) -> bool
        ensures full { result ≡ nat_le QUEUE_RECORDS (length self.now.queue) }
        ensures room { result ≡ false → length self.now.queue < QUEUE_RECORDS }
        ensures held { IsTrue result → QUEUE_RECORDS ≤ length self.now.queue }
    {
        self.queue.len() >= QUEUE_RECORDS
    }

    /// True if a round is in work, or was when a call failed.
    pub fn round_is_open(&self) -> bool
        ensures flag { result ≡ is_in_round self.now.images.phase }
        ensures idle { result ≡ false → self.now.images.phase ≡ Idle }
    {
        self.images.has_open_round()
    }

    /// True if the log's part of the start is ahead or in work.
    pub fn is_starting(&self) -> bool
        ensures starting { result ≡ self.now.log.starting }
        ensures left { IsTrue result ↔ (0 < start_left self.now.log) }
    {
        self.log.starting()
    }

    /// Returns the refusal of an action or of the tick's end, if one holds.
    pub fn tick_refusal(&self) -> Option<Refusal>
        ensures refusal { result ≡ tick_refusal_of self.now }
        ensures room { IfNone result ((self.now.log.starting ≡ false)
            × (self.now.log.down ≡ false)
            × (self.now.ended < TICK_MAX) × (self.now.since < SEGMENT_TICKS)) }
    {
        if self.log.starting() {
            Some(Refusal::Starting)
        } else {
            tick_refusal(self.log.is_down(), self.ended, self.since)
        }
    }

    /// Returns the refusal of a mark, if one holds.
    pub fn mark_refusal(&self) -> Option<Refusal>
        ensures refusal { result ≡ mark_refusal_of self.now }
        ensures allowed { IfNone result (MayMark self.now) }
        ensures rests { IsAtRest self.now → self.now.log.down ≡ false
            → IfSome result (λ _. (self.now.images.phase ≡ Down)
            ⊎ (self.now.ended ≡ newest_tick self.now.images.newest)) }
    {
        if self.log.starting() {
            Some(Refusal::Starting)
        } else if self.log.is_down() {
            Some(Refusal::LogDown)
        } else if self.images_are_down() {
            Some(Refusal::ImageDown)
        } else if !self.running.actions().is_empty() {
            Some(Refusal::OpenTick)
        } else if self.round_is_open() {
            Some(Refusal::Busy)
        } else if self.ended == self.newest_tick() {
            Some(Refusal::NothingNew)
        } else if self.queue_is_full() {
            Some(Refusal::QueueFull)
        } else {
            None
        }
    }

    /// Returns the refusal of a cover, if one holds.
    pub fn cover_refusal(&self, tick: u64) -> Option<Refusal>
        ensures refusal { result ≡ cover_refusal_of self.now tick }
        ensures allowed { IfNone result ((self.now.log.starting ≡ false)
            × (tick ≤ newest_tick self.now.images.newest)) }
    {
        if self.log.starting() {
            Some(Refusal::Starting)
        } else if self.log.is_down() {
            Some(Refusal::LogDown)
        } else if tick > self.newest_tick() {
            Some(Refusal::Uncovered)
        } else {
            None
        }
    }

    /// The tick of the newest image, 0 before the first.
    pub fn newest_tick(&self) -> u64
        ensures { result ≡ newest_tick self.now.images.newest }
    {
        match self.images.newest() {
            None => 0,
            Some((_, tick)) => tick,
        }
    }
}
