ghost use Rattle.std.specs.Prelude.{◌≡◌, ◌≤◌, ◌<◌, [], List, length, slice_index, false, IsTrue};
ghost use Rattle.std.specs.Prelude.{IfOk, IfErr, OnOk, OnErr, ℕ};
ghost use Rattle.world_actions.specs.declared.action.Action.{Action};
ghost use Rattle.batches.specs.Answer.{answers_of};
ghost use Rattle.serial_world.specs.Runs.{Runs, Serves, Acknowledged, IsRefusedBatch};
ghost use Rattle.image_files.specs.declared.phase.Phase.TheVariants.{Idle};
ghost use Rattle.engine.specs.Parts.{AreAtRest, AreSettled};
ghost use Rattle.world_start.specs.Opening.{HasFaulted, AreSynced, IsRecovered, IsRefused};
ghost use Rattle.serial_world.specs.Opened.{IsOpened, IsNotOpened};

use crate::state::SerialState;
use action_log::log_outcomes;
use batches::{Answer, Batch};
use capture_core::Capture;
use disk_model::{Disk, FourFiles};
use engine::{Parts, followed_files_are_sound};
use image_files::images_stay;
use sessions::World;
use std::alloc::Global;
use std::marker::Model;
use world_actions::Refusal;
use world_start::{Start, recover_world};

/// A world that is served from its four files, whatever its store and whatever disks they are on.
#[derive(Drop)]
pub struct SerialWorld<C: Capture, D: Disk> {
    state: SerialState<C, D>,
}

impl<C: Capture, D: Disk> Model for SerialWorld<C, D> {
    ghost use Rattle.serial_world.specs.declared.state.SerialState.{SerialState as State};
    ghost use Rattle.engine.specs.World.{IsAtRest};

    ghost Value = { State C D };

    ghost view = { λ world. world.state };

    ghost invariant = { λ world.
        IsAtRest world.state.engine };
}

impl<C: Capture, D: Disk> SerialWorld<C, D> {
    /// Opens the world in the files: recovers it, and runs its start to the end. A checkpoint is
    /// made after every `every` ticks, 1 to 65,536. If it is refused, it gives the files back.
    pub fn open(
        alloc: Global,
        files: FourFiles<D>,
        every: u32,
    ) -> Result<Self, (FourFiles<D>, Refusal)>
        ensures opened { IsTrue D.honest
            → IfOk result (IsOpened D.Disk files) }
        ensures recovered { IfOk result (λ served. IsRecovered D.Disk files
            served.engine served.recovered.0 served.recovered.1) }
        ensures up { IfOk result (λ served. served.engine.log.down ≡ false) }
        ensures begun { IfOk result (λ served. (served.engine.since ≡ 0)
            × (served.engine.images.phase ≡ Idle)) }
        ensures every { IfOk result (λ served. served.every ≡ every) }
        ensures acked { IfOk result (λ served. served.acked ≡ served.engine.ended) }
        ensures refused { IfErr result (λ refused. IsRefused D.Disk files refused.1) }
        ensures left { IsTrue D.honest → IfErr result (λ refused.
            IsNotOpened D.Disk files refused.1 refused.0) }
        ensures device { IfErr result (λ refused. HasFaulted D.faults files refused.0 refused.1) }
    {
        followed_files_are_sound::<D>();
        let Start {
            mut engine,
            words: _,
            from,
        } = recover_world(alloc, files)?;
        match engine.start() {
            Ok(()) => {
                let tick = engine.ended();
                let state = SerialState {
                    engine,
                    every,
                    acked: tick,
                    recovered: (tick, from),
                };
                Ok(SerialWorld { state })
            }
            Err(refusal) => Err((engine.into_files(), refusal)),
        }
    }

    /// The number of the greatest receipt, or the recovered tick before the first one.
    pub fn acked(&self) -> u64
        ensures { result ≡ self.now.acked }
    {
        self.state.acked
    }

    /// The recovered tick, and that of the image that it was built from.
    pub fn recovered(&self) -> (u64, u64)
        ensures { result ≡ self.now.recovered }
    {
        self.state.recovered
    }

    /// The number of cells. Cells are numbered from 0.
    pub fn cells(&self) -> usize
        ensures { result ≡ length self.now.engine.content.live }
    {
        self.state.engine.cells()
    }

    /// The word of a cell, between two batches. It makes no tick and no call of a device. After
    /// `LogDown` the word may be that of a tick that isn't durable.
    pub fn read(&mut self, cell: u32) -> Result<u64, Refusal>
        ensures inside { IfOk result (λ _. cell < length self.old.engine.content.live) }
        ensures word { IfOk result (λ word. word
            ≡ slice_index self.old.engine.content.live cell) }
        ensures outside { IfErr result (λ refusal. (refusal ≡ Refusal.BadCell)
            × (length self.old.engine.content.live ≤ cell)) }
        ensures same { self.new ≡ self.old }
    {
        self.state.engine.read(cell)
    }

    /// Plays a batch as one tick. Returns the number of the tick once it is acknowledged. The
    /// answers, one to each request, replace the content of `answers`. If the batch is
    /// refused, there are none.
    pub fn play(&mut self, b: &Batch, answers: &mut Vec<Answer>) -> Result<u64, Refusal>
        ensures acknowledged { IfOk result (λ _.
            Acknowledged D.Disk self.old b.now.list self.new) }
        ensures answers { OnOk result (answers.new.items
            ≡ answers_of b.now.list self.old.engine.content.live) }
        ensures tick { IfOk result (λ tick. tick ≡ self.new.acked) }
        ensures refused { IfErr result (λ refusal.
            IsRefusedBatch D.Disk self.old b.now.list refusal self.new) }
        ensures none { OnErr result (answers.new.items ≡ []) }
    {
        match self.state.batch(b, answers) {
            Ok(()) => Ok(self.state.acked),
            Err(refusal) => {
                answers.clear();
                Err(refusal)
            }
        }
    }

    /// Takes the world apart. If memory runs out, it gives the files back with `NoMemory`.
    pub fn into_parts(self) -> Result<Parts<D>, (FourFiles<D>, Refusal)>
        ensures words { IfOk result (λ parts. parts.words.items
            ≡ self.engine.content.live) }
        ensures images { IfOk result (λ parts. parts.images ≡ self.engine.images) }
        ensures log { IfOk result (λ parts. parts.log ≡ self.engine.log) }
        ensures files { IfOk result (λ parts. parts.files ≡ self.engine.files) }
        ensures ticks { IfOk result (λ parts. (parts.ended ≡ self.engine.ended)
            × (parts.since ≡ self.engine.since)) }
        ensures none_queued { IfOk result (λ parts. parts.log.down ≡ false
            → self.engine.queue ≡ []) }
        ensures rest { IfOk result (AreAtRest D.Disk) }
        ensures settled { IfOk result (λ parts. parts.log.down ≡ false
            → parts.images.phase ≡ Idle → parts.since ≡ 0
            → (first : List ℕ) (ticks : List (List Action))
            → Serves D.Disk self first ticks → AreSettled D.Disk parts first ticks) }
        ensures refused { IfErr result (λ refused. (refused.0 ≡ self.engine.files)
            × (refused.1 ≡ Refusal.NoMemory)) }
    {
        let SerialWorld { state } = self;
        let SerialState {
            mut engine,
            every: _,
            acked: _,
            recovered: _,
        } = state;
        match engine.words() {
            Ok(words) => Ok(engine.into_parts(words)),
            Err(refusal) => Err((engine.into_files(), refusal)),
        }
    }

    /// Gives the files back. Nothing of them is unsynced, unless a keeper is down.
    pub fn into_files(self) -> FourFiles<D>
        ensures files { result ≡ self.engine.files }
        ensures synced { IsTrue D.honest → self.engine.log.down ≡ false
            → self.engine.images.phase ≡ Idle
            → (first : List ℕ) (ticks : List (List Action))
            → Serves D.Disk self first ticks → AreSynced D.Disk result }
    {
        images_stay::<D>();
        log_outcomes::<D>();
        let SerialWorld { state } = self;
        let SerialState {
            engine,
            every: _,
            acked: _,
            recovered: _,
        } = state;
        engine.into_files()
    }
}

impl<C: Capture, D: Disk> World for SerialWorld<C, D> {
    ghost runs = { Runs D.Disk };

    fn batch(&mut self, b: &Batch, text: &mut Vec<u8>) -> Result<(), Refusal> {
        self.state.batch(b, text)?;
        Ok(())
    }
}
