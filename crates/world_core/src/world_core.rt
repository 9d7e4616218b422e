ghost use Rattle.std.specs.Prelude.{◌≡◌, ◌≤◌, ◌&&◌, IfOk, IfErr};
ghost use Rattle.engine.specs.Refusals.{is_in_round};
ghost use Rattle.world_actions.specs.declared.world.TheConstants.{CELLS};
ghost use Rattle.world_core.specs.Standing.{is_starting};
ghost use Rattle.world_core.specs.Past.{Past, past_after, fresh_past};
ghost use Rattle.world_core.specs.Starting.{BeginsFresh};
ghost use Rattle.world_core.specs.Moving.{Does};
ghost use Rattle.world_core.specs.Exact.{IsExact, Progresses};
ghost use Rattle.world_core.specs.Facts.{IsCoreAt};
ghost use Rattle.world_core.specs.Stepped.{Stepped};

use crate::laws::{File, safety_laws};
use crate::moves::{Answer, Fate, Move};
use action_log::LogAnswer;
use capture_core::Capture;
use disk_model::FourFiles;
use engine::{Engine, event_laws, keeper_laws};
use image_files::ImageAnswer;
use restart::zeros;
use std::alloc::Global;
use std::marker::Model;
use world_actions::{Action, Refusal};

mod beginning;
mod files;
mod repeating;

/// A world with its store, its keepers and its four files, which answers one move at a time.
/// Contracts see it as a `State`, whatever its store.
#[derive(Drop)]
pub struct Core<C: Capture> {
    alloc: Global,
    engine: Engine<C, File>,
}

impl<C: Capture> Model for Core<C> {
    ghost use Rattle.world_core.specs.State.{State};
    ghost use Rattle.world_core.specs.Past.{Past};
    ghost use Rattle.world_core.specs.Facts.{IsCoreAt};

    ghost Value = { State };

    ghost view = { λ core. core.engine };

    ghost invariant = { λ core. (past : Past) × IsCoreAt past core.engine };
}

impl<C: Capture> Core<C> {
    /// A world of zeros at tick 0 on four empty files, with its start ahead.
    pub fn fresh(alloc: Global, cells: u32) -> Result<Self, Refusal>
        requires { (1 ≤ cells) × (cells ≤ CELLS) }
        ensures fresh { IfOk result (IsCoreAt fresh_past) }
        ensures begins { IfOk result (BeginsFresh cells) }
        ensures memory { IfErr result (λ refusal. refusal ≡ Refusal.NoMemory) }
    {
        event_laws();
        safety_laws();
        let words = zeros(alloc, cells)?;
        let engine = Core::begin(alloc, None, 0, &words, FourFiles::empty(alloc))?;
        engine.in_order();
        Ok(Core { alloc, engine })
    }

    /// True if the start has not ended.
    pub fn starting(&self) -> bool
        ensures { (past : Past) → IsCoreAt past self.now → result ≡ is_starting past.standing }
    {
        keeper_laws::<File>();
        self.engine.is_starting()
    }

    /// The tick of the newest image, 0 before the first.
    pub fn newest_tick(&self) -> u64
        ensures { (past : Past) → IsCoreAt past self.now → result ≡ past.standing.newest }
    {
        keeper_laws::<File>();
        self.engine.newest_tick()
    }

    /// Makes one move. All that moves and answers say of ticks, images and keepers stays true of
    /// the core. The answer is exact, and the new state is the one that it names.
    pub fn step(&mut self, asked: Move) -> Answer
        ensures keeps { (past : Past) → IsCoreAt past self.old
            → IsCoreAt (past_after past asked result) self.new }
        ensures exact { (past : Past) → IsCoreAt past self.old
            → IsExact past self.old asked result }
        ensures does { Does asked self.old result self.new }
        ensures progress { Progresses asked result self.old self.new }
        ensures cells { self.new.images.cells ≡ self.old.images.cells }
        ensures refused { (refusal : _) → result ≡ Answer.Refused refusal → self.new ≡ self.old }
    {
        match asked {
            Move::Act(action) => self.act(action),
            Move::Get(cell) => self.get(cell),
            Move::End => self.end(),
            Move::Mark => self.mark(),
            Move::Image(fate) => Answer::Image(self.image(fate)),
            Move::Log(fate) => Answer::Log(self.log(fate)),
            Move::Cover(tick) => self.cover(tick),
            Move::Crash(left) => self.crash(left),
        }
    }

    fn act(&mut self, action: Action) -> Answer
        ensures { Stepped (Move.Act action) self.old result self.new }
    {
        event_laws();
        keeper_laws::<File>();
        if let Some(refusal) = self.engine.tick_refusal() {
            return Answer::Refused(refusal);
        }
        if let Err(refusal) = self.engine.act(action) {
            return Answer::Refused(refusal);
        }
        self.engine.in_order();
        Answer::Did
    }

    fn get(&mut self, cell: u32) -> Answer
        ensures keeps { (past : Past) → IsCoreAt past self.old
            → IsCoreAt (past_after past (Move.Get cell) result) self.new }
        ensures exact { (past : Past) → IsCoreAt past self.old
            → IsExact past self.old (Move.Get cell) result }
        ensures same { self.new ≡ self.old }
    {
        match self.engine.read(cell) {
            Ok(word) => Answer::Word(word),
            Err(refusal) => Answer::Refused(refusal),
        }
    }

    fn end(&mut self) -> Answer
        ensures { Stepped Move.End self.old result self.new }
    {
        event_laws();
        keeper_laws::<File>();
        if let Some(refusal) = self.engine.tick_refusal() {
            return Answer::Refused(refusal);
        }
        if self.engine.queue_is_full() {
            return Answer::Refused(Refusal::QueueFull);
        }
        let tick = self.engine.end();
        self.engine.in_order();
        Answer::Ended(tick)
    }

    fn mark(&mut self) -> Answer
        ensures { Stepped Move.Mark self.old result self.new }
    {
        event_laws();
        keeper_laws::<File>();
        if let Some(refusal) = self.engine.mark_refusal() {
            return Answer::Refused(refusal);
        }
        let tick = self.engine.begin_round();
        self.engine.in_order();
        Answer::Started(tick)
    }

    fn image(&mut self, fate: Fate) -> ImageAnswer
        ensures { Stepped (Move.Image fate) self.old (Answer.Image result) self.new }
    {
        event_laws();
        keeper_laws::<File>();
        self.engine.arm_images(fate.is_failed());
        let given = self.engine.step_images();
        self.engine.in_order();
        given
    }

    // True if the log's part of the start waits for the image.
    fn log_waits(&self) -> bool
        ensures { result ≡ (self.now.log.starting && is_in_round self.now.images.phase) }
    {
        self.engine.is_starting() && self.engine.round_is_open()
    }

    // In a start the log waits until the image is open.
    fn log(&mut self, fate: Fate) -> LogAnswer
        ensures { Stepped (Move.Log fate) self.old (Answer.Log result) self.new }
    {
        event_laws();
        keeper_laws::<File>();
        if self.log_waits() {
            return LogAnswer::Idle;
        }
        self.engine.arm_log(fate.is_failed());
        let given = self.engine.step_log();
        self.engine.in_order();
        given
    }

    // Records that the image of this tick has need no logging.
    fn cover(&mut self, tick: u64) -> Answer
        ensures { Stepped (Move.Cover tick) self.old result self.new }
    {
        event_laws();
        keeper_laws::<File>();
        if let Some(refusal) = self.engine.cover_refusal(tick) {
            return Answer::Refused(refusal);
        }
        let given = self.engine.cover(tick);
        self.engine.in_order();
        Answer::Log(given)
    }

    // The next start begins from what recovery finds in the bytes that the crash left.
    fn crash(&mut self, left: FourFiles<Vec<u8>>) -> Answer
        ensures { Stepped (Move.Crash left) self.old result self.new }
    {
        event_laws();
        safety_laws();
        if !self.allows(&left) {
            return Answer::Refused(Refusal::Impossible);
        }
        match Core::stand_on(self.alloc, self.cells(), left) {
            Ok((engine, answer)) => {
                self.engine = engine;
                self.engine.in_order();
                answer
            }
            Err(refusal) => Answer::Refused(refusal),
        }
    }
}
