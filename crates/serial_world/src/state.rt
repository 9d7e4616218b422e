ghost use Rattle.std.specs.Prelude.{◌≡◌, ◌+◌, ◌⊎◌, ◌≤◌, ◌<◌, ℕ, List, false, IsTrue, OnOk, IfErr};
ghost use Rattle.world_actions.specs.declared.action.Action.{Action};
ghost use Rattle.image_files.specs.declared.phase.Phase.TheVariants.{Down};
ghost use Rattle.engine.specs.World.{IsAtRest};
ghost use Rattle.serial_world.specs.Runs.{HasImageOf, Serves, Acknowledged, IsRefusedBatch};

use batches::{Batch, answers_are_ticks};
use capture_core::Capture;
use disk_model::Disk;
use engine::{Answers, Engine, event_laws, keeper_laws};
use world_actions::Refusal;

/// A world with its counts.
#[derive(Drop)]
pub struct SerialState<C: Capture, D: Disk> {
    pub engine: Engine<C, D>,
    /// After how many ticks a checkpoint is made.
    pub every: u32,
    /// The number of the greatest receipt, or the recovered tick before the first one.
    pub acked: u64,
    /// The recovered tick, and that of the image that it was built from.
    pub recovered: (u64, u64),
}

impl<C: Capture, D: Disk> SerialState<C, D> {
    /// Plays a batch as one tick, has it logged, and makes a checkpoint if one is due. The answers
    /// are put into `answers`.
    pub fn batch<A: Answers>(&mut self, b: &Batch, answers: &mut A) -> Result<(), Refusal>
        requires { IsAtRest self.old.engine }
        ensures rest { IsAtRest self.new.engine }
        ensures acknowledged { OnOk result (
            Acknowledged D.Disk self.old b.now.list self.new) }
        ensures answers { OnOk result (A.reports answers.new
            b.now.list self.old.engine.content.live (self.old.engine.ended + 1)) }
        ensures refused { IfErr result (λ refusal.
            IsRefusedBatch D.Disk self.old b.now.list refusal self.new) }
    {
        event_laws();
        keeper_laws::<D>();
        answers_are_ticks();
        if let Some(refusal) = self.engine.tick_refusal() {
            return Err(refusal);
        }
        self.engine.play(b, answers)?;
        self.engine.end();
        self.engine.write_log();
        if self.engine.log_is_down() {
            return Err(Refusal::LogDown);
        }
        self.acked = self.engine.ended();
        self.checkpoint_if_due();
        Ok(())
    }

    // Makes a checkpoint, if `every` ticks ended since the last mark or start and no refusal
    // of a mark holds.
    fn checkpoint_if_due(&mut self)
        requires rest { IsAtRest self.old.engine }
        requires up { self.old.engine.log.down ≡ false }
        ensures rest { IsAtRest self.new.engine }
        ensures ended { self.new.engine.ended ≡ self.old.engine.ended }
        ensures since { (self.new.engine.since ≡ self.old.engine.since)
            ⊎ ((self.new.engine.since ≡ 0) × (self.old.every ≤ self.old.engine.since)) }
        ensures cells { self.new.engine.images.cells ≡ self.old.engine.images.cells }
        ensures live { self.new.engine.content.live ≡ self.old.engine.content.live }
        ensures same { self.new ≡ record self.old { engine = self.new.engine } }
        ensures serves { IsTrue D.honest → (first : List ℕ) (ticks : List (List Action))
            → Serves D.Disk self.old first ticks → Serves D.Disk self.new first ticks }
        ensures image { IsTrue D.honest → (first : List ℕ) (ticks : List (List Action))
            → Serves D.Disk self.old first ticks → self.old.every ≤ self.old.engine.since
            → (self.new.engine.images.phase ≡ Down)
            ⊎ HasImageOf D.may_leave self.new.engine.files self.new.engine.ended }
    {
        event_laws();
        keeper_laws::<D>();
        if self.engine.since() < u64::from(self.every) {
            return;
        }
        self.engine.in_order();
        if self.engine.mark_refusal().is_none() {
            self.engine.begin_round();
            self.engine.write_image();
            self.engine.write_log();
        }
    }
}
