ghost use Rattle.std.specs.Prelude.{◌≡◌, ◌⊎◌, ℕ, List, [], true, false, IsTrue, IfErr, OnOk, OnErr};
ghost use Rattle.world_actions.specs.declared.action.Action.{Action};
ghost use Rattle.file_format.specs.declared.slot.Slot.TheVariants.{A};
ghost use Rattle.disk_model.specs.FourFiles.{EachFile, StaysFilled, fault_counts};
ghost use Rattle.image_files.specs.declared.phase.Phase.TheVariants.{Idle, Down};
ghost use Rattle.action_log.specs.Progress.{work_of};
ghost use Rattle.engine.specs.World.{IsAtRest};
ghost use Rattle.engine.specs.Follows.{Follows, StillFollows};
ghost use Rattle.engine.specs.Runs.{HasNewest, SomeGrew, RunsImages, RunsLog};

use crate::engine::Engine;
use crate::laws::{event_laws, keeper_laws};
use action_log::LogAnswer;
use capture_core::Capture;
use disk_model::Disk;
use world_actions::Refusal;

impl<C: Capture, D: Disk> Engine<C, D> {
    /// Writes the image of the round in work, or the image keeper goes down.
    pub fn write_image(&mut self)
        ensures over { (self.new.images.phase ≡ Idle) ⊎ (self.new.images.phase ≡ Down) }
        ensures runs { RunsImages D.Disk self.old self.new }
    {
        event_laws();
        while self.images_left() > 0 {
            self.step_images();
        }
    }

    /// Writes all queued records to the log, or the log goes down.
    pub fn write_log(&mut self)
        ensures rests { (self.new.log.down ≡ true)
            ⊎ (work_of self.new.log self.new.queue ≡ 0) }
        ensures runs { RunsLog D.Disk self.old self.new }
    {
        event_laws();
        keeper_laws::<D>();
        while self.log_has_work() {
            if let LogAnswer::Down = self.step_log() {
                break;
            }
        }
    }

    /// Runs the start to its end. If it has a round, the image of its tick is written first. Then
    /// the log begins anew at that tick. A device that fails ends the start.
    pub fn start(&mut self) -> Result<(), Refusal>
        requires { self.old.running ≡ [] }
        ensures rest { OnOk result (IsAtRest self.new) }
        ensures up { OnOk result (self.new.log.down ≡ false) }
        ensures idle { OnOk result (self.new.images.phase ≡ Idle) }
        ensures first { self.old.log.starting ≡ true → self.old.queue ≡ []
            → OnOk result (self.new.log.current ≡ A) }
        ensures ended { (self.new.ended ≡ self.old.ended) × (self.new.since ≡ self.old.since) }
        ensures cells { self.new.images.cells ≡ self.old.images.cells }
        ensures live { self.new.content.live ≡ self.old.content.live }
        ensures newest { HasNewest self.old.images → HasNewest self.new.images }
        ensures follows { IsTrue D.honest
            → StillFollows D.Disk self.old self.new }
        ensures acknowledges { IsTrue D.honest
            → (first : List ℕ) (ticks : List (List Action)) (acknowledged : ℕ)
            → Follows D.Disk self.old first ticks acknowledged
            → OnOk result (Follows D.Disk self.new first ticks self.new.ended) }
        ensures filled { IsTrue D.honest
            → EachFile self.old.files self.new.files (StaysFilled D.Disk) }
        ensures refused { IfErr result (λ refusal. refusal ≡ Refusal.Device) }
        ensures device { (self.old.images.phase ≡ Down → ⊥) → self.old.log.down ≡ false
            → OnErr result (SomeGrew (fault_counts D.faults self.old.files)
            (fault_counts D.faults self.new.files)) }
        ensures no_fault { (self.old.images.phase ≡ Down → ⊥) → self.old.log.down ≡ false
            → OnOk result (fault_counts D.faults self.new.files
            ≡ fault_counts D.faults self.old.files) }
    {
        event_laws();
        keeper_laws::<D>();
        self.write_image();
        if self.images_are_down() {
            return Err(Refusal::Device);
        }
        self.write_log();
        if self.log_is_down() || self.is_starting() {
            return Err(Refusal::Device);
        }
        Ok(())
    }
}
