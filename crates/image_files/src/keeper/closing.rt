ghost use Rattle.std.specs.Prelude.{◌≡◌, ◌<◌, true, OnOk, OnErr, is_ok};
ghost use Rattle.disk_model.specs.Disk.{counted, Sync};
ghost use Rattle.image_files.specs.declared.phase.Phase.TheVariants.{ClosingSync, Header, Down};
ghost use Rattle.image_files.specs.Progress.{left_of};
ghost use Rattle.image_files.specs.Calls.{GoesOn};

use super::ImageKeeper;
use crate::phase::Phase;
use disk_model::Disk;
use world_actions::Refusal;

// The closing of the target, before anything of it is written over.
impl ImageKeeper {
    // Makes the closed gate durable.
    pub(super) fn close_durably<D: Disk>(&mut self, target: &mut D) -> Result<(), Refusal>
        requires phase { self.old.phase ≡ ClosingSync }
        ensures ok { OnOk result
            (self.new ≡ record self.old { phase = Header; target_shut = true }) }
        ensures failed { OnErr result (self.new ≡ record self.old { phase = Down }) }
        ensures goes_on { GoesOn D.Disk self.old self.new target.old target.new }
        ensures lowers { OnOk result (left_of self.new < left_of self.old) }
        ensures faults { D.faults target.new ≡ counted (D.faults target.old) result }
        ensures called { D.called target.old Sync (is_ok result) target.new }
    {
        if let Err(refusal) = target.sync() {
            self.go_down();
            return Err(refusal);
        }
        self.target_shut = true;
        self.phase = Phase::Header;
        Ok(())
    }
}
