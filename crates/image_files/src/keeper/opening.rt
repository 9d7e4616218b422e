ghost use Rattle.std.specs.Prelude.{◌≡◌, ◌<◌, OnOk, OnErr, IfOk, is_ok};
ghost use Rattle.disk_model.specs.Disk.{counted, Sync};
ghost use Rattle.image_files.specs.declared.phase.Phase.TheVariants.{OpeningSync, Down};
ghost use Rattle.image_files.specs.Progress.{left_of, opened_keeper};
ghost use Rattle.image_files.specs.Calls.{GoesOn, Opens};

use super::ImageKeeper;
use crate::phase::Phase;
use disk_model::Disk;
use world_actions::Refusal;

// The opening of the target, once its body is durable.
impl ImageKeeper {
    // Makes the open gate durable. The target then holds the newest image, and the files
    // exchange their parts.
    pub(super) fn finish<D: Disk>(&mut self, target: &mut D) -> Result<u64, Refusal>
        requires phase { self.old.phase ≡ OpeningSync }
        ensures ok { OnOk result (self.new ≡ opened_keeper self.old) }
        ensures failed { OnErr result (self.new ≡ record self.old { phase = Down }) }
        ensures opened { IfOk result
            (Opens D.Disk self.old self.new target.old target.new) }
        ensures goes_on { OnErr result
            (GoesOn D.Disk self.old self.new target.old target.new) }
        ensures lowers { OnOk result (left_of self.new < left_of self.old) }
        ensures faults { D.faults target.new ≡ counted (D.faults target.old) result }
        ensures called { D.called target.old Sync (is_ok result) target.new }
    {
        let slot = self.target();
        if let Err(refusal) = target.sync() {
            self.go_down();
            return Err(refusal);
        }
        self.newest = Some((slot, self.tick));
        self.target_shut = self.newest_shut;
        self.newest_shut = false;
        self.phase = Phase::Idle;
        Ok(self.tick)
    }
}
