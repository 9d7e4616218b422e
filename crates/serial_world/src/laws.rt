ghost use Rattle.std.specs.Prelude.{List, IsTrue, ℕ};
ghost use Rattle.world_actions.specs.declared.action.Action.{Action};
ghost use Rattle.engine.specs.Follows.{AreSound};
ghost use Rattle.serial_world.specs.declared.state.SerialState.{SerialState as State};
ghost use Rattle.serial_world.specs.Runs.{Serves};

use capture_core::Capture;
use disk_model::Disk;
use engine::followed_files_are_sound;

/// Law: the files of a served world are sound for its ticks and the acknowledged count. Whatever a
/// crash leaves of them, recovery gives the world after the first n ticks, for some n not below
/// that count. Each open image is the world after its tick.
pub fn served_worlds_are_safe<C: Capture, D: Disk>()
    ensures { IsTrue D.honest → (s : State C D) (first : List ℕ) (ticks : List (List Action))
        → Serves D.Disk s first ticks → AreSound D.Disk s.engine.files first ticks s.acked }
{
    followed_files_are_sound::<D>();
}
