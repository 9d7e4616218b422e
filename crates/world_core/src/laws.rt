ghost use Rattle.world_core.specs.Laws.{SafetyLaws};
ghost use Rattle.world_core.specs.Headline.{CoresAreSafe, FreshAreRecovered};
ghost use Rattle.world_core.specs.Written.{StayWritten};

use action_log::segments_read_once;
use disk_model::{Fused, ModelFile};
use engine::keeper_laws;
use recovery::crash_restarts;
use restart::gates_are_reported;

/// A file of a core, with a fuse that can make its calls fail.
pub type File = Fused<ModelFile>;

/// Laws: the files of a core in step are safe, and a crash begins the next start. Each file has
/// only one reading.
pub fn safety_laws()
    ensures { SafetyLaws }
{
    keeper_laws::<File>();
    gates_are_reported();
    crash_restarts();
    segments_read_once();
}

/// Laws: the files of a core are safe for the ended ticks and the acknowledged count. So
/// `Core::step` keeps the promise of `run`, move by move. Before the first image, recovery of safe
/// files finds no image, or the first words at tick 0.
pub fn cores_are_safe()
    ensures safe { CoresAreSafe }
    ensures fresh { FreshAreRecovered }
{
    safety_laws();
}

/// Laws: no crash leaves an empty log of a core after its first tick. None leaves an empty
/// image after an image of a tick above 0 was opened. A fresh core has what this rests on, and
/// each move keeps it.
pub fn cores_stay_written()
    ensures { StayWritten }
{
    safety_laws();
}
