ghost use Rattle.std.specs.Prelude.{◌≡◌, ◌≤◌, IsTrue, IfOk, IfErr};
ghost use Rattle.world_actions.specs.declared.world.TheConstants.{CELLS};
ghost use Rattle.world_start.specs.Opening.{AreSynced, HasFaulted};
ghost use Rattle.test_serial.specs.Created.{IsServedFresh, IsRefusedNew, IsNotCreated};

use action_log::segments_read_once;
use capture_core::Capture;
use disk_model::{Disk, FourFiles};
use serial_world::SerialWorld;
use std::alloc::Global;
use world_actions::Refusal;
use world_start::fresh_files;

/// Makes the files of a world of zeros at tick 0, and opens that world. No restart between the two
/// is needed: if nothing of the files was unsynced, the new world is served. It refuses with
/// `NotEmpty` if one of the files isn't closed. If it refuses, it gives the files back.
pub fn create_and_open<C: Capture, D: Disk>(
    alloc: Global,
    cells: u32,
    files: FourFiles<D>,
    every: u32,
) -> Result<SerialWorld<C, D>, (FourFiles<D>, Refusal)>
    requires { (1 ≤ cells) × (cells ≤ CELLS) }
    ensures served { IsTrue D.honest → AreSynced D.Disk files
        → IfOk result (IsServedFresh D.Disk cells) }
    ensures every { IfOk result (λ served. served.every ≡ every) }
    ensures refused { IfErr result (λ refused. IsRefusedNew D.Disk files refused.1) }
    ensures left { IsTrue D.honest → IfErr result (λ refused.
        IsNotCreated D.Disk files cells refused.1 refused.0) }
    ensures device { IfErr result (λ refused. HasFaulted D.faults files refused.0 refused.1) }
{
    segments_read_once();
    let files = fresh_files(alloc, cells, files)?;
    SerialWorld::open(alloc, files, every)
}
