//! The opening of a world that is tried.
ghost use Rattle.std.specs.Prelude.{IfOk};
ghost use Rattle.worker_steps.specs.Begun.{IsWhole};

use capture_core::PlainCopy;
use disk_model::{Disk, FourFiles};
use shared_capture::Method;
use std::alloc::Global;
use worker_steps::Opened;
use worker_threads::start_world;
use world_actions::Refusal;
use world_start::recover_world;

/// The world in these files, recovered and started for its workers.
pub fn open_world<M: Method, D: Disk + Drop>(
    alloc: Global,
    files: FourFiles<D>,
) -> Result<Opened<M, D>, (FourFiles<D>, Refusal)>
    ensures { IfOk result (λ opened.
        IsWhole D.Disk opened) }
{
    let begun = recover_world::<PlainCopy, D>(alloc, files)?;
    start_world(alloc, begun)
}
