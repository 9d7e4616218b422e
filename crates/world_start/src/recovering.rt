ghost use Rattle.std.specs.Prelude.{◌≡◌, IsTrue, IfOk, IfErr, MatchResult};
ghost use Rattle.disk_model.specs.FourFiles.{EachFile, KeepsFile, fault_counts};
ghost use Rattle.world_start.specs.Steps.{IsAhead};
ghost use Rattle.world_start.specs.Opening.{HasFaulted, IsRead, IsRecovered, IsRefused};

use crate::reading::{Reading, read_world};
use action_log::segments_read_once;
use capture_core::Capture;
use disk_model::{Disk, FourFiles};
use engine::{Engine, event_laws, keeper_laws};
use recovery::crash_restarts;
use std::alloc::Global;
use world_actions::Refusal;

/// A world that was recovered from its files, at the beginning of its start.
#[derive(Drop)]
pub struct Start<C: Capture, D: Disk> {
    pub engine: Engine<C, D>,
    /// The words of the world, in the order of their cells.
    pub words: Vec<u64>,
    /// The tick of the image that the world was built from.
    pub from: u64,
}

/// Recovers the world in the files, which are only read. Its start, which is still to be run, is
/// the first to write. It takes all memory that the world needs besides its batches. If it is
/// refused, it gives the files back.
pub fn recover_world<C: Capture, D: Disk>(
    alloc: Global,
    files: FourFiles<D>,
) -> Result<Start<C, D>, (FourFiles<D>, Refusal)>
    ensures kept { IsTrue D.honest → MatchResult result
        (λ begun. EachFile files begun.engine.files (KeepsFile D.Disk))
        (λ refused. EachFile files refused.0 (KeepsFile D.Disk)) }
    ensures ahead { IfOk result (λ begun. IsAhead begun.engine begun.words.items) }
    ensures recovered { IfOk result (λ begun. IsRecovered D.Disk files
        begun.engine begun.engine.ended begun.from) }
    ensures read { IsTrue D.honest → IfOk result (λ begun.
        IsRead D.Disk files begun.engine begun.from) }
    ensures refused { IfErr result (λ refused. IsRefused D.Disk files refused.1) }
    ensures no_fault { IfOk result (λ begun.
        fault_counts D.faults begun.engine.files ≡ fault_counts D.faults files) }
    ensures device { IfErr result (λ refused. HasFaulted D.faults files refused.0 refused.1) }
{
    event_laws();
    keeper_laws::<D>();
    segments_read_once();
    crash_restarts();
    let mut files = files;
    match read_world(alloc, &mut files) {
        Ok(Reading { found, shut }) => {
            let newest = Some((found.slot, found.from));
            let engine = Engine::begin(alloc, newest, found.tick, &found.words, shut, files)?;
            Ok(Start {
                engine,
                words: found.words,
                from: found.from,
            })
        }
        Err(refusal) => Err((files, refusal)),
    }
}
