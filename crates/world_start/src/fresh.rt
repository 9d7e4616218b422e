ghost use Rattle.std.specs.Prelude.{◌≡◌, ◌⊎◌, ◌≤◌, [], false, replicate, IsTrue, IfOk};
ghost use Rattle.std.specs.Prelude.{IfErr, OnOk};
ghost use Rattle.world_actions.specs.declared.world.TheConstants.{CELLS};
ghost use Rattle.disk_model.specs.FourFiles.{EachFile, KeepsFile, fault_counts};
ghost use Rattle.image_files.specs.declared.phase.Phase.TheVariants.{Down};
ghost use Rattle.engine.specs.Begins.{AreGates};
ghost use Rattle.world_start.specs.Steps.{IsBegunFresh};
ghost use Rattle.world_start.specs.Opening.{HasFaulted};
ghost use Rattle.world_start.specs.Fresh.{AreMade, AreNotMade, FilesAreClosed};

use crate::closed::are_closed;
use crate::reading::gates_of;
use action_log::log_outcomes;
use capture_core::{Capture, PlainCopy};
use disk_model::{Disk, FourFiles};
use engine::{Engine, event_laws, followed_files_are_sound, keeper_laws};
use file_readers::read_files;
use image_files::images_stay;
use restart::{gates_are_reported, zeros};
use std::alloc::Global;
use world_actions::Refusal;

/// Makes the files of a world of zeros at tick 0 from files that hold no world, by the start of
/// a fresh world. It refuses with `NotEmpty` if one of them isn't closed. If it refuses, it
/// gives the files back.
pub fn fresh_files<D: Disk>(
    alloc: Global,
    cells: u32,
    files: FourFiles<D>,
) -> Result<FourFiles<D>, (FourFiles<D>, Refusal)>
    requires { (1 ≤ cells) × (cells ≤ CELLS) }
    ensures made { IsTrue D.honest → IfOk result (AreMade D.Disk files cells) }
    ensures refused { IfErr result (λ refused. (refused.1 ≡ Refusal.NotEmpty)
        ⊎ ((refused.1 ≡ Refusal.NoMemory) ⊎ (refused.1 ≡ Refusal.Device))) }
    ensures left { IsTrue D.honest → IfErr result (λ refused.
        AreNotMade D.Disk files cells refused.1 refused.0) }
    ensures device { IfErr result (λ refused. HasFaulted D.faults files refused.0 refused.1) }
    ensures no_fault { IfOk result (λ made. fault_counts D.faults made
        ≡ fault_counts D.faults files) }
{
    images_stay::<D>();
    log_outcomes::<D>();
    keeper_laws::<D>();
    followed_files_are_sound::<D>();
    let mut engine = begin_fresh::<PlainCopy, D>(alloc, cells, files)?;
    match engine.start() {
        Ok(()) => {
            engine.in_order();
            Ok(engine.into_files())
        }
        Err(refusal) => Err((engine.into_files(), refusal)),
    }
}

// A fresh world at the beginning of its start. The files are only read.
fn begin_fresh<C: Capture, D: Disk>(
    alloc: Global,
    cells: u32,
    files: FourFiles<D>,
) -> Result<Engine<C, D>, (FourFiles<D>, Refusal)>
    requires { (1 ≤ cells) × (cells ≤ CELLS) }
    ensures begun { IsTrue D.honest → IfOk result (
        IsBegunFresh D.Disk files cells) }
    ensures idle { IfOk result (λ world. world.running ≡ []) }
    ensures kept { IsTrue D.honest → IfErr result (λ refused.
        EachFile files refused.0 (KeepsFile D.Disk)) }
    ensures refused { IfErr result (λ refused. (refused.1 ≡ Refusal.NotEmpty)
        ⊎ ((refused.1 ≡ Refusal.NoMemory) ⊎ (refused.1 ≡ Refusal.Device))) }
    ensures not_empty { IsTrue D.honest → IfErr result (λ refused.
        refused.1 ≡ Refusal.NotEmpty → ¬ FilesAreClosed D.content files) }
    ensures up { IfOk result (λ world. (world.images.phase ≡ Down → ⊥)
        × (world.log.down ≡ false)) }
    ensures no_fault { IfOk result (λ world.
        fault_counts D.faults world.files ≡ fault_counts D.faults files) }
    ensures device { IfErr result (λ refused. HasFaulted D.faults files refused.0 refused.1) }
{
    event_laws();
    keeper_laws::<D>();
    let mut files = files;
    match empty_world(alloc, cells, &mut files) {
        Ok((words, shut)) => Engine::begin(alloc, None, 0, &words, shut, files),
        Err(refusal) => Err((files, refusal)),
    }
}

// The words of a fresh world, and which of the files are shut. These are only read, and hold
// no world.
fn empty_world<D: Disk>(
    alloc: Global,
    cells: u32,
    files: &mut FourFiles<D>,
) -> Result<(Vec<u64>, FourFiles<bool>), Refusal>
    ensures kept { IsTrue D.honest
        → EachFile files.old files.new (KeepsFile D.Disk) }
    ensures words { IfOk result (λ made. made.0.items ≡ replicate cells 0) }
    ensures gates { IsTrue D.honest → IfOk result (λ made. AreGates D.content files.new made.1) }
    ensures closed { IsTrue D.honest → OnOk result (FilesAreClosed D.content files.old) }
    ensures refused { IfErr result (λ refusal. (refusal ≡ Refusal.NotEmpty)
        ⊎ ((refusal ≡ Refusal.NoMemory) ⊎ (refusal ≡ Refusal.Device))) }
    ensures not_empty { IsTrue D.honest → IfErr result (λ refusal.
        refusal ≡ Refusal.NotEmpty → ¬ FilesAreClosed D.content files.old) }
    ensures no_fault { OnOk result
        (fault_counts D.faults files.new ≡ fault_counts D.faults files.old) }
    ensures device { IfErr result (HasFaulted D.faults files.old files.new) }
{
    gates_are_reported();
    let bytes = read_files(alloc, files)?;
    if !are_closed(alloc, &bytes) {
        return Err(Refusal::NotEmpty);
    }
    Ok((zeros(alloc, cells)?, gates_of(&bytes)))
}
