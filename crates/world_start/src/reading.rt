ghost use Rattle.std.specs.Prelude.{◌≡◌, ◌≤◌, IsTrue, IfOk, IfErr};
ghost use Rattle.world_actions.specs.World.{IsWorld};
ghost use Rattle.world_ticks.specs.declared.tick.TheConstants.{TICK_MAX};
ghost use Rattle.disk_model.specs.FourFiles.{EachFile, KeepsFile, fault_counts};
ghost use Rattle.restart.specs.Start.{is_shut as is_shut_file};
ghost use Rattle.engine.specs.Begins.{AreGates};
ghost use Rattle.world_start.specs.Opening.{HasFaulted, IsRefused};
ghost use Rattle.world_start.specs.Steps.{IsFound};

use disk_model::{Disk, FourFiles};
use engine::known_shut;
use file_readers::read_files;
use recovery::{Recovered, recover};
use restart::gates_are_reported;
use std::alloc::Global;
use world_actions::Refusal;

/// The recovery of four files, and which of them are shut.
#[derive(Drop)]
pub struct Reading {
    pub found: Recovered,
    pub shut: FourFiles<bool>,
}

/// Reads the files and recovers their world. They are only read.
pub fn read_world<D: Disk>(alloc: Global, files: &mut FourFiles<D>) -> Result<Reading, Refusal>
    ensures kept { IsTrue D.honest
        → EachFile files.old files.new (KeepsFile D.Disk) }
    ensures found { IfOk result (λ read. IsFound D.Disk files.old read.found) }
    ensures world { IfOk result (λ read. IsWorld read.found.words.items) }
    ensures numbered { IfOk result (λ read. read.found.tick ≤ TICK_MAX) }
    ensures gates { IsTrue D.honest → IfOk result (λ read.
        AreGates D.content files.new read.shut) }
    ensures refused { IfErr result (IsRefused D.Disk files.old) }
    ensures no_fault { IfOk result (λ _.
        fault_counts D.faults files.new ≡ fault_counts D.faults files.old) }
    ensures device { IfErr result (HasFaulted D.faults files.old files.new) }
{
    gates_are_reported();
    let bytes = read_files(alloc, files)?;
    let found = recover(
        alloc,
        &bytes.image_a,
        &bytes.image_b,
        &bytes.log_a,
        &bytes.log_b,
    )?;
    Ok(Reading {
        found,
        shut: gates_of(&bytes),
    })
}

/// Says of the bytes of each file if it is shut.
pub fn gates_of(bytes: &FourFiles<Vec<u8>>) -> FourFiles<bool>
    ensures image_a { result.image_a ≡ is_shut_file bytes.now.image_a.items }
    ensures image_b { result.image_b ≡ is_shut_file bytes.now.image_b.items }
    ensures log_a { result.log_a ≡ is_shut_file bytes.now.log_a.items }
    ensures log_b { result.log_b ≡ is_shut_file bytes.now.log_b.items }
{
    FourFiles {
        image_a: known_shut(&bytes.image_a),
        image_b: known_shut(&bytes.image_b),
        log_a: known_shut(&bytes.log_a),
        log_b: known_shut(&bytes.log_b),
    }
}
