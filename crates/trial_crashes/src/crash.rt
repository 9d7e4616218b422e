ghost use Rattle.std.specs.Prelude.{◌≡◌, [], IfOk};
ghost use Rattle.disk_model.specs.Disk.{Only};
ghost use Rattle.disk_model.specs.CrashOutcome.{IsCrashOutcome};

use disk_model::{Fused, Leaving, ModelFile};
use std::alloc::Global;
use world_actions::Refusal;

/// How many crashes are tried at each step.
pub const KINDS: usize = 5;

/// The crashes that are tried at each step.
pub const CRASHES: [Leaving; KINDS] = [
    Leaving::Lose,
    Leaving::Keep,
    Leaving::Fill(0),
    Leaving::Fill(1),
    Leaving::Fill(0xff),
];

/// An empty file, whose calls can be made to fail.
pub fn empty_file(alloc: Global) -> Result<Fused<ModelFile>, Refusal>
    ensures content { IfOk result (λ file. file.inner.content ≡ []) }
    ensures leaves { IfOk result (λ file. Only [] (IsCrashOutcome file.inner)) }
{
    Ok(Fused::new(ModelFile::new(alloc, Vec::new(alloc))?))
}
