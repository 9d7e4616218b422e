ghost use Rattle.std.specs.Prelude.{◌≡◌, ◌⊎◌, IsTrue, IfOk, IfErr};
ghost use Rattle.disk_model.specs.FourFiles.{KeepsFile, counted_device};

use crate::Disk;
use std::alloc::Global;
use world_actions::Refusal;

/// Reads all bytes of a file, in one read.
pub fn read_all<D: Disk>(alloc: Global, disk: &mut D) -> Result<Vec<u8>, Refusal>
    ensures bytes { IsTrue D.honest → IfOk result (λ bytes. bytes.items ≡ D.content disk.old) }
    ensures kept { IsTrue D.honest → KeepsFile D.Disk disk.old disk.new }
    ensures faults { D.faults disk.new ≡ counted_device (D.faults disk.old) result }
    ensures refused { IfErr result (λ refusal.
        (refusal ≡ Refusal.Device) ⊎ (refusal ≡ Refusal.NoMemory)) }
{
    let len = disk.len()?;
    let mut bytes = vec![in alloc; 0; len as usize]?;
    disk.read_at(0, &mut bytes)?;
    Ok(bytes)
}
