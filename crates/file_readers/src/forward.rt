ghost use Rattle.std.specs.Prelude.{◌≡◌, ◌⊎◌, ◌++◌, ◌-◌, ◌≤◌, Bool, length, take, drop, IsTrue};
ghost use Rattle.std.specs.Prelude.{IfErr, OnOk};
ghost use Rattle.disk_model.specs.Disk.{Read};
ghost use Rattle.disk_model.specs.FourFiles.{KeepsFile, counted_device};

use disk_model::Disk;
use world_actions::Refusal;

/// Reads a file on from after these bytes up to a place, by one call, or by none if the bytes
/// already end there. It reserves exactly the memory for them.
pub fn read_forward<D: Disk>(disk: &mut D, bytes: &mut Vec<u8>, end: usize) -> Result<(), Refusal>
    requires further { length bytes.old.items ≤ end }
    requires inside { IsTrue D.honest → end ≤ length (D.content disk.old) }
    ensures read { IsTrue D.honest
        → OnOk result (bytes.old.items ≡ take (length bytes.old.items) (D.content disk.old)
        → bytes.new.items ≡ take end (D.content disk.old)) }
    ensures longer { OnOk result ((length bytes.new.items ≡ end)
        × (take (length bytes.old.items) bytes.new.items ≡ bytes.old.items)) }
    ensures kept { IsTrue D.honest → KeepsFile D.Disk disk.old disk.new }
    ensures faults { D.faults disk.new ≡ counted_device (D.faults disk.old) result }
    ensures asked { (disk.new ≡ disk.old) ⊎ ((succeeded : Bool)
        × D.called disk.old
        (Read (length bytes.old.items) (end - length bytes.old.items)) succeeded disk.new) }
    ensures refused { IfErr result (λ refusal.
        (refusal ≡ Refusal.Device) ⊎ (refusal ≡ Refusal.NoMemory)) }
{
    let start = bytes.len();
    if start == end {
        return Ok(());
    }
    bytes.reserve_exact(end - start)?;
    bytes.resize(end, 0)?;
    read_behind(disk, bytes, start)
}

// Reads a file into these bytes from a place on.
fn read_behind<D: Disk>(disk: &mut D, bytes: &mut [u8], at: usize) -> Result<(), Refusal>
    requires place { at ≤ length bytes.old }
    requires inside { IsTrue D.honest → length bytes.old ≤ length (D.content disk.old) }
    ensures read { IsTrue D.honest → OnOk result
        (bytes.new ≡ take at bytes.old
        ++ take (length bytes.old - at) (drop at (D.content disk.old))) }
    ensures front { take at bytes.new ≡ take at bytes.old }
    ensures length { length bytes.new ≡ length bytes.old }
    ensures kept { IsTrue D.honest → KeepsFile D.Disk disk.old disk.new }
    ensures faults { D.faults disk.new ≡ counted_device (D.faults disk.old) result }
    ensures asked { (succeeded : Bool)
        × D.called disk.old (Read at (length bytes.old - at)) succeeded disk.new }
    ensures refused { IfErr result (λ refusal. refusal ≡ Refusal.Device) }
{
    disk.read_at(at as u64, &mut bytes[at..])
}
