ghost use Rattle.std.specs.Prelude.{◌≡◌, ◌+◌, ◌≤◌, Bool, List, ℕ, IsTrue, length, take, drop, IfOk};
ghost use Rattle.std.specs.Prelude.{OnOk, OnErr, is_ok};
ghost use Rattle.file_format.specs.Number.{IsBytes};
ghost use Rattle.disk_model.specs.Disk.{overwritten, Torn, Follows, Only, Within, HasByte, counted};
ghost use Rattle.disk_model.specs.Disk.{IsDeviceFault, last_count, Call, Length, Read, Write, Sync};

use world_actions::Refusal;

/// A file whose calls may fail. A crash may leave it in one of several outcomes.
pub trait Disk {
    /// The bytes that a read gives.
    ghost content: { Self → List ℕ };

    /// A crash now may leave these bytes.
    ghost may_leave: { Self → List ℕ → Type 0 };

    /// True if each file of this type keeps to the disk model. If it is false, contracts state only
    /// the faults and the calls.
    ghost honest: { Bool };

    /// The number of failures of the device, up to the last value of the count.
    ghost faults: { Self → ℕ };

    /// This call, which succeeded or failed, may lead from the first state to the second.
    ghost called: { Self → Call → Bool → Self → Type 0 };

    /// Returns the length of the content.
    fn len(&mut self) -> Result<u64, Refusal>
        ensures length { IsTrue honest → IfOk result (λ len. len ≡ length (content self.old)) }
        ensures content { IsTrue honest → content self.new ≡ content self.old }
        ensures crash { IsTrue honest → Within (may_leave self.old) (may_leave self.new) }
        ensures faults { faults self.new ≡ counted (faults self.old) result }
        ensures device { IsDeviceFault result }
        ensures called { called self.old Length (is_ok result) self.new };

    /// Reads bytes that lie inside the file. A failed read changes nothing of the file, and may
    /// leave any bytes in the buffer.
    fn read_at(&mut self, at: u64, into: &mut [u8]) -> Result<(), Refusal>
        requires { IsTrue honest → at + length into.old ≤ length (content self.old) }
        ensures read { IsTrue honest
            → OnOk result (into.new ≡ take (length into.old) (drop at (content self.old))) }
        ensures content { IsTrue honest → content self.new ≡ content self.old }
        ensures crash { IsTrue honest → Within (may_leave self.old) (may_leave self.new) }
        ensures faults { faults self.new ≡ counted (faults self.old) result }
        ensures device { IsDeviceFault result }
        ensures called { called self.old (Read at (length into.old)) (is_ok result) self.new };

    /// Writes over the bytes from a place on, and past the end. Until a sync a crash may leave any
    /// bytes in the range. After a failure reads may give any bytes there too.
    fn write_at(&mut self, at: u64, bytes: &[u8]) -> Result<(), Refusal>
        requires { IsTrue honest → at ≤ length (content self.old) }
        ensures written { IsTrue honest
            → OnOk result (content self.new ≡ overwritten (content self.old) at bytes.now) }
        ensures torn { IsTrue honest
            → OnErr result (Torn at (length bytes.now) (content self.old) (content self.new)) }
        ensures crash { IsTrue honest
            → Follows (Torn at (length bytes.now)) (may_leave self.old) (may_leave self.new) }
        ensures faults { faults self.new ≡ counted (faults self.old) result }
        ensures device { IsDeviceFault result }
        ensures called { called self.old (Write at bytes.now) (is_ok result) self.new };

    /// Makes the content durable: a crash then leaves the bytes that a read gives. A failed sync
    /// makes nothing durable.
    fn sync(&mut self) -> Result<(), Refusal>
        ensures durable { IsTrue honest
            → OnOk result (Only (content self.old) (may_leave self.new)) }
        ensures content { IsTrue honest → content self.new ≡ content self.old }
        ensures crash { IsTrue honest → Within (may_leave self.old) (may_leave self.new) }
        ensures faults { faults self.new ≡ counted (faults self.old) result }
        ensures device { IsDeviceFault result }
        ensures called { called self.old Sync (is_ok result) self.new };

    /// A crash may leave the bytes that a read gives.
    ghost stays: { (disk : Self) → IsTrue Self.honest → may_leave disk (content disk) };

    /// A crash leaves bytes, so reads give bytes too.
    ghost are_bytes: { (disk : Self) (left : List ℕ) → IsTrue Self.honest → may_leave disk left
        → IsBytes left };

    /// No call empties a file: if each outcome of a crash had a byte, it still has one.
    ghost keeps_byte: { (old new : Self) (call : Call) (succeeded : Bool) → IsTrue Self.honest
        → called old call succeeded new → HasByte (may_leave old) → HasByte (may_leave new) };

    /// The count is at most its bound.
    ghost few_faults: { (disk : Self) → faults disk ≤ last_count };
}
