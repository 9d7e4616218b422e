ghost use Rattle.std.specs.Prelude.{◌≡◌, ◌⊎◌, ◌<◌, ◌≤◌, ℕ, Bool, false, min, [], List, Some};
ghost use Rattle.std.specs.Prelude.{length};
ghost use Rattle.std.specs.Prelude.{take, vec_capacity, IsTrue, IsOk, IfOk, IfErr, IfSome, IfNone};
ghost use Rattle.std.specs.Prelude.{OnOk};
ghost use Rattle.disk_model.specs.Disk.{Length};
ghost use Rattle.disk_model.specs.FourFiles.{KeepsFile, counted_device};
ghost use Rattle.world_actions.specs.declared.action.Action.{Action};
ghost use Rattle.action_log.specs.Extent.{HasNoGroups, IsExtent};
ghost use Rattle.action_log.specs.declared.reader.extent.Extent.{Extent};
ghost use Rattle.action_log.specs.Segment.{IsOpenSegment};
ghost use Rattle.action_log.specs.declared.format.TheConstants.{HEADER_BYTES, SEGMENT_BYTES_MAX};
ghost use Rattle.file_readers.specs.Reading.{IsSegmentRead};
ghost use Rattle.file_readers.specs.Asking.{OnlyAsked, furthest_piece};

use crate::forward::read_forward;
use action_log::{Extent, HEADER_BYTES, SEGMENT_BYTES_MAX, extent_after, segment_extents};
use disk_model::Disk;
use std::alloc::Global;
use world_actions::Refusal;

/// The number of bytes of the first piece in which a segment is read. Each next piece is as long
/// as all before it, up to `PIECE_BYTES_MAX`.
pub const PIECE_BYTES: usize = 65_536;

/// The greatest number of bytes of a piece.
pub const PIECE_BYTES_MAX: usize = 1_048_576;

/// Reads a segment file as far as its bytes count. It is read in pieces until a gate ends its
/// groups, or no later byte can make it a segment. Each piece is judged once, right after its call.
pub fn read_segment_file<D: Disk>(alloc: Global, disk: &mut D) -> Result<Vec<u8>, Refusal>
    ensures read { IsTrue D.honest
        → IfOk result (λ bytes. IsSegmentRead (D.content disk.old) bytes.items) }
    ensures exact { IfOk result (λ bytes. (base : ℕ) (ticks : List (List Action))
        → (segment : IsOpenSegment bytes.items base ticks) → length segment.rest ≤ 1) }
    ensures most { IfOk result (λ bytes. length bytes.items ≤ SEGMENT_BYTES_MAX) }
    ensures asked { OnlyAsked D.called SEGMENT_BYTES_MAX disk.old disk.new }
    ensures no_further { IfOk result (λ bytes.
        OnlyAsked D.called (furthest_piece (length bytes.items)) disk.old disk.new) }
    ensures kept { IsTrue D.honest → KeepsFile D.Disk disk.old disk.new }
    ensures faults { D.faults disk.new ≡ counted_device (D.faults disk.old) result }
    ensures refused { IfErr result (λ refusal.
        (refusal ≡ Refusal.Device) ⊎ (refusal ≡ Refusal.NoMemory)) }
{
    let mut most = length_that_counts(disk)?;
    let mut bytes = Vec::new(alloc);
    let mut end = most.min(PIECE_BYTES);
    let mut known = None;
    loop {
        reserve_pieces(&mut bytes, end, most)?;
        read_forward(disk, &mut bytes, end)?;
        known = extent_after(&bytes, known);
        most = length_by_now(disk, end, most, known)?;
        if let Some(count) = counting(&bytes, most, known) {
            bytes.truncate(count);
            return Ok(bytes);
        }
        end = most.min(PIECE_BYTES.max(end + end.min(PIECE_BYTES_MAX)));
    }
}

// Returns the number of the file's bytes, or of the longest segment's if they are fewer.
fn length_that_counts<D: Disk>(disk: &mut D) -> Result<usize, Refusal>
    ensures most { IfOk result (λ most. most ≤ SEGMENT_BYTES_MAX) }
    ensures honest { IsTrue D.honest
        → IfOk result (λ most. most ≡ min (length (D.content disk.old)) SEGMENT_BYTES_MAX) }
    ensures kept { IsTrue D.honest → KeepsFile D.Disk disk.old disk.new }
    ensures faults { D.faults disk.new ≡ counted_device (D.faults disk.old) result }
    ensures asked { (succeeded : Bool) × D.called disk.old Length succeeded disk.new }
    ensures refused { IfErr result (λ refusal. refusal ≡ Refusal.Device) }
{
    Ok(disk.len()?.min(SEGMENT_BYTES_MAX as u64) as usize)
}

// Returns how many bytes of a segment may be read. It asks again if all that there were have been
// read and no gate has ended the groups: another process may have added a group since.
fn length_by_now<D: Disk>(
    disk: &mut D,
    read: usize,
    most: usize,
    extent: Option<Extent>,
) -> Result<usize, Refusal>
    requires bound { most ≤ SEGMENT_BYTES_MAX }
    requires long { (read ≡ most) ⊎ (HEADER_BYTES ≤ read) }
    ensures same { IsTrue D.honest → most ≡ min (length (D.content disk.old)) SEGMENT_BYTES_MAX
        → IfOk result (λ now. now ≡ most) }
    ensures within { IfOk result (λ now. (most ≤ now) × (now ≤ SEGMENT_BYTES_MAX)) }
    ensures long { IfOk result (λ now. (read ≡ now) ⊎ (HEADER_BYTES ≤ read)) }
    ensures kept { IsTrue D.honest → KeepsFile D.Disk disk.old disk.new }
    ensures faults { D.faults disk.new ≡ counted_device (D.faults disk.old) result }
    ensures asked { (disk.new ≡ disk.old)
        ⊎ ((succeeded : Bool) × D.called disk.old Length succeeded disk.new) }
    ensures refused { IfErr result (λ refusal. refusal ≡ Refusal.Device) }
{
    match extent {
        Some(extent) if read == most && read >= HEADER_BYTES && !extent.ended => {
            Ok(length_that_counts(disk)?.max(most))
        }
        _ => Ok(most),
    }
}

// Reserves memory up to a place if there is less, and as much again for later pieces: for at most
// `most` bytes in all.
fn reserve_pieces(bytes: &mut Vec<u8>, end: usize, most: usize) -> Result<(), Refusal>
    requires further { length bytes.old.items ≤ end }
    requires inside { end ≤ most }
    requires bound { most ≤ SEGMENT_BYTES_MAX }
    ensures kept { bytes.new.items ≡ bytes.old.items }
    ensures reserved { OnOk result (end ≤ vec_capacity bytes.new) }
    ensures enough { end ≤ vec_capacity bytes.old → (bytes.new ≡ bytes.old) × IsOk result }
    ensures refused { IfErr result (λ refusal. refusal ≡ Refusal.NoMemory) }
{
    if bytes.capacity() < end {
        bytes.reserve_exact(most.min(2 * end) - bytes.len())?;
    }
    Ok(())
}

// Returns how many of the first bytes of a segment count, by their extent, or `None` if more of
// them have to be read. No more than `most` may be read: all bytes of the file, or as many as the
// longest segment has.
fn counting(bytes: &[u8], most: usize, extent: Option<Extent>) -> Option<usize>
    requires long { (length bytes.now ≡ most) ⊎ (HEADER_BYTES ≤ length bytes.now) }
    requires extent { IfSome extent (λ extent.
        IsExtent bytes.now extent.groups_end extent.ticks extent.ended) }
    requires headless { IfNone extent (HasNoGroups bytes.now) }
    ensures enough { IfSome result (λ count. (file : List ℕ)
        → bytes.now ≡ take (length bytes.now) file
        → length bytes.now ≤ most → most ≡ min (length file) SEGMENT_BYTES_MAX
        → IsSegmentRead file (take count bytes.now)) }
    ensures exact { IfSome result (λ count. (base : ℕ) (ticks : List (List Action))
        → (segment : IsOpenSegment (take count bytes.now) base ticks) → length segment.rest ≤ 1) }
    ensures within { IfSome result (λ count. count ≤ length bytes.now) }
    ensures no_fewer { IfSome result (λ count. (place groups_end ticks : ℕ)
        → place ≤ length bytes.now
        → IsExtent (take place bytes.now) groups_end ticks false → place ≤ count) }
    ensures more { IfNone result ((length bytes.now < most)
        × ((known : Extent) × (extent ≡ Some known) × (known.ended ≡ false))) }
{
    segment_extents();
    match extent {
        Some(extent) if extent.ended => Some(extent.groups_end + 1),
        Some(_) if bytes.len() < most => None,
        _ => Some(bytes.len()),
    }
}
