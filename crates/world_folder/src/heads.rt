//! The findings in the heads of four files: which image is the newest, and which
//! segments the log has.
ghost use Rattle.std.specs.Prelude.{◌≡◌, ◌⊎◌, ◌≤◌, take, length, IsTrue, IfOk, IfErr};
ghost use Rattle.disk_model.specs.FourFiles.{KeepsFile};
ghost use Rattle.world_folder.specs.Heads.{opened_tick, opened_base, newest_tick, summary_of};
ghost use Rattle.world_folder.specs.Heads.{IsHeadAsked};

use disk_model::{Disk, FourFiles};
use file_format::{OPEN_GATE, Slot, u64_at};
use image_files::TICK_PLACE;
use std::alloc::Global;
use world_actions::Refusal;

/// The bytes of an image's head: its gate, its number of cells and its tick.
pub const IMAGE_HEAD: usize = image_files::HEADER_BYTES;

/// The bytes of a segment's head: its gate, its base, and the gate of its first group, which
/// isn't looked at.
pub const SEGMENT_HEAD: usize = action_log::HEADER_BYTES;

/// What the heads of four files say. Two that are alike have the same newest image, and the
/// same open segments.
#[derive(Clone, Copy, Debug, PartialEq, Eq)]
pub struct Summary {
    /// The open image with the greatest tick, and this tick.
    pub newest: Option<(Slot, u64)>,
    /// The base of log.a with the mark of its format, if it is open.
    pub log_a: Option<u64>,
    /// The base of log.b with the mark of its format, if it is open.
    pub log_b: Option<u64>,
}

/// Reads the first `most` bytes of a file, or all if it has fewer.
pub fn read_head<D: Disk>(alloc: Global, disk: &mut D, most: usize) -> Result<Vec<u8>, Refusal>
    ensures head { IsTrue D.honest
        → IfOk result (λ head. head.items ≡ take most (D.content disk.old)) }
    ensures asked { IfOk result (λ head. IsHeadAsked D.called head.items disk.old disk.new) }
    ensures kept { IsTrue D.honest → KeepsFile D.Disk disk.old disk.new }
    ensures refused { IfErr result (λ refusal. (refusal ≡ Refusal.Device)
        ⊎ (refusal ≡ Refusal.NoMemory)) }
{
    let length = disk.len()?.min(most as u64);
    let mut head = vec![in alloc; 0; length as usize]?;
    disk.read_at(0, &mut head)?;
    Ok(head)
}

/// Looks at the first bytes of four files, and at no more of each than its head.
pub fn summary_of(files: &FourFiles<Vec<u8>>) -> Summary
    ensures { result ≡ summary_of files.now.image_a.items files.now.image_b.items
        files.now.log_a.items files.now.log_b.items }
{
    Summary {
        newest: newest_of(opened_tick(&files.image_a), opened_tick(&files.image_b)),
        log_a: opened_base(&files.log_a),
        log_b: opened_base(&files.log_b),
    }
}

// The greater of two ticks, and the file that has it; image.a if both are alike.
fn newest_of(a: Option<u64>, b: Option<u64>) -> Option<(Slot, u64)>
    ensures { result ≡ newest_tick a b }
{
    match (a, b) {
        (Some(first), Some(second)) if first < second => Some((Slot::B, second)),
        (Some(first), _) => Some((Slot::A, first)),
        (None, Some(second)) => Some((Slot::B, second)),
        (None, None) => None,
    }
}

// The tick of an image, if it is open.
fn opened_tick(bytes: &[u8]) -> Option<u64>
    ensures { result ≡ opened_tick bytes.now }
{
    if bytes.len() < IMAGE_HEAD || bytes[0] != OPEN_GATE {
        return None;
    }
    Some(u64_at(bytes, TICK_PLACE))
}

// The base of a segment with the mark of its format, if it is open.
fn opened_base(bytes: &[u8]) -> Option<u64>
    ensures { result ≡ opened_base bytes.now }
{
    if bytes.len() < SEGMENT_HEAD || bytes[0] != OPEN_GATE {
        return None;
    }
    Some(u64_at(bytes, file_format::MARK_PLACE))
}
