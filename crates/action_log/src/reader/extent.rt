ghost use Rattle.std.specs.Prelude.{◌≡◌, ◌≤◌, List, length, IfSome, IfNone};
ghost use Rattle.world_actions.specs.declared.action.Action.{Action};
ghost use Rattle.action_log.specs.declared.format.TheConstants.{SEGMENT_TICKS};
ghost use Rattle.action_log.specs.Segment.{joined};
ghost use Rattle.action_log.specs.Extent.{HasNoGroups, IsExtent, IsExtentOfFirst, counted_to};
ghost use Rattle.action_log.specs.Extent.{AreLeading};

use super::ticks::{behind_gate, count_group};
use crate::format::{FIRST_GROUP, HEADER_BYTES, SEGMENT_TICKS};
use file_format::{Format, OPEN_GATE, is_shut, marked_at};
use world_ticks::TICK_MAX;

/// How far the groups go that lead the bytes of a segment.
#[derive(Clone, Copy, Debug)]
pub struct Extent {
    /// The place after the last leading group that is whole and within the bounds of a segment.
    pub groups_end: usize,
    /// The number of ticks of these groups.
    pub ticks: usize,
    /// True if a gate stands at that place and isn't open.
    pub ended: bool,
}

/// Returns how far the groups go that lead the bytes, or `None` if the bytes have no open header.
/// The bytes may be the first ones of a segment, or a damaged segment. `segment_extents` states
/// what follows for the whole segment. It takes no memory.
pub fn extent_of(bytes: &[u8]) -> Option<Extent>
    ensures some { IfSome result (λ extent.
        IsExtent bytes.now extent.groups_end extent.ticks extent.ended) }
    ensures none { IfNone result (HasNoGroups bytes.now) }
{
    extent_after(bytes, None)
}

/// Returns the same as `extent_of`, and counts on from the extent of the first of these bytes, if
/// it is known. It reads no group a second time.
pub fn extent_after(bytes: &[u8], known: Option<Extent>) -> Option<Extent>
    requires { IfSome known (IsExtentOfFirst bytes.now) }
    ensures some { IfSome result (λ extent.
        IsExtent bytes.now extent.groups_end extent.ticks extent.ended) }
    ensures none { IfNone result (HasNoGroups bytes.now) }
{
    if bytes.len() < HEADER_BYTES || bytes[0] != OPEN_GATE {
        return None;
    }
    let (format, base) = marked_at(bytes)?;
    if base > TICK_MAX {
        return None;
    }
    let most = SEGMENT_TICKS.min((TICK_MAX - base) as usize);
    let (place, before) = counted_to(known);
    let (more, behind) = behind_groups(format, &bytes[place..], most - before);
    Some(Extent {
        groups_end: bytes.len() - behind.len(),
        ticks: before + more,
        ended: is_shut(behind),
    })
}

// Returns the place up to which groups are counted, and the number of their ticks.
fn counted_to(known: Option<Extent>) -> (usize, usize)
    ensures { result ≡ counted_to known }
{
    match known {
        Some(extent) => (extent.groups_end, extent.ticks),
        None => (FIRST_GROUP, 0),
    }
}

// Counts the ticks of the whole groups that lead these bytes, up to `most` ticks, and returns the
// bytes after them.
fn behind_groups(format: Format, bytes: &[u8], most: usize) -> (usize, &[u8])
    requires { most ≤ SEGMENT_TICKS }
    ensures { (groups : List (List (List Action)))
        × AreLeading format most bytes.now groups result.1.now
        × (length (joined groups) ≡ result.0) }
{
    let mut ticks = 0;
    let mut rest = bytes;
    while let Some(group) = behind_gate(rest) {
        let Some((more, _, next)) = count_group(format, group) else {
            return (ticks, rest);
        };
        if more > most - ticks {
            return (ticks, rest);
        }
        ticks += more;
        rest = next;
    }
    (ticks, rest)
}
