ghost use Rattle.std.specs.Prelude.{◌≡◌};
ghost use Rattle.action_log.specs.Segment.{MalformedSegment, IsSegment};
ghost use Rattle.salvage.specs.Parts.{IsFormed, IsKept};
ghost use Rattle.salvage.specs.Replay.{part_before};

use action_log::{Extent, extent_of, judge_log, segment_extents};
use file_format::marked_at;

/// What is taken of a log file.
#[derive(Clone, Copy, Debug, PartialEq, Eq)]
pub enum LogPart {
    /// It holds no segment: it is closed, lost or empty.
    Closed,
    /// It is a whole segment, and all of it is taken. Its first tick is the one after `base`.
    Whole { base: u64, ticks: usize },
    /// The first `at` bytes and their ticks are taken. The rest is damaged or was refused.
    Cut { at: usize, base: u64, ticks: usize },
    /// Nothing of it is taken: no group leads it that is whole and accepted.
    Dropped,
}

impl LogPart {
    ghost use Rattle.std.specs.Prelude.{◌≡◌};
    ghost use Rattle.salvage.specs.Parts.{begins_at, kept_log, FitsIn};

    /// True if the ticks that are taken begin after this one.
    pub fn begins_at(&self, tick: u64) -> bool
        ensures { result ≡ begins_at tick self.now }
    {
        match self {
            LogPart::Whole { base, .. } => *base == tick,
            LogPart::Cut { base, .. } => *base == tick,
            _ => false,
        }
    }

    /// Returns the bytes of a file that are taken.
    pub fn kept<'a>(&self, bytes: &'a [u8]) -> &'a [u8]
        requires { FitsIn self.now bytes.now }
        ensures { result.now ≡ kept_log self.now bytes.now }
    {
        match self {
            LogPart::Cut { at, .. } => &bytes[..*at],
            LogPart::Dropped => &[],
            _ => bytes,
        }
    }
}

/// Judges a log file only by its bytes, before anything of it is replayed. It takes no memory.
pub fn formed_part(bytes: &[u8]) -> LogPart
    ensures part { IsFormed bytes.now result }
    ensures kept { IsKept bytes.now result }
{
    match judge_log(bytes) {
        Ok(None) => LogPart::Closed,
        Ok(Some((log, counts))) => LogPart::Whole {
            base: log.base,
            ticks: counts.ticks,
        },
        Err(_) => leading_part(bytes),
    }
}

// Cuts a malformed segment after its leading groups.
fn leading_part(bytes: &[u8]) -> LogPart
    requires { IsSegment bytes.now MalformedSegment }
    ensures part { IsFormed bytes.now result }
    ensures kept { IsKept bytes.now result }
{
    segment_extents();
    let Some(extent) = extent_of(bytes) else {
        return LogPart::Dropped;
    };
    let Some((_, base)) = marked_at(bytes) else {
        return LogPart::Dropped;
    };
    part_before(base, extent)
}

/// Returns the part of a segment with these leading groups.
pub fn part_before(base: u64, leading: Extent) -> LogPart
    ensures { result ≡ part_before base leading.groups_end leading.ticks }
{
    if leading.ticks == 0 {
        return LogPart::Dropped;
    }
    LogPart::Cut {
        at: leading.groups_end,
        base,
        ticks: leading.ticks,
    }
}
