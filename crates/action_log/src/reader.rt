ghost use Rattle.std.specs.Prelude.{◌≡◌, ◌⊎◌, ◌≤◌, ℕ, false, List, length, Ok, Err, IsErr, IfOk};
ghost use Rattle.std.specs.Prelude.{IfErr};
ghost use Rattle.world_actions.specs.declared.refusal.Refusal.TheVariants.{BadLog};
ghost use Rattle.world_ticks.specs.After.{after_actions};
ghost use Rattle.action_log.specs.Segment.{Tick, MalformedSegment, OpenSegment, IsSegment};
ghost use Rattle.action_log.specs.Segment.{IsOpenSegment, HasTicks, actions_of};
ghost use Rattle.action_log.specs.LogState.{segment_in};
ghost use Rattle.world_ticks.specs.declared.tick.TheConstants.{TICK_MAX};
ghost use Rattle.action_log.specs.HeldLog.{AreHeld, IsHeld, IsJudged, AreCounted, IsRefusedAt};
ghost use Rattle.action_log.specs.HeldLog.{segment_held, segment_of_held, ticks_most};

mod extent;
mod replay;
mod ticks;

pub use self::extent::{Extent, extent_after, extent_of};
use self::replay::replay_groups;
pub use self::ticks::Counts;
use self::ticks::{count_all, read_ticks};
use crate::format::{FIRST_GROUP, HEADER_BYTES, SEGMENT_TICKS};
use file_format::{Format, OPEN_GATE, marked_at};
use std::alloc::Global;
use world_actions::{Action, Refusal};
use world_ticks::{Cells, TICK_MAX};

/// The reading of a segment.
#[derive(Drop)]
pub enum LogState {
    /// It is closed, and holds nothing.
    Closed,
    /// It is open. `ticks` has the actions of each tick in order, and the first is the one after
    /// `base`.
    Open { base: u64, ticks: Vec<Vec<Action>> },
}

/// A segment that is open by its header, with the groups of a format. Its ticks are still in these
/// bytes, and aren't judged. The first one is the one after `base`.
#[derive(Clone, Copy)]
pub struct HeldLog<'a> {
    pub base: u64,
    pub format: Format,
    pub groups: &'a [u8],
}

impl HeldLog<'_> {
    // The greatest number of ticks that a segment may have after this base.
    fn most(&self) -> usize
        requires { self.now.base ≤ TICK_MAX }
        ensures { result ≡ ticks_most self.now.base }
    {
        SEGMENT_TICKS.min((TICK_MAX - self.base) as usize)
    }

    /// Counts the groups and their ticks and actions. It refuses with `BadLog` exactly if the
    /// segment is malformed. It takes no memory.
    pub fn count(&self) -> Result<Counts, Refusal>
        requires { self.now.base ≤ TICK_MAX }
        ensures counted { IfOk result (AreCounted self.now) }
        ensures refused { IfErr result (λ refusal. (refusal ≡ BadLog)
            × (segment_of_held self.now ≡ MalformedSegment)) }
    {
        match count_all(self.format, self.groups, self.most()) {
            Some(counts) => Ok(counts),
            None => Err(Refusal::BadLog),
        }
    }

    /// Replays the ticks on the cells while it judges them, and returns how many they are. It makes
    /// no list of them. If the segment is malformed, or an action is refused, it stops, and returns
    /// how far the groups before that go. The group itself may be replayed in part.
    pub fn replay<C: Cells>(&self, c: &mut C) -> Result<usize, Extent>
        requires { self.now.base ≤ TICK_MAX }
        ensures done { IfOk result (λ count. (ticks : List Tick)
            × (segment_of_held self.now ≡ OpenSegment self.now.base ticks)
            × (length ticks ≡ count)
            × (after_actions (C.words c.old) (actions_of ticks) ≡ Ok (C.words c.new))) }
        ensures refused { IfErr result (λ _. (ticks : List Tick)
            → segment_of_held self.now ≡ OpenSegment self.now.base ticks
            → IsErr (after_actions (C.words c.old) (actions_of ticks))) }
        ensures stopped { IfErr result (λ extent. (bytes : List ℕ) (base : ℕ) (ticks : List Tick)
            (segment : IsOpenSegment bytes base ticks) → AreHeld bytes self.now
            → IsRefusedAt segment.groups (C.words c.old) extent.groups_end extent.ticks) }
        ensures gate { IfErr result (λ extent. extent.ended ≡ false) }
    {
        replay_groups(self.format, self.groups, self.most(), c)
    }
}

/// Returns the segment of either format in these bytes, by its header, or `None` if it is closed.
/// It refuses with `BadLog` if the header is malformed.
pub fn held_log(bytes: &[u8]) -> Result<Option<HeldLog<'_>>, Refusal>
    ensures reads { IfOk result (λ held. IsSegment bytes.now (segment_held held)
        × IsHeld bytes.now held) }
    ensures refuses { IfErr result (λ refusal. (refusal ≡ BadLog)
        × IsSegment bytes.now MalformedSegment) }
{
    if bytes.len() < HEADER_BYTES || bytes[0] != OPEN_GATE {
        return Ok(None);
    }
    let Some((format, base)) = marked_at(bytes) else {
        return Err(Refusal::BadLog);
    };
    if base > TICK_MAX {
        return Err(Refusal::BadLog);
    }
    Ok(Some(HeldLog {
        base,
        format,
        groups: &bytes[FIRST_GROUP..],
    }))
}

/// Judges a segment of either format, and counts what it holds. It returns `None` if the segment is
/// closed, and refuses with `BadLog` exactly if it is malformed. It takes no memory.
pub fn judge_log(bytes: &[u8]) -> Result<Option<(HeldLog<'_>, Counts)>, Refusal>
    ensures reads { IfOk result (IsJudged bytes.now) }
    ensures refuses { IfErr result (λ refusal. (refusal ≡ BadLog)
        × IsSegment bytes.now MalformedSegment) }
{
    let Some(log) = held_log(bytes)? else {
        return Ok(None);
    };
    let counts = log.count()?;
    Ok(Some((log, counts)))
}

/// Reads a segment of either format, as recovery does. It refuses with `BadLog` exactly if the
/// segment is malformed. It refuses with `NoMemory` only if the segment has a tick. The segment is
/// judged, and its ticks are counted, before memory is taken for them.
pub fn read_log(alloc: Global, bytes: &[u8]) -> Result<LogState, Refusal>
    ensures reads { IfOk result (λ state. IsSegment bytes.now (segment_in state)) }
    ensures refuses { IfErr result (λ refusal. (refusal ≡ Refusal.NoMemory)
        ⊎ ((refusal ≡ Refusal.BadLog)
        × IsSegment bytes.now MalformedSegment)) }
    ensures memory { result ≡ Err Refusal.NoMemory → HasTicks bytes.now }
{
    let Some((log, counts)) = judge_log(bytes)? else {
        return Ok(LogState::Closed);
    };
    let ticks = if counts.ticks == 0 {
        Vec::new(alloc)
    } else {
        read_ticks(alloc, log.format, log.groups, counts)?
    };
    Ok(LogState::Open {
        base: log.base,
        ticks,
    })
}
