//! Ticks that are replayed from the bytes of their segment, without a list of them.
ghost use Rattle.std.specs.Prelude.{◌≡◌, ◌≤◌, List, ℕ, false, length, Some, Ok, Err, IsErr, IfOk};
ghost use Rattle.std.specs.Prelude.{IfErr};
ghost use Rattle.world_actions.specs.declared.refusal.Refusal.TheVariants.{BadLog};
ghost use Rattle.world_ticks.specs.After.{after_actions};
ghost use Rattle.action_log.specs.declared.format.TheConstants.{SEGMENT_TICKS};
ghost use Rattle.action_log.specs.Segment.{Tick, joined, actions_of};
ghost use Rattle.action_log.specs.HeldLog.{IsRefusedAt};
ghost use Rattle.action_log.specs.Reading.{tick_at, group_at, groups_of, ticks_of};

use super::extent::Extent;
use super::ticks::{action_count, behind_gate, read_action, tick_count};
use crate::format::FIRST_GROUP;
use file_format::Format;
use world_actions::Refusal;
use world_ticks::{Cells, replay};

// Replays the actions of a tick, and returns the bytes after it.
fn replay_tick<'a, C: Cells>(
    format: Format,
    bytes: &'a [u8],
    c: &mut C,
) -> Result<&'a [u8], Refusal>
    ensures done { IfOk result (λ rest. (tick : Tick)
        × (tick_at format bytes.now ≡ Some (tick, rest.now))
        × (after_actions (C.words c.old) tick ≡ Ok (C.words c.new))) }
    ensures refused { IfErr result (λ refusal. (refusal ≡ BadLog)
        × ((tick : Tick) (rest : List ℕ) → tick_at format bytes.now ≡ Some (tick, rest)
        → IsErr (after_actions (C.words c.old) tick))) }
{
    let Some((count, mut rest)) = action_count(bytes) else {
        return Err(Refusal::BadLog);
    };
    for _ in 0..count {
        let Some((action, next)) = read_action(format, rest) else {
            return Err(Refusal::BadLog);
        };
        replay(c, &[action])?;
        rest = next;
    }
    Ok(rest)
}

// Replays the ticks of a group after its gate, and returns how many they are, and the bytes after
// it.
fn replay_group<'a, C: Cells>(
    format: Format,
    bytes: &'a [u8],
    c: &mut C,
) -> Result<(usize, &'a [u8]), Refusal>
    ensures done { IfOk result (λ found. (ticks : List Tick)
        × (group_at format bytes.now ≡ Some (ticks, found.1.now)) × (length ticks ≡ found.0)
        × (after_actions (C.words c.old) (actions_of ticks) ≡ Ok (C.words c.new))) }
    ensures refused { IfErr result (λ refusal. (refusal ≡ BadLog)
        × ((ticks : List Tick) (rest : List ℕ) → group_at format bytes.now ≡ Some (ticks, rest)
        → IsErr (after_actions (C.words c.old) (actions_of ticks)))) }
{
    let Some((count, mut rest)) = tick_count(bytes) else {
        return Err(Refusal::BadLog);
    };
    for _ in 0..count {
        rest = replay_tick(format, rest, c)?;
    }
    Ok((count, rest))
}

/// Replays the ticks of all groups, and returns how many they are. At most `most` ticks are
/// allowed. It takes no memory. It stops at a group that isn't whole, has too many ticks, or has a
/// refused action, and returns how far the groups before it go.
pub(super) fn replay_groups<C: Cells>(
    format: Format,
    bytes: &[u8],
    most: usize,
    c: &mut C,
) -> Result<usize, Extent>
    requires { most ≤ SEGMENT_TICKS }
    ensures done { IfOk result (λ count. (ticks : List Tick)
        × (ticks_of format bytes.now ≡ Some ticks) × (length ticks ≡ count) × (count ≤ most)
        × (after_actions (C.words c.old) (actions_of ticks) ≡ Ok (C.words c.new))) }
    ensures stopped { IfErr result (λ extent. (groups : List (List Tick))
        → groups_of format bytes.now ≡ Some groups → length (joined groups) ≤ most
        → IsRefusedAt groups (C.words c.old) extent.groups_end extent.ticks) }
    ensures gate { IfErr result (λ extent. extent.ended ≡ false) }
{
    let mut ticks = 0;
    let mut rest = bytes;
    while let Some(group) = behind_gate(rest) {
        let before = Extent {
            groups_end: FIRST_GROUP + (bytes.len() - rest.len()),
            ticks,
            ended: false,
        };
        let Ok((more, next)) = replay_group(format, group, c) else {
            return Err(before);
        };
        if more > most - ticks {
            return Err(before);
        }
        ticks += more;
        rest = next;
    }
    Ok(ticks)
}
