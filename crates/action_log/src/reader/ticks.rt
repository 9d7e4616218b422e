#![tactic(auto, unfolding(crate::specs::Reading::number_at, crate::specs::Reading::two_at, crate::specs::Reading::fields_at, crate::specs::Reading::action_at))]

ghost use Rattle.std.specs.Prelude.{◌≡◌, ◌≤◌, ◌<◌, ◌*◌, ℕ, [], ◌∷◌, List, length, Some, None};
ghost use Rattle.std.specs.Prelude.{◌++◌, IfSome, IfNone, IfOk, IfErr};
ghost use Rattle.world_actions.specs.declared.action.Action.{Action};
ghost use Rattle.file_format.specs.declared.format.Format.{Format};
ghost use Rattle.world_ticks.specs.declared.tick.TheConstants.{TICK_ACTIONS};
ghost use Rattle.action_log.specs.declared.format.TheConstants.{GROUP_TICKS, SEGMENT_TICKS};
ghost use Rattle.action_log.specs.Segment.{Tick, EndsGroups, joined, actions_of};
ghost use Rattle.action_log.specs.LogState.{listed};
ghost use Rattle.action_log.specs.Reading.{number_at, fields_at, action_at, several_at, tick_at};
ghost use Rattle.action_log.specs.Reading.{group_at, groups_of, ticks_of, found_in, RefusesWhere};
ghost use Rattle.action_log.specs.Reading.{HasWidth};

use crate::format::{ADD, CAP, GROUP_TICKS, SET, SWAP, TRANSFER, last_kind};
use file_format::{Format, OPEN_GATE, u16_at, u32_at, u64_at};
use std::alloc::Global;
use world_actions::{Action, Refusal};
use world_ticks::TICK_ACTIONS;

// Reads a number of two bytes, and returns it with the bytes after it.
fn read_u16(bytes: &[u8]) -> Option<(u16, &[u8])>
    ensures { found_in result ≡ number_at 2 bytes.now }
{
    if bytes.len() < 2 {
        return None;
    }
    Some((u16_at(bytes, 0), &bytes[2..]))
}

// Reads a number of four bytes, and returns it with the bytes after it.
fn read_u32(bytes: &[u8]) -> Option<(u32, &[u8])>
    ensures { found_in result ≡ number_at 4 bytes.now }
{
    if bytes.len() < 4 {
        return None;
    }
    Some((u32_at(bytes, 0), &bytes[4..]))
}

// Reads a number of eight bytes, and returns it with the bytes after it.
fn read_u64(bytes: &[u8]) -> Option<(u64, &[u8])>
    ensures { found_in result ≡ number_at 8 bytes.now }
{
    if bytes.len() < 8 {
        return None;
    }
    Some((u64_at(bytes, 0), &bytes[8..]))
}

// Reads the kind of an action of a format, and returns it with the bytes after it.
fn read_kind(format: Format, bytes: &[u8]) -> Option<(u8, &[u8])>
    ensures some { IfSome result (λ found.
        action_at format bytes.now ≡ fields_at found.0 found.1.now) }
    ensures none { IfNone result (action_at format bytes.now ≡ None) }
{
    let (kind, fields) = bytes.split_first()?;
    if *kind > last_kind(format) {
        return None;
    }
    Some((*kind, fields))
}

/// Reads an action of a format, and returns it with the bytes after it.
pub(super) fn read_action(format: Format, bytes: &[u8]) -> Option<(Action, &[u8])>
    ensures { found_in result ≡ action_at format bytes.now }
{
    let (kind, fields) = read_kind(format, bytes)?;
    read_fields(kind, fields)
}

// Reads the fields of an action of a kind, and returns the action with the bytes after it.
fn read_fields(kind: u8, fields: &[u8]) -> Option<(Action, &[u8])>
    ensures { found_in result ≡ fields_at kind fields.now }
{
    match kind {
        SET => {
            let (cell, rest) = read_u32(fields)?;
            let (value, rest) = read_u64(rest)?;
            Some((Action::Set { cell, value }, rest))
        }
        ADD => {
            let (cell, rest) = read_u32(fields)?;
            let (difference, rest) = read_u64(rest)?;
            let by = difference.cast_signed();
            Some((Action::Add { cell, by }, rest))
        }
        TRANSFER => {
            let (from, rest) = read_u32(fields)?;
            let (to, rest) = read_u32(rest)?;
            let (amount, rest) = read_u64(rest)?;
            Some((Action::Transfer { from, to, amount }, rest))
        }
        SWAP => {
            let (a, rest) = read_u32(fields)?;
            let (b, rest) = read_u32(rest)?;
            Some((Action::Swap { a, b }, rest))
        }
        CAP => {
            let (cell, rest) = read_u32(fields)?;
            let (value, rest) = read_u64(rest)?;
            Some((Action::Cap { cell, value }, rest))
        }
        _ => None,
    }
}

/// Returns the bytes after an open gate, if there is one.
pub(super) fn behind_gate(bytes: &[u8]) -> Option<&[u8]>
    ensures gate { IfSome result (λ group. bytes.now ≡ OPEN_GATE ∷ group.now) }
    ensures ends { IfNone result (EndsGroups bytes.now) }
{
    let (gate, group) = bytes.split_first()?;
    if *gate == OPEN_GATE {
        Some(group)
    } else {
        None
    }
}

/// Reads the number of a tick's actions, and returns it with the bytes after it.
pub(super) fn action_count(bytes: &[u8]) -> Option<(usize, &[u8])>
    ensures some { IfSome result (λ found. (format : Format)
        → tick_at format bytes.now ≡ several_at (action_at format) found.0 found.1.now) }
    ensures none { IfNone result ((format : Format) → tick_at format bytes.now ≡ None) }
    ensures most { IfSome result (λ found. found.0 ≤ TICK_ACTIONS) }
{
    let (count, rest) = read_u16(bytes)?;
    let count = count as usize;
    if count > TICK_ACTIONS {
        return None;
    }
    Some((count, rest))
}

/// Reads the number of ticks of a group after its gate, and returns it with the bytes after it.
pub(super) fn tick_count(bytes: &[u8]) -> Option<(usize, &[u8])>
    ensures some { IfSome result (λ found. (format : Format)
        → group_at format bytes.now ≡ several_at (tick_at format) found.0 found.1.now) }
    ensures none { IfNone result ((format : Format) → group_at format bytes.now ≡ None) }
    ensures most { IfSome result (λ found. found.0 ≤ GROUP_TICKS) }
{
    let (count, rest) = read_u16(bytes)?;
    let count = count as usize;
    if count < 1 || count > GROUP_TICKS {
        return None;
    }
    Some((count, rest))
}

// The number of bytes of the fields of a `SET`: a cell and a value.
const SET_BYTES: usize = 4 + 8;

// Returns the number of bytes of the fields of an action of a kind, if there is such a kind.
#[tactic(auto, using(crate::proofs::WidthLemmas::set_width, crate::proofs::WidthLemmas::add_width, crate::proofs::WidthLemmas::transfer_width, crate::proofs::WidthLemmas::swap_width, crate::proofs::WidthLemmas::cap_width))]
fn field_bytes(kind: u8) -> Option<usize>
    ensures some { IfSome result (HasWidth (fields_at kind)) }
    ensures none { IfNone result ((fields : List ℕ) → fields_at kind fields ≡ None) }
{
    match kind {
        SET => Some(SET_BYTES),
        ADD => Some(4 + 8),
        TRANSFER => Some(4 + 4 + 8),
        SWAP => Some(4 + 4),
        CAP => Some(4 + 8),
        _ => None,
    }
}

// Returns the number of a tick's actions, and the bytes after the tick, if there is one. It reads
// only the kinds of the actions. One of the same kind as the last one is as long.
fn count_tick(format: Format, bytes: &[u8]) -> Option<(usize, &[u8])>
    ensures some { IfSome result (λ found. (tick : List Action)
        × (tick_at format bytes.now ≡ Some (tick, found.1.now)) × (length tick ≡ found.0)) }
    ensures most { IfSome result (λ found. found.0 ≤ TICK_ACTIONS) }
    ensures none { IfNone result (tick_at format bytes.now ≡ None) }
{
    let (count, mut rest) = action_count(bytes)?;
    let mut last = SET;
    let mut width = SET_BYTES;
    for _ in 0..count {
        let (kind, fields) = read_kind(format, rest)?;
        if kind != last {
            width = field_bytes(kind)?;
        }
        if fields.len() < width {
            return None;
        }
        last = kind;
        rest = &fields[width..];
    }
    Some((count, rest))
}

/// The number of groups of a segment, and the numbers of ticks and actions in all of them.
#[derive(Clone, Copy, Debug, PartialEq, Eq)]
pub struct Counts {
    pub groups: usize,
    pub ticks: usize,
    pub actions: usize,
}

/// Counts the ticks and the actions of a group after its gate, and returns the bytes after it.
pub(super) fn count_group(format: Format, bytes: &[u8]) -> Option<(usize, usize, &[u8])>
    ensures some { IfSome result (λ found. (ticks : List (List Action))
        × (group_at format bytes.now ≡ Some (ticks, found.2.now)) × (length ticks ≡ found.0)
        × (length (actions_of ticks) ≡ found.1)) }
    ensures most { IfSome result (λ found. found.1 ≤ TICK_ACTIONS * found.0) }
    ensures none { IfNone result (group_at format bytes.now ≡ None) }
{
    let (count, mut rest) = tick_count(bytes)?;
    let mut actions = 0;
    for _ in 0..count {
        let (more, next) = count_tick(format, rest)?;
        actions += more;
        rest = next;
    }
    Some((count, actions, rest))
}

/// Counts all groups, their ticks and actions. At most `most` ticks are allowed. It
/// takes no memory.
pub(super) fn count_all(format: Format, bytes: &[u8], most: usize) -> Option<Counts>
    requires { most ≤ SEGMENT_TICKS }
    ensures some { IfSome result (λ counts. (groups : List (List (List Action)))
        × (groups_of format bytes.now ≡ Some groups) × (length groups ≡ counts.groups)
        × (length (joined groups) ≡ counts.ticks) × (counts.ticks ≤ most)
        × (length (actions_of (joined groups)) ≡ counts.actions)) }
    ensures none { IfNone result
        ((groups : List (List (List Action))) → groups_of format bytes.now ≡ Some groups
        → most < length (joined groups)) }
{
    let mut counts = Counts {
        groups: 0,
        ticks: 0,
        actions: 0,
    };
    let mut rest = bytes;
    while let Some(group) = behind_gate(rest) {
        let (ticks, actions, next) = count_group(format, group)?;
        if ticks > most - counts.ticks {
            return None;
        }
        counts.groups += 1;
        counts.ticks += ticks;
        counts.actions += actions;
        rest = next;
    }
    Some(counts)
}

// Reads a tick, and returns its actions, and the bytes after it.
fn read_tick(alloc: Global, format: Format, bytes: &[u8]) -> Result<(Vec<Action>, &[u8]), Refusal>
    ensures read { IfOk result (λ found.
        tick_at format bytes.now ≡ Some (found.0.items, found.1.now)) }
    ensures refused { IfErr result (RefusesWhere (tick_at format bytes.now ≡ None)) }
{
    let Some((count, mut rest)) = action_count(bytes) else {
        return Err(Refusal::BadLog);
    };
    let mut tick = Vec::with_capacity(alloc, count)?;
    for _ in 0..count {
        let Some((action, next)) = read_action(format, rest) else {
            return Err(Refusal::BadLog);
        };
        tick.push_reserved(action);
        rest = next;
    }
    Ok((tick, rest))
}

// Adds the ticks of a group after its gate, and returns the bytes after it.
fn read_group<'a>(
    alloc: Global,
    format: Format,
    bytes: &'a [u8],
    ticks: &mut Vec<Vec<Action>>,
) -> Result<&'a [u8], Refusal>
    ensures read { IfOk result (λ rest. (group : List Tick)
        × (group_at format bytes.now ≡ Some (group, rest.now))
        × (listed ticks.new.items ≡ listed ticks.old.items ++ group)) }
    ensures refused { IfErr result (RefusesWhere (group_at format bytes.now ≡ None)) }
{
    let Some((count, mut rest)) = tick_count(bytes) else {
        return Err(Refusal::BadLog);
    };
    for _ in 0..count {
        let (tick, next) = read_tick(alloc, format, rest)?;
        ticks.push(tick)?;
        rest = next;
    }
    Ok(rest)
}

/// Returns the ticks of all groups. It takes memory for as many ticks as were counted, and then
/// for the actions of each.
pub(super) fn read_ticks(
    alloc: Global,
    format: Format,
    bytes: &[u8],
    counts: Counts,
) -> Result<Vec<Vec<Action>>, Refusal>
    ensures read { IfOk result (λ ticks. ticks_of format bytes.now ≡ Some (listed ticks.items)) }
    ensures refused { IfErr result (RefusesWhere (ticks_of format bytes.now ≡ None)) }
{
    let mut ticks = Vec::with_capacity(alloc, counts.ticks)?;
    let mut rest = bytes;
    while let Some(group) = behind_gate(rest) {
        rest = read_group(alloc, format, group, &mut ticks)?;
    }
    Ok(ticks)
}
