use super::segments::push_groups;
use action_log::{LogState, judge_log, read_log};
use std::alloc::Global;
use std::process::Abort;
use std::test::Fail;
use world_actions::{Action, Refusal};

// Base 0, and a group of the one tick `set 0 5`.
const ONE_TICK: [u8; 28] = [
    1, 0, 0, 0, 0, 0, 0, 0, 0, 1, 1, 0, 1, 0, 1, 0, 0, 0, 0, 5, 0, 0, 0, 0, 0, 0, 0, 0,
];

// The outcome of reading a segment: how many ticks it has, or none if it is closed.
fn outcome(alloc: Global, bytes: &[u8]) -> Result<Option<usize>, Refusal> {
    match read_log(alloc, bytes)? {
        LogState::Closed => Ok(None),
        LogState::Open { ticks, .. } => Ok(Some(ticks.len())),
    }
}

// True if these are the actions of each tick.
fn are_ticks(ticks: &[Vec<Action>], want: &[&[Action]]) -> bool {
    for i in 0..want.len() {
        match ticks.get(i) {
            Some(tick) if tick.as_slice() == want[i] => {}
            _ => return false,
        }
    }
    ticks.len() == want.len()
}

// True if a segment is open, with this base and these ticks' actions.
fn reads(alloc: Global, bytes: &[u8], want_base: u64, want: &[&[Action]]) -> bool {
    match read_log(alloc, bytes) {
        Ok(LogState::Open { base, ticks }) => base == want_base && are_ticks(&ticks, want),
        _ => false,
    }
}

// Asserts the outcomes of a segment of one tick that is cut at each place.
fn assert_cut(rt: &impl Abort, alloc: Global, bytes: &[u8; 28]) {
    for k in 0..29 {
        let want = match k {
            0..=9 => Ok(None),
            10..=26 => Err(Refusal::BadLog),
            _ => Ok(Some(1)),
        };
        assert_eq!(rt;
            outcome(alloc, &bytes[..k]),
            want,
            "{k} bytes, mark {}",
            bytes[8]
        );
    }
}

#[test]
fn reads_one_tick_cut_anywhere(rt: HostRuntime) {
    let alloc = rt.alloc();
    let mut bytes = ONE_TICK;
    let tick = [Action::Set { cell: 0, value: 5 }];
    for mark in [0x00, 0x20] {
        bytes[8] = mark;
        assert!(rt; reads(alloc, &bytes, 0, &[&tick]), "mark {mark}");
        assert_cut(&rt, alloc, &bytes);
    }
    for mark in [0x10, 0x1f, 0x2e, 0x30, 0xff] {
        bytes[8] = mark;
        let read = outcome(alloc, &bytes);
        assert_eq!(rt; read, Err(Refusal::BadLog), "mark {mark}");
    }
}

#[test]
fn reads_each_action(rt: HostRuntime) {
    let bytes = [
        1, 7, 0, 0, 0, 0, 0, 0, 0, // base 7
        1, 2, 0, // a group of two ticks
        2, 0, // two actions: move 0 1 9, add 0 -6
        3, 0, 0, 0, 0, 1, 0, 0, 0, 9, 0, 0, 0, 0, 0, 0, 0, //
        2, 0, 0, 0, 0, 0xfa, 0xff, 0xff, 0xff, 0xff, 0xff, 0xff, 0xff, //
        0, 0, // no action
        1, 1, 0, 0, 0, // a group of a tick with no action
        9, 1, 4, 4, // no open gate, and what follows it
    ];
    let transfer = Action::Transfer {
        from: 0,
        to: 1,
        amount: 9,
    };
    let add = Action::Add { cell: 0, by: -6 };
    assert!(rt; reads(rt.alloc(), &bytes, 7, &[&[transfer, add], &[], &[]]));
}

#[test]
fn reads_each_action_of_the_second_format(rt: HostRuntime) {
    let mut bytes = [
        1, 7, 0, 0, 0, 0, 0, 0, 0x20, // base 7
        1, 1, 0, // a group of a tick
        3, 0, // three actions: swap 1 2, cap 0 9, set 3 4
        4, 1, 0, 0, 0, 2, 0, 0, 0, //
        5, 0, 0, 0, 0, 9, 0, 0, 0, 0, 0, 0, 0, //
        1, 3, 0, 0, 0, 4, 0, 0, 0, 0, 0, 0, 0, //
        0, // a closed gate
    ];
    let swap = Action::Swap { a: 1, b: 2 };
    let cap = Action::Cap { cell: 0, value: 9 };
    let set = Action::Set { cell: 3, value: 4 };
    assert!(rt; reads(rt.alloc(), &bytes, 7, &[&[swap, cap, set]]));
    bytes[8] = 0;
    assert_eq!(rt; outcome(rt.alloc(), &bytes), Err(Refusal::BadLog));
}

// An open segment: a group of 32 ticks without an action, a group of one more, a closed gate,
// and bytes after it.
fn two_groups() -> [u8; 87] {
    let mut bytes = [0; 87];
    bytes[0] = 1;
    bytes[9..12].copy_from_slice(&[1, 32, 0]);
    bytes[76..81].copy_from_slice(&[1, 1, 0, 0, 0]);
    bytes[81..].copy_from_slice(&[0, 1, 1, 0, 0, 0]);
    bytes
}

fn assert_groups(rt: &impl Abort, bytes: &[u8], want: Option<usize>) {
    let groups = match judge_log(bytes) {
        Ok(Some((_, counts))) => Some(counts.groups),
        _ => None,
    };
    assert_eq!(rt; groups, want, "{} bytes", bytes.len());
}

// Asserts the groups of the segment, without and with the bytes after the closed gate.
fn assert_two_groups(rt: &impl Abort, bytes: &[u8; 87]) {
    assert_groups(rt, &bytes[..81], Some(2));
    assert_groups(rt, bytes, Some(2));
}

#[test]
fn counts_groups_of_an_open_segment(rt: HostRuntime) {
    for k in 0..29 {
        let want = if k < 27 { None } else { Some(1) };
        assert_groups(&rt, &ONE_TICK[..k], want);
    }
    assert_groups(&rt, &[1, 7, 0, 0, 0, 0, 0, 0, 0, 0], Some(0));
    let mut bytes = two_groups();
    assert_two_groups(&rt, &bytes);
    // a group of 33, and a segment that is closed
    bytes[10] = 33;
    assert_groups(&rt, &bytes, None);
    bytes[10] = 32;
    bytes[0] = 0;
    assert_groups(&rt, &bytes, None);
}

// A base with its gate, and the bytes after it.
fn joined(base: &[u8; 9], group: &[u8; 5]) -> [u8; 14] {
    let mut bytes = [0; 14];
    bytes[..9].copy_from_slice(base);
    bytes[9..].copy_from_slice(group);
    bytes
}

#[test]
fn refuses_what_is_out_of_bounds(rt: HostRuntime) {
    let last = [1, 0, 0, 0x64, 0xa7, 0xb3, 0xb6, 0xe0, 0x0d];
    let bad = Err(Refusal::BadLog);
    for (base, group, want) in [
        ([1, 0, 0, 0, 0, 0, 0, 0, 0], [1, 0, 0, 0, 0], bad), // no tick
        ([1, 0, 0, 0, 0, 0, 0, 0, 0], [1, 1, 0, 0, 0], Ok(Some(1))),
        ([1, 0, 0, 0, 0, 0, 0, 0, 0], [1, 1, 0, 1, 0], bad), // cut off in a tick
        (last, [0, 1, 0, 0, 0], Ok(Some(0))), // base 10^18 and no tick
        (last, [1, 1, 0, 0, 0], bad), // one more
        (
            [1, 1, 0, 0x64, 0xa7, 0xb3, 0xb6, 0xe0, 0x0d],
            [0, 0, 0, 0, 0],
            bad,
        ), // base 10^18 + 1
        ([2, 0, 0, 0, 0, 0, 0, 0, 0], [1, 0, 0, 0, 0], Ok(None)), // a gate that isn't open
    ] {
        let read = outcome(rt.alloc(), &joined(&base, &group));
        assert_eq!(rt; read, want, "{group:?} behind {base:?}");
    }
}

// A segment of a group of so many ticks without an action. It has bytes for 33 of them.
fn group_of(ticks: u8) -> [u8; 78] {
    let mut bytes = [0; 78];
    bytes[0] = 1;
    bytes[9] = 1;
    bytes[10] = ticks;
    bytes
}

// A segment of one tick of 256 actions `set 1 1`, and so many more.
fn tick_of(alloc: Global, more: u8) -> Result<Vec<u8>, Refusal> {
    let mut bytes = [1, 0, 0, 0, 0, 0, 0, 0, 0, 1, 1, 0, more, 1].to_vec(alloc)?;
    for _ in 0..256 + u32::from(more) {
        bytes.extend_from_slice(&[1, 1, 0, 0, 0, 1, 0, 0, 0, 0, 0, 0, 0])?;
    }
    Ok(bytes)
}

// The outcome of such a segment.
fn outcome_of_tick(alloc: Global, more: u8) -> Result<Option<usize>, Refusal> {
    let bytes = tick_of(alloc, more)?;
    outcome(alloc, &bytes)
}

// A segment with this mark, of one action of this kind. The action has as many bytes as
// the longest one.
fn action_of(mark: u8, kind: u8) -> [u8; 31] {
    let mut bytes = [0; 31];
    bytes[..14].copy_from_slice(&[1, 0, 0, 0, 0, 0, 0, 0, mark, 1, 1, 0, 1, 0]);
    bytes[14] = kind;
    bytes
}

#[test]
fn refuses_counts_of_ticks_and_actions(rt: HostRuntime) {
    for (ticks, want) in [(32, Ok(Some(32))), (33, Err(Refusal::BadLog))] {
        assert_eq!(rt;
            outcome(rt.alloc(), &group_of(ticks)),
            want,
            "{ticks} ticks"
        );
    }
    for (more, want) in [(0, Ok(Some(1))), (1, Err(Refusal::BadLog))] {
        let read = outcome_of_tick(rt.alloc(), more);
        assert_eq!(rt; read, want, "256 actions and {more}");
    }
}

#[test]
fn refuses_kinds(rt: HostRuntime) {
    let (one, bad) = (Ok(Some(1)), Err(Refusal::BadLog));
    // kinds 0 to 6 in each format
    for (mark, kinds) in [
        (0x00, [bad, one, one, one, bad, bad, bad]),
        (0x20, [bad, one, one, one, one, one, bad]),
    ] {
        for kind in 0..7 {
            let read = outcome(rt.alloc(), &action_of(mark, kind));
            assert_eq!(rt; read, kinds[kind as usize], "kind {kind}, mark {mark}");
        }
    }
}

#[test]
fn refuses_more_ticks_than_a_segment_has(rt: HostRuntime) -> Result<(), Fail> {
    let mut bytes = [1, 0, 0, 0, 0, 0, 0, 0, 0].to_vec(rt.alloc())?;
    push_groups(&mut bytes, 2048)?;
    assert_eq!(rt; outcome(rt.alloc(), &bytes), Ok(Some(65536)));
    bytes.extend_from_slice(&[1, 1, 0, 0, 0])?;
    assert_eq!(rt; outcome(rt.alloc(), &bytes), Err(Refusal::BadLog));
    Ok(())
}
