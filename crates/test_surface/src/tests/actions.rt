// `world_actions`
use super::same::same;
use world_actions::{Action, Change, LIMIT, Refusal, check};

const REFUSALS: [(Refusal, u8); 23] = [
    (Refusal::BadCell, 1),
    (Refusal::BadValue, 2),
    (Refusal::OutOfRange, 3),
    (Refusal::SameCell, 4),
    (Refusal::TickFull, 5),
    (Refusal::SegmentFull, 6),
    (Refusal::QueueFull, 7),
    (Refusal::OpenTick, 8),
    (Refusal::Busy, 9),
    (Refusal::NothingNew, 10),
    (Refusal::ImageDown, 11),
    (Refusal::LogDown, 12),
    (Refusal::NoImage, 13),
    (Refusal::BadImage, 14),
    (Refusal::BadLog, 15),
    (Refusal::BadLine, 16),
    (Refusal::NoMemory, 17),
    (Refusal::Device, 18),
    (Refusal::Starting, 19),
    (Refusal::Impossible, 20),
    (Refusal::TicksEnded, 21),
    (Refusal::NotEmpty, 22),
    (Refusal::Uncovered, 23),
];

#[test]
fn refusals_have_numbers(rt: HostRuntime) {
    for (refusal, number) in &REFUSALS {
        let code: u8 = refusal.code();
        same(&rt, code, *number);
    }
}

// Decides an action on the first cell of a world, which has the word 5, or on its two cells, of
// which the second has the word 7.
fn decide(action: &Action) -> Result<Change, Refusal> {
    let cells: (u32, u32) = action.cells();
    if cells.0 == cells.1 {
        check(action, 2, 5, 5)
    } else {
        check(action, 2, 5, 7)
    }
}

const SET: Action = Action::Set { cell: 0, value: 9 };

const ADD: Action = Action::Add { cell: 0, by: -6 };

const TRANSFER: Action = Action::Transfer {
    from: 0,
    to: 1,
    amount: 2,
};

const SWAP: Action = Action::Swap { a: 0, b: 1 };

const CAP: Action = Action::Cap { cell: 0, value: 3 };

const LARGE: Action = Action::Set {
    cell: 1,
    value: LIMIT + 1,
};

// A change of one cell, or of both.
fn change(first: u64, second: Option<u64>) -> Change {
    Change { first, second }
}

#[test]
fn actions_are_decided(rt: HostRuntime) {
    same(&rt, decide(&SET), Ok(change(9, None)));
    same(&rt, decide(&ADD), Err(Refusal::OutOfRange));
    same(&rt, decide(&TRANSFER), Ok(change(3, Some(9))));
    same(&rt, decide(&SWAP), Ok(change(7, Some(5))));
    same(&rt, decide(&CAP), Ok(change(3, None)));
    same(&rt, decide(&LARGE), Err(Refusal::BadValue));
}
