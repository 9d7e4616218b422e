use super::same::{same, same_for};
use std::process::Abort;
use world_actions::{Action, Change, LIMIT, Refusal, check};

const GREATEST: u64 = 999_999_999_999_999_999;

#[test]
fn names_cells(rt: HostRuntime) {
    same(&rt, Action::Set { cell: 3, value: 9 }.cells(), (3, 3));
    same(&rt, Action::Add { cell: 4, by: -9 }.cells(), (4, 4));
    let transfer = Action::Transfer {
        from: 5,
        to: 6,
        amount: 9,
    };
    same(&rt, transfer.cells(), (5, 6));
    same(&rt, Action::Swap { a: 7, b: 8 }.cells(), (7, 8));
    same(&rt, Action::Cap { cell: 9, value: 1 }.cells(), (9, 9));
}

// The new words of the first cell and of the second, or the refusal.
type Decided = Result<(u64, Option<u64>), Refusal>;

// Decides an action in a world of so many cells, from the words of the action's cells.
fn decided(rt: &impl Abort, action: Action, cells: usize, words: (u64, u64)) -> Decided {
    assert!(rt; words.0 <= LIMIT && words.1 <= LIMIT);
    let Change { first, second } = check(&action, cells, words.0, words.1)?;
    Ok((first, second))
}

// Cells and values that are set in a world of one cell.
const SETS: [(u32, u64, Decided); 3] = [
    (0, GREATEST, Ok((GREATEST, None))),
    (0, GREATEST + 1, Err(Refusal::BadValue)),
    (1, GREATEST + 1, Err(Refusal::BadCell)),
];

// Differences, and the words that they are added to.
const ADDS: [(i64, u64, Decided); 4] = [
    (1, GREATEST, Err(Refusal::OutOfRange)),
    (-999_999_999_999_999_999, GREATEST, Ok((0, None))),
    (-1, 0, Err(Refusal::OutOfRange)),
    (i64::MIN, GREATEST, Err(Refusal::BadValue)),
];

// Cells and values that lower a word.
const CAPS: [(u32, u64, u64, Decided); 5] = [
    (0, 3, 5, Ok((3, None))),
    (0, 5, 3, Ok((3, None))),
    (0, GREATEST, 3, Ok((3, None))),
    (0, GREATEST + 1, 3, Err(Refusal::BadValue)),
    (1, GREATEST + 1, 3, Err(Refusal::BadCell)),
];

#[test]
fn decides_on_one_cell(rt: HostRuntime) {
    for (cell, value, want) in SETS {
        let action = Action::Set { cell, value };
        same_for(&rt, action, decided(&rt, action, 1, (0, 0)), want);
    }
    for (by, word, want) in ADDS {
        let action = Action::Add { cell: 0, by };
        same_for(&rt, action, decided(&rt, action, 1, (word, word)), want);
    }
    for (cell, value, word, want) in CAPS {
        let action = Action::Cap { cell, value };
        same_for(&rt, action, decided(&rt, action, 1, (word, word)), want);
    }
    let transfer = Action::Transfer {
        from: 0,
        to: 0,
        amount: GREATEST + 1,
    };
    let refused = decided(&rt, transfer, 1, (5, 5));
    same(&rt, refused, Err(Refusal::BadValue));
}

// Two cells and an amount in a world of two cells, and the words of the cells.
const TRANSFERS: [((u32, u32, u64), (u64, u64), Decided); 6] = [
    ((0, 0, 1), (0, 0), Err(Refusal::SameCell)),
    ((0, 1, 1), (0, 0), Err(Refusal::OutOfRange)),
    ((0, 2, 1), (0, 0), Err(Refusal::BadCell)),
    ((0, 1, 0), (0, 0), Ok((0, Some(0)))),
    ((1, 0, 30), (100, 7), Ok((70, Some(37)))),
    ((0, 1, 1), (1, LIMIT), Err(Refusal::OutOfRange)),
];

// Two cells, and their words.
const SWAPS: [((u32, u32), (u64, u64), Decided); 5] = [
    ((0, 1), (5, 7), Ok((7, Some(5)))),
    ((1, 0), (0, LIMIT), Ok((LIMIT, Some(0)))),
    ((0, 0), (5, 5), Err(Refusal::SameCell)),
    ((2, 2), (0, 0), Err(Refusal::BadCell)),
    ((0, 2), (5, 0), Err(Refusal::BadCell)),
];

#[test]
fn decides_on_two_cells(rt: HostRuntime) {
    for ((from, to, amount), words, want) in TRANSFERS {
        let action = Action::Transfer { from, to, amount };
        same_for(&rt, action, decided(&rt, action, 2, words), want);
    }
    for ((a, b), words, want) in SWAPS {
        let action = Action::Swap { a, b };
        same_for(&rt, action, decided(&rt, action, 2, words), want);
    }
    let set = Action::Set {
        cell: 2,
        value: 1_000_000_000_000_000_000,
    };
    let refused = decided(&rt, set, 2, (0, 0));
    same(&rt, refused, Err(Refusal::BadCell));
}
