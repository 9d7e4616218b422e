// Calls of a store in order, and the answer to each.
use capture_core::{Capture, Taken};
use std::alloc::Global;
use std::process::Abort;
use world_actions::LIMIT;

// A call of a store, and its answer if it has one.
#[derive(Clone, Copy)]
pub enum Move {
    Len(usize),
    IsOpen(bool),
    Mark,
    TakeWord(u64),
    TakeSame,
    TakeNone,
    Write(usize, u64),
    Read(usize, u64),
}

// Makes the calls of a new store over 5 and 7.
pub fn follow_new<C: Capture>(rt: &impl Abort, alloc: Global, moves: &[Move]) {
    let mut store = C::build(alloc, &[5, 7]).expect(rt, "memory");
    follow(rt, &mut store, moves);
}

// Makes the calls, and asserts the answer of each.
pub fn follow<C: Capture>(rt: &impl Abort, store: &mut C, moves: &[Move]) {
    for (i, next) in moves.iter().enumerate() {
        assert!(rt; gives(store, *next), "move {i}");
    }
}

// Makes a call. Returns true if it gives its answer.
fn gives<C: Capture>(store: &mut C, next: Move) -> bool {
    match next {
        Move::Len(cells) => store.len() == cells,
        Move::IsOpen(is_open) => store.open_round() == is_open,
        Move::Mark => mark(store),
        Move::TakeWord(word) => store.take() == Some(Taken::Word(word)),
        Move::TakeSame => store.take() == Some(Taken::Same),
        Move::TakeNone => store.take().is_none(),
        Move::Write(cell, word) => write(store, cell, word),
        Move::Read(cell, word) => read(store, cell) == Some(word),
    }
}

// Marks a store if no round is open. Returns true if it did.
pub fn mark<C: Capture>(store: &mut C) -> bool {
    if store.open_round() {
        return false;
    }
    store.mark();
    true
}

// Writes a word into a cell, if there are such a cell and such a word. Returns true if it did.
pub fn write<C: Capture>(store: &mut C, cell: usize, word: u64) -> bool {
    if cell >= store.len() || word > LIMIT {
        return false;
    }
    store.write(cell, word);
    true
}

// The word of a cell, if there is such a cell.
pub fn read<C: Capture>(store: &mut C, cell: usize) -> Option<u64> {
    if cell >= store.len() {
        return None;
    }
    Some(store.read(cell))
}

// The moves of a store over 5 and 7. It is marked, taken and written, and marked and taken again. A
// take of an untouched cell gives its word.
pub const TWO_ROUNDS: [Move; 13] = [
    Move::IsOpen(false),
    Move::Mark,
    Move::IsOpen(true),
    Move::TakeWord(5),
    Move::TakeWord(7),
    Move::TakeNone,
    Move::IsOpen(false),
    Move::Len(2),
    Move::Write(1, 9),
    Move::Read(1, 9),
    Move::Mark,
    Move::TakeWord(5),
    Move::TakeWord(9),
];

// The same moves, if takes of untouched cells give `Same`.
pub const TWO_CHANGES: [Move; 13] = [
    Move::IsOpen(false),
    Move::Mark,
    Move::IsOpen(true),
    Move::TakeWord(5),
    Move::TakeWord(7),
    Move::TakeNone,
    Move::IsOpen(false),
    Move::Len(2),
    Move::Write(1, 9),
    Move::Read(1, 9),
    Move::Mark,
    Move::TakeSame,
    Move::TakeWord(9),
];
