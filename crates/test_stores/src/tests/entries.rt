// The entries of a store with two arrays.
use super::moves::{Move, follow};
use super::same::same;
use capture_core::Capture;
use std::process::Abort;

// A store over two arrays.
pub trait TwoArrays: Capture {
    // The entries of the first cell, if there is one.
    fn first_entries(&self) -> Option<(u64, u64)>;
}

const MARK_AND_WRITE: [Move; 2] = [Move::Mark, Move::Write(0, 9)];

const TAKE_AND_MARK: [Move; 4] = [
    Move::TakeWord(5),
    Move::TakeWord(7),
    Move::IsOpen(false),
    Move::Mark,
];

const NEXT_WRITE: [Move; 1] = [Move::Write(0, 4)];

const LAST_TAKE: [Move; 1] = [Move::TakeWord(9)];

// Makes moves of a new store over 5 and 7, and checks the entries after them.
pub fn check_entries<C: TwoArrays>(rt: &impl Abort, mut store: C) {
    follow(rt, &mut store, &MARK_AND_WRITE);
    same(rt, store.first_entries(), Some((5, 9)));
    follow(rt, &mut store, &TAKE_AND_MARK);
    same(rt, store.first_entries(), Some((5, 9)));
    follow(rt, &mut store, &NEXT_WRITE);
    same(rt, store.first_entries(), Some((4, 9)));
    follow(rt, &mut store, &LAST_TAKE);
}
