// Stores of as many cells as a world can have.
use super::moves::{mark, write};
use super::same::same;
use capture_core::{Capture, Taken};
use ping_pong::PingPong;
use shared_capture::{Joined, Pong, Zig};
use std::alloc::Global;
use std::process::Abort;
use zigzag::Zigzag;

const CELLS: usize = 1_048_576;

// Counts the takes of a round that give this word.
fn takes_of<C: Capture>(store: &mut C, cells: usize, word: u64) -> usize {
    let mut count = 0_usize;
    for _ in 0..cells {
        if store.take() == Some(Taken::Word(word)) {
            count = count.saturating_add(1);
        }
    }
    count
}

// Makes a mark and a write to the last cell. The takes of the round give the words of the mark.
fn check_cells<C: Capture>(rt: &impl Abort, alloc: Global, cells: usize) {
    let words = Vec::from_elem(alloc, 0, cells).expect(rt, "memory");
    let mut store = C::build(alloc, &words).expect(rt, "memory");
    same(rt, store.len(), cells);
    same(rt, mark(&mut store), true);
    same(rt, write(&mut store, cells.saturating_sub(1), 7), true);
    same(rt, takes_of(&mut store, cells, 0), cells);
    same(rt, store.open_round(), false);
}

#[test]
fn zigzag_has_the_most_cells(rt: HostRuntime) {
    check_cells::<Zigzag>(&rt, rt.alloc(), CELLS);
}

#[test]
fn ping_pong_has_the_most_cells(rt: HostRuntime) {
    check_cells::<PingPong>(&rt, rt.alloc(), CELLS);
}

#[test]
fn pairs_have_the_most_cells(rt: HostRuntime) {
    check_cells::<Joined<Zig>>(&rt, rt.alloc(), CELLS);
    check_cells::<Joined<Pong>>(&rt, rt.alloc(), CELLS);
}
