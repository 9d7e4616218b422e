// `recovery`
use super::same::same;
use image_files::Slot;
use recovery::{Recovered, recover};
use std::alloc::Global;
use std::process::Abort;
use world_actions::Refusal;

// An image of one cell, 0, at tick 0.
const IMAGE: &[u8] = &[
    1, 1, 0, 0, 0, 0, 0, 0, 0, 0, 0, 0, 0, 0, 0, 0, 0, 0, 0, 0, 0, 0, 0, 0, 0,
];

// A segment of base 0 with one tick, which sets the cell to 5.
const FIRST: &[u8] = &[
    1, 0, 0, 0, 0, 0, 0, 0, 0, 1, 1, 0, 1, 0, 1, 0, 0, 0, 0, 5, 0, 0, 0, 0, 0, 0, 0, 0,
];

// A segment of base 1 with one tick, which adds 2 to the cell.
const SECOND: &[u8] = &[
    1, 1, 0, 0, 0, 0, 0, 0, 0, 1, 1, 0, 1, 0, 2, 0, 0, 0, 0, 2, 0, 0, 0, 0, 0, 0, 0, 0,
];

const NONE: &[u8] = &[];

fn find(alloc: Global) -> Result<Recovered, Refusal> {
    recover(alloc, IMAGE, NONE, FIRST, SECOND)
}

fn check_found(rt: &impl Abort, found: &Recovered) {
    let ticks: (u64, u64) = (found.tick, found.from);
    let slot: Slot = found.slot;
    let words: &[u64] = found.words.as_slice();
    same(rt, (ticks, slot), ((2, 0), Slot::A));
    same(rt, words, [7].as_slice());
}

#[test]
fn four_files_are_recovered(rt: HostRuntime) {
    check_found(&rt, &find(rt.alloc()).expect(&rt, "a world that stands"));
    let none = recover(rt.alloc(), NONE, NONE, NONE, NONE);
    same(&rt, none.err(), Some(Refusal::NoImage));
}
