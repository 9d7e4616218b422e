// `capture_core`
use super::same::same;
use capture_core::{Capture, PlainCopy, Taken, Taker};
use ping_pong::PingPong;
use shared_capture::{Joined, Pong, Zig};
use std::alloc::Global;
use std::process::Abort;
use world_actions::Refusal;
use zigzag::Zigzag;

fn build<C: Capture>(alloc: Global) -> Result<C, Refusal> {
    C::build(alloc, &[5, 7])
}

// Marks a store if no round is open. Returns true if it did.
fn mark<C: Capture>(store: &mut C) -> bool {
    let is_open: bool = store.open_round();
    if !is_open {
        store.mark();
    }
    !is_open
}

fn take_two<T: Taker>(taker: &mut T) -> (Option<Taken>, Option<Taken>) {
    let first: Option<Taken> = taker.take();
    (first, taker.take())
}

// Writes into the second cell, if there is one.
fn write<C: Capture>(store: &mut C, word: u64) {
    if store.len() == 2 && word < 10 {
        store.write(1, word);
    }
}

// Takes two rounds. The first cell isn't written between them.
fn check_rounds<C: Capture>(rt: &impl Abort, alloc: Global, untouched: Taken) {
    let mut store: C = build(alloc).expect(rt, "memory");
    assert!(rt; mark(&mut store) && !mark(&mut store));
    let first = (Some(Taken::Word(5)), Some(Taken::Word(7)));
    same(rt, take_two(&mut store), first);
    write(&mut store, 9);
    assert!(rt; mark(&mut store));
    let second = (Some(untouched), Some(Taken::Word(9)));
    same(rt, take_two(&mut store), second);
    same(rt, take_two(&mut store), (None, None));
}

#[test]
fn rounds_of_each_capture(rt: HostRuntime) {
    check_rounds::<PlainCopy>(&rt, rt.alloc(), Taken::Word(5));
    check_rounds::<Zigzag>(&rt, rt.alloc(), Taken::Word(5));
    check_rounds::<PingPong>(&rt, rt.alloc(), Taken::Same);
    check_rounds::<Joined<Zig>>(&rt, rt.alloc(), Taken::Word(5));
    check_rounds::<Joined<Pong>>(&rt, rt.alloc(), Taken::Same);
}
