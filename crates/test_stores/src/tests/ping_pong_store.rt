use super::entries::{TwoArrays, check_entries};
use super::listed::check_list;
use super::moves::{Move, TWO_CHANGES, follow, follow_new};
use super::rounds::check_images;
use super::same::same;
use capture_core::Capture;
use ping_pong::PingPong;
use std::alloc::Global;
use std::process::Abort;
use world_actions::{Action, Refusal};
use world_ticks::{Cells, Tick, act};

#[test]
fn hands_out_words_of_marks(rt: HostRuntime) {
    follow_new::<PingPong>(&rt, rt.alloc(), &TWO_CHANGES);
}

impl TwoArrays for PingPong {
    fn first_entries(&self) -> Option<(u64, u64)> {
        if self.len() == 0 {
            return None;
        }
        Some(self.arrays(0))
    }
}

#[test]
fn writes_ping_and_pong(rt: HostRuntime) {
    let store = PingPong::new(rt.alloc(), &[5, 7]).expect(&rt, "memory");
    check_entries(&rt, store);
}

const ROUND: [Move; 4] = [
    Move::Mark,
    Move::TakeWord(5),
    Move::TakeWord(7),
    Move::IsOpen(false),
];

const UNCHANGED: [Move; 4] = [
    Move::IsOpen(false),
    Move::Mark,
    Move::TakeSame,
    Move::TakeSame,
];

// Plays an action between two rounds, which is refused.
fn check_refused<C: Capture>(rt: &impl Abort, alloc: Global) {
    let mut store = C::build(alloc, &[5, 7]).expect(rt, "memory");
    let mut tick = Tick::new(alloc);
    follow(rt, &mut store, &ROUND);
    let transfer = Action::Transfer {
        from: 0,
        to: 1,
        amount: 9,
    };
    let refused = act(&mut store, &mut tick, transfer);
    same(rt, refused, Err(Refusal::OutOfRange));
    follow(rt, &mut store, &UNCHANGED);
}

#[test]
fn refused_action_touches_no_cell(rt: HostRuntime) {
    check_refused::<PingPong>(&rt, rt.alloc());
}

#[test]
fn copies_words_of_mark(rt: HostRuntime) {
    let images = ([5, 7], [5, 9]);
    check_images::<PingPong>(&rt, rt.alloc(), &[(1, 9)], images);
}

#[test]
fn agrees_with_list_of_words(rt: HostRuntime) {
    check_list::<PingPong>(&rt, rt.alloc(), true);
}
