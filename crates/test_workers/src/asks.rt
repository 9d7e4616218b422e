//! The asks of two sessions on one channel, from which a mutator takes one at a time.
use crate::held::Held;
use crate::same::same;
use crate::serial::{ask, begin, log_on};
use crate::worlds::{new_files, open_files};
use disk_model::ModelFile;
use shared_capture::{Method, Pong, Zig};
use std::alloc::Global;
use std::process::Abort;
use std::sync::Wait;
use workers::{AskChannel, AwaitedReply, Mutator, Open, Reply};

/// How many asks the two sessions send.
const ASKS: u64 = 6;

// Two sessions send three asks each. The first one adds 1, and the second one adds 10. No session
// is left after that.
fn send_all(rt: &(impl Wait + Abort), alloc: Global, asks: AskChannel) -> [AwaitedReply; 6] {
    let mut asks = asks;
    let mut first = asks.session().expect(rt, "a session");
    let mut second = asks.session().expect(rt, "a session");
    [
        ask(rt, alloc, &mut first, 1),
        ask(rt, alloc, &mut second, 10),
        ask(rt, alloc, &mut second, 10),
        ask(rt, alloc, &mut first, 1),
        ask(rt, alloc, &mut first, 1),
        ask(rt, alloc, &mut second, 10),
    ]
}

// Runs all asks. None is left then, and no session that could send one.
fn take_all<M: Method>(rt: &(impl Wait + Abort), mutator: &mut Mutator<M, Open>) {
    for _ in 0..ASKS {
        let played = mutator.turn(rt).expect(rt, "an ask");
        assert!(rt; played.is_ok());
    }
    assert!(rt; mutator.turn(rt).is_none());
    same(rt, "ticks that ended", mutator.ended(), ASKS);
}

// The answer is a post of this tick and this text.
fn is_post_of(rt: &(impl Wait + Abort), awaited: AwaitedReply, tick: u64, text: &[u8]) {
    let (reply, _slot) = awaited.wait(rt, 0);
    let Some(Reply::Post(post)) = reply else {
        panic!(rt; "no post");
    };
    same(rt, "the tick of a post", post.tick(), tick);
    same(rt, "a post", post.into_answer().0.as_slice(), text);
}

// Each ask is answered by the tick at its place.
fn check_posts(rt: &(impl Wait + Abort), answers: [AwaitedReply; 6]) {
    let [first, second, third, fourth, fifth, sixth] = answers;
    is_post_of(rt, first, 1, b"tick 1: + =1\n");
    is_post_of(rt, second, 2, b"tick 2: + =11\n");
    is_post_of(rt, third, 3, b"tick 3: + =21\n");
    is_post_of(rt, fourth, 4, b"tick 4: + =22\n");
    is_post_of(rt, fifth, 5, b"tick 5: + =23\n");
    is_post_of(rt, sixth, 6, b"tick 6: + =33\n");
}

fn try_two_sessions<M: Method>(rt: &(impl Wait + Abort), alloc: Global) {
    let (asks, asked) = AskChannel::open(alloc).expect(rt, "a channel");
    let opened = open_files::<M, ModelFile>(rt, alloc, new_files(rt, alloc, 2));
    let mut world = begin(rt, alloc, asked, opened, Held::nothing());
    let answers = send_all(rt, alloc, asks);
    take_all(rt, &mut world.mutator);
    log_on(rt, &mut world.log_writer);
    check_posts(rt, answers);
    drop(world);
}

#[test]
fn asks_of_two_sessions_are_played_in_turn(rt: HostRuntime) {
    try_two_sessions::<Zig>(&rt, rt.alloc());
    try_two_sessions::<Pong>(&rt, rt.alloc());
}
