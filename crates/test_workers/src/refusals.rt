//! A mutator that may run no batch, because all ticks have ended, the segment of the log is full,
//! or a push was refused.
ghost use Rattle.std.specs.Prelude.{◌≤◌};
ghost use Rattle.world_ticks.specs.declared.tick.TheConstants.{TICK_MAX};

use crate::same::same;
use crate::serial::{ask, new_session, send};
use crate::worlds::{new_files, open_files};
use action_log::SEGMENT_TICKS;
use crossbeam_channel::bounded;
use disk_model::ModelFile;
use shared_capture::{Method, Pong, Zig, signal_pair};
use std::alloc::Global;
use std::process::Abort;
use std::sync::Wait;
use workers::{AskReceiver, Asker, ItemReceiver, Mutator, Open, Reply, open};
use world_actions::Refusal;
use world_ticks::TICK_MAX;

// A mutator after so many ticks, which takes these asks and opens no round, and the end
// that pops its items.
fn mutator_at<M: Method>(
    rt: &(impl Wait + Abort),
    alloc: Global,
    asks: AskReceiver,
    ended: u64,
) -> (Mutator<M, Open>, ItemReceiver)
    requires { ended ≤ TICK_MAX }
{
    let opened = open_files::<M, ModelFile>(rt, alloc, new_files(rt, alloc, 2));
    let (to, from) = open(rt, alloc, ended).expect(rt, "a channel");
    let (bell, _rung) = bounded(alloc, 1).expect(rt, "a channel");
    let (_reported_down, heard) = signal_pair(alloc).expect(rt, "a word");
    let mutator = Mutator::new(
        Open,
        alloc,
        asks,
        opened.front,
        to,
        ended,
        u32::MAX,
        bell,
        heard,
    );
    (mutator, from)
}

// Sends a batch, which isn't run for this reason. Its session is answered with the reason.
fn is_refused<M: Method>(
    rt: &(impl Wait + Abort),
    alloc: Global,
    asker: &mut Asker,
    mutator: &mut Mutator<M, Open>,
    refusal: Refusal,
) {
    let awaited = ask(rt, alloc, asker, 1);
    match mutator.turn(rt).expect(rt, "an ask") {
        Err(refused) => same(rt, "a batch that isn't run", refused.reason(), refusal),
        Ok(()) => panic!(rt; "a batch that is run"),
    }
    let (reply, _slot) = awaited.wait(rt, 0);
    match reply {
        Some(Reply::Fault(fault)) => same(rt, "what is reported", fault.reason(), refusal),
        _ => panic!(rt; "no fault"),
    }
}

// Plays as many ticks as a segment takes.
fn fill_segment<M: Method>(
    rt: &(impl Wait + Abort),
    alloc: Global,
    asker: &mut Asker,
    mutator: &mut Mutator<M, Open>,
    from: &mut ItemReceiver,
) {
    for _ in 0..SEGMENT_TICKS {
        drop(send(rt, alloc, asker, mutator));
        assert!(rt; from.pop(rt).is_ok());
    }
}

fn try_last_tick<M: Method>(rt: &(impl Wait + Abort), alloc: Global) {
    let (mut asker, asks) = new_session(rt, alloc);
    let (mut mutator, from) = mutator_at::<M>(rt, alloc, asks, TICK_MAX);
    is_refused(rt, alloc, &mut asker, &mut mutator, Refusal::TicksEnded);
    drop(mutator);
    drop(from);
    drop(asker);
}

fn try_full_segment<M: Method>(rt: &(impl Wait + Abort), alloc: Global) {
    let (mut asker, asks) = new_session(rt, alloc);
    let (mut mutator, mut from) = mutator_at::<M>(rt, alloc, asks, 0);
    fill_segment(rt, alloc, &mut asker, &mut mutator, &mut from);
    is_refused(rt, alloc, &mut asker, &mut mutator, Refusal::SegmentFull);
    drop(mutator);
    drop(from);
    drop(asker);
}

// Nobody pops any more, so the push of the tick is refused: its session gets no answer, and no
// other batch is run.
fn try_refused_push<M: Method>(rt: &(impl Wait + Abort), alloc: Global) {
    let (mut asker, asks) = new_session(rt, alloc);
    let (mut mutator, from) = mutator_at::<M>(rt, alloc, asks, 0);
    drop(from);
    let answered = send(rt, alloc, &mut asker, &mut mutator);
    let (reply, _slot) = answered.wait(rt, 0);
    assert!(rt; reply.is_none());
    same(rt, "ticks that ended", mutator.ended(), 0);
    is_refused(rt, alloc, &mut asker, &mut mutator, Refusal::LogDown);
    drop(mutator);
    drop(asker);
}

#[test]
fn a_mutator_whose_push_is_refused_runs_no_more(rt: HostRuntime) {
    try_refused_push::<Zig>(&rt, rt.alloc());
    try_refused_push::<Pong>(&rt, rt.alloc());
}

#[test]
fn no_batch_is_run_once_all_ticks_have_ended(rt: HostRuntime) {
    try_last_tick::<Zig>(&rt, rt.alloc());
    try_last_tick::<Pong>(&rt, rt.alloc());
}

#[test]
fn no_batch_is_run_while_the_segment_is_full(rt: HostRuntime) {
    try_full_segment::<Zig>(&rt, rt.alloc());
    try_full_segment::<Pong>(&rt, rt.alloc());
}
