//! A log that has fallen after leaves out the ticks that an image has.
ghost use Rattle.std.specs.Prelude.{◌≡◌, ◌≤◌, false};
ghost use Rattle.workers.specs.Logging.{IsAtRest};
ghost use Rattle.worker_threads.specs.Kept.{MayTake};

use crate::held::Held;
use crate::same::same;
use crate::serial::{Serial, begin, is_posted, log_on, new_session, send};
use crate::worlds::{fused_files, open_files, stands_in_fused};
use action_log::{LogState, read_log};
use disk_model::{Fused, ModelFile};
use shared_capture::{Method, Pong, Zig};
use std::alloc::Global;
use std::process::Abort;
use std::sync::Wait;
use workers::{AskReceiver, Asker, AwaitedReply, Checkpointer, Log, Reply};
use world_actions::Refusal;

type File = Fused<ModelFile>;

/// How many calls are made on the second segment's file: four for the switch, and four for
/// the tick after it.
const CALLS: u64 = 8;

// Writes the image of the open round, which is of this tick, and opens it.
fn write_image<M: Method>(
    rt: &(impl Wait + Abort),
    checkpointer: &mut Checkpointer<M, File, Held>,
    tick: u64,
)
    requires { MayTake checkpointer.old }
    ensures { MayTake checkpointer.new }
{
    assert!(rt; !checkpointer.is_over());
    same(
        rt,
        "an image that is opened",
        checkpointer.turn(rt),
        Some(tick),
    );
    assert!(rt; !checkpointer.is_over());
}

// Plays three ticks, and writes images of the first two. The log writer makes no step meanwhile.
fn fall_behind<M: Method>(
    rt: &(impl Wait + Abort),
    alloc: Global,
    asker: &mut Asker,
    world: &mut Serial<M, File>,
) -> [AwaitedReply; 3]
    requires { MayTake world.old.checkpointer }
    ensures { world.new.log_writer ≡ world.old.log_writer }
{
    let first = send(rt, alloc, asker, &mut world.mutator);
    let second = send(rt, alloc, asker, &mut world.mutator);
    write_image(rt, &mut world.checkpointer, 1);
    let third = send(rt, alloc, asker, &mut world.mutator);
    write_image(rt, &mut world.checkpointer, 2);
    [first, second, third]
}

fn is_refused(rt: &(impl Wait + Abort), answer: AwaitedReply) {
    let (reply, _slot) = answer.wait(rt, 0);
    match reply {
        Some(Reply::Fault(fault)) => same(rt, "a refusal", fault.reason(), Refusal::LogDown),
        _ => panic!(rt; "no fault"),
    }
}

// The first two ticks are answered, and the third one if the log has it.
fn check_answers(rt: &(impl Wait + Abort), answers: [AwaitedReply; 3], whole: bool) {
    let [first, second, third] = answers;
    is_posted(rt, first, b"tick 1: + =1\n");
    is_posted(rt, second, b"tick 2: + =2\n");
    if whole {
        is_posted(rt, third, b"tick 3: + =3\n");
    } else {
        is_refused(rt, third);
    }
}

// Returns the base of the open segment in these bytes, and how many ticks are in it.
fn segment_of(rt: &impl Abort, alloc: Global, bytes: &[u8]) -> Option<(u64, usize)> {
    match read_log(alloc, bytes).expect(rt, "a segment") {
        LogState::Open { base, ticks } => Some((base, ticks.len())),
        LogState::Closed => None,
    }
}

// The first segment has no tick. The second one begins after the tick of the second image, and has
// the ticks after it.
fn check_log(rt: &impl Abort, alloc: Global, log: &Log<File>, whole: bool) {
    let first = segment_of(rt, alloc, log.a.inner().durable());
    same(rt, "the first segment", first, Some((0, 0)));
    if whole {
        let second = segment_of(rt, alloc, log.b.inner().durable());
        same(rt, "the second segment", second, Some((2, 1)));
    }
}

fn check_files<M: Method>(rt: &impl Abort, alloc: Global, world: &Serial<M, File>, whole: bool) {
    let (log_writer, images) = (&world.log_writer, world.checkpointer.images());
    let acked = if whole { 3 } else { 2 };
    same(rt, "ticks acknowledged", log_writer.acked(), acked);
    same(rt, "the log is down", log_writer.is_down(), !whole);
    let found = stands_in_fused(rt, alloc, images, log_writer.log());
    same(rt, "what stands", found, (acked, 2, acked));
    check_log(rt, alloc, log_writer.log(), whole);
}

// Begins workers of a new world whose second segment's file fails at this call.
fn begin_broken<M: Method>(
    rt: &(impl Wait + Abort),
    alloc: Global,
    asks: AskReceiver,
    call: u64,
) -> Serial<M, File>
    requires { 1 ≤ call }
    ensures rest { IsAtRest result.log_writer }
    ensures takes { MayTake result.checkpointer }
{
    let mut opened = open_files::<M, File>(rt, alloc, fused_files(rt, alloc));
    opened.log.b.arm(call);
    begin(rt, alloc, asks, opened, Held::nothing())
}

fn play_behind<M: Method>(
    rt: &(impl Wait + Abort),
    alloc: Global,
    asker: &mut Asker,
    world: &mut Serial<M, File>,
    whole: bool,
)
    requires rest { IsAtRest world.old.log_writer }
    requires takes { MayTake world.old.checkpointer }
{
    let answers = fall_behind(rt, alloc, asker, world);
    log_on(rt, &mut world.log_writer);
    check_answers(rt, answers, whole);
    check_files(rt, alloc, world, whole);
}

// Plays while this call of the second segment's file fails, if it is made.
fn try_call<M: Method>(rt: &(impl Wait + Abort), alloc: Global, call: u64)
    requires { 1 ≤ call }
{
    let (mut asker, asks) = new_session(rt, alloc);
    let mut world = begin_broken::<M>(rt, alloc, asks, call);
    play_behind(rt, alloc, &mut asker, &mut world, call > CALLS);
    drop(world);
    drop(asker);
}

fn try_calls<M: Method>(rt: &(impl Wait + Abort), alloc: Global) {
    for call in 1..CALLS + 2 {
        try_call::<M>(rt, alloc, call);
    }
}

#[test]
fn what_an_image_has_is_not_logged(rt: HostRuntime) {
    try_calls::<Zig>(&rt, rt.alloc());
    try_calls::<Pong>(&rt, rt.alloc());
}
