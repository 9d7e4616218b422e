//! The steps of the workers in one thread, and the world that recovery finds after each.
ghost use Rattle.std.specs.Prelude.{◌≤◌};

use crate::same::same;
use crate::serial::{ask, new_session};
use crate::worlds::{new_files, open_files, stands_in};
use disk_model::ModelFile;
use shared_capture::{Method, Pong, Zig};
use std::alloc::Global;
use std::process::Abort;
use std::sync::Wait;
use worker_steps::{Gates, Next, Together};
use workers::{AskReceiver, Asker, Open};

type World<M> = Together<M, ModelFile, Open, Open, Open>;

// Recovers from the durable bytes. The first cell has the number of the recovered tick, and no
// acknowledged tick is lost. Returns the tick and that of the image.
fn found<M: Method>(rt: &impl Abort, alloc: Global, world: &World<M>) -> (u64, u64) {
    let (images, log) = (world.checkpointer.images(), world.log_writer.log());
    let (tick, from, word) = stands_in(rt, alloc, images, log);
    same(rt, "the ticks in the words", word, tick);
    assert!(rt; world.log_writer.acked() <= tick && from <= tick);
    (tick, from)
}

fn begin_steps<M: Method>(rt: &(impl Wait + Abort), alloc: Global, asks: AskReceiver) -> World<M> {
    let opened = open_files::<M, ModelFile>(rt, alloc, new_files(rt, alloc, 2));
    let gates = Gates {
        mutator: Open,
        checkpointer: Open,
        log_writer: Open,
    };
    Together::begin(rt, alloc, gates, opened, asks, 1)
        .ok()
        .expect(rt, "memory for workers")
}

// Makes the step, and checks the files after it.
fn step<M: Method>(rt: &(impl Wait + Abort), alloc: Global, world: &mut World<M>, next: Next) {
    world.step(rt, next);
    let _ = found(rt, alloc, world);
}

// Asks for a batch. Pushes the owed item, because no batch is run before that, and runs the batch.
fn play_step<M: Method>(
    rt: &(impl Wait + Abort),
    alloc: Global,
    asker: &mut Asker,
    world: &mut World<M>,
) {
    let _awaited = ask(rt, alloc, asker, 1);
    step(rt, alloc, world, Next::Push);
    step(rt, alloc, world, Next::Play);
}

// The step at this place. An owed item is pushed some steps later.
fn next_step(at: u64) -> Next {
    match at % 7 {
        1 => Next::Mark,
        3 => Next::Push,
        4 => Next::Pop,
        2 | 5 => Next::Log,
        _ => Next::Image,
    }
}

// Plays a batch at each `every`th of the first 200 steps. Returns the tick and the image's tick
// that recovery finds at the end.
fn try_order<M: Method>(rt: &(impl Wait + Abort), alloc: Global, every: u64) -> (u64, u64)
    requires { 1 ≤ every }
{
    let (mut asker, asks) = new_session(rt, alloc);
    let mut world = begin_steps::<M>(rt, alloc, asks);
    for at in 0..400u64 {
        if at < 200 && at % every == 0 {
            play_step(rt, alloc, &mut asker, &mut world);
        }
        step(rt, alloc, &mut world, next_step(at));
    }
    let stands = found(rt, alloc, &world);
    drop(world);
    drop(asker);
    stands
}

#[test]
fn files_stand_after_each_step(rt: HostRuntime) {
    let ticks = try_order::<Zig>(&rt, rt.alloc(), 9);
    same(&rt, "what stands at the end", ticks, (23, 23));
    let ticks = try_order::<Pong>(&rt, rt.alloc(), 11);
    same(&rt, "what stands at the end", ticks, (19, 19));
}
