//! Workers in threads, whose checkpointer is held while ticks are answered.
use crate::held::{HELD, Held};
use crate::running::{Page, begin, is_page, only_session};
use crate::same::same;
use crate::worlds::{Report, new_files, stands_in};
use client_service::{Remote, serve_batches};
use crossbeam_channel::{Receiver, unbounded};
use disk_model::ModelFile;
use shared_capture::{Method, Pong, Zig};
use std::alloc::Global;
use std::process::Abort;
use std::sync::atomic::{AtomicU64, Ordering};
use std::sync::{Arc, Wait};
use std::thread::Threads;
use worker_steps::Gates;
use worker_threads::{StoppedWorkers, stop};
use workers::AskChannel;
use world_actions::Refusal;

const BATCH: &[u8] = b"add 0 1\nget 0\nend\n";

const ANSWERS: &[u8] = b"tick 1: + =1\ntick 2: + =2\ntick 3: + =3\ntick 4: + =4\n";

fn play_batch<R: Wait + Copy>(
    alloc: Global,
    world: &mut Remote<R>,
    text: &mut Vec<u8>,
) -> Result<(), Refusal> {
    let mut input = BATCH;
    serve_batches(alloc, &mut input, text, world)
}

// Plays the batches during which the round of the first one stays open.
fn play_batches<R: Wait + Abort + Copy>(
    rt: &R,
    alloc: Global,
    world: &mut Remote<R>,
    text: &mut Vec<u8>,
    answered: &AtomicU64,
    heard: &Receiver<Report>,
) -> Result<(), Refusal> {
    for _ in 0..HELD {
        play_batch(alloc, world, text)?;
        same(rt, "no image is opened", heard.is_empty(), true);
        answered.fetch_add(1, Ordering::SeqCst);
    }
    Ok(())
}

// Plays them in a session, and returns its end and its text.
fn play_held(
    rt: &(impl Wait + Abort + Copy),
    alloc: Global,
    asks: AskChannel,
    answered: &AtomicU64,
    heard: &Receiver<Report>,
) -> Page {
    let mut world = only_session(rt, alloc, asks);
    let mut text = Vec::new(alloc);
    let ends = play_batches(rt, alloc, &mut world, &mut text, answered, heard);
    Page { ends, text }
}

// The workers, the reports and the answers once the rounds are over.
#[derive(Drop)]
struct Left<M: Method> {
    stopped: StoppedWorkers<M, ModelFile, Held, Held, Held>,
    heard: Receiver<Report>,
    page: Page,
}

fn held_until(rt: &impl Abort, answered: &Arc<AtomicU64, Global>) -> Gates<Held, Held, Held> {
    let answered = answered.clone().expect(rt, "a share");
    Gates {
        mutator: Held::nothing(),
        checkpointer: Held::until(answered),
        log_writer: Held::nothing(),
    }
}

// Plays on a new world of two cells. An image of it is due after each tick.
fn play_round<M: Method + Send + 'static, R: Threads + Wait + Abort + Copy + Send + 'static>(
    rt: &R,
    alloc: Global,
) -> Left<M> {
    let answered = Arc::new(alloc, AtomicU64::new(0)).expect(rt, "a count");
    let gates = held_until(rt, &answered);
    let (to, heard) = unbounded(alloc).expect(rt, "a channel");
    let files = new_files(rt, alloc, 2);
    let (workers, asks) = begin(rt, alloc, files, gates, to, 1);
    let page = play_held(rt, alloc, asks, &answered, &heard);
    Left {
        stopped: stop(rt, workers),
        heard,
        page,
    }
}

// No worker is down. All four ticks are acknowledged, and recovery finds them.
fn check_ends<M: Method>(
    rt: &impl Abort,
    alloc: Global,
    stopped: &StoppedWorkers<M, ModelFile, Held, Held, Held>,
) {
    let (mutator, log_writer) = (&stopped.mutator, &stopped.log_writer);
    let checkpointer = &stopped.checkpointer;
    let ticks = (mutator.ended(), log_writer.acked());
    same(rt, "ticks ended and acknowledged", ticks, (4, 4));
    let are_down = (log_writer.is_down(), checkpointer.is_down());
    same(rt, "log and images down", are_down, (false, false));
    let (tick, from, word) = stands_in(rt, alloc, checkpointer.images(), log_writer.log());
    same(rt, "what stands", (tick, word), (4, 4));
    assert!(rt; from == 1 || from == 4, "recovered from {from}");
}

// The image of the first round was opened, and then at most that of the last.
fn check_heard(rt: &(impl Wait + Abort), heard: &Receiver<Report>) {
    let first = heard.recv(rt).ok();
    same(rt, "what is reported", first, Some(Report::ImageOpened(1)));
    for reported in heard.iter(rt) {
        same(
            rt,
            "what is reported then",
            reported,
            Report::ImageOpened(4),
        );
    }
}

fn check_left<M: Method>(rt: &(impl Wait + Abort), alloc: Global, left: &Left<M>) {
    check_ends(rt, alloc, &left.stopped);
    check_heard(rt, &left.heard);
    is_page(rt, &left.page, ANSWERS);
}

fn try_open_round<M: Method + Send + 'static, R: Threads + Wait + Abort + Copy + Send + 'static>(
    rt: &R,
    alloc: Global,
) {
    let left = play_round::<M, R>(rt, alloc);
    check_left(rt, alloc, &left);
    drop(left);
}

#[test]
fn round_open_while_ticks_are_answered(rt: HostRuntime) {
    try_open_round::<Zig, HostRuntime>(&rt, rt.alloc());
    try_open_round::<Pong, HostRuntime>(&rt, rt.alloc());
}
