//! Workers in threads over files, one of which fails at one of its calls.
ghost use Rattle.std.specs.Prelude.{◌≤◌};

use crate::running::{Page, begin, end, is_page, play};
use crate::same::same;
use crate::worlds::{Report, fused_files, open_world, stands_in_fused};
use crossbeam_channel::{Receiver, unbounded};
use disk_model::{FourFiles, Fused, ModelFile};
use shared_capture::{Method, Pong, Zig};
use std::alloc::Global;
use std::process::Abort;
use std::sync::Wait;
use std::thread::Threads;
use worker_steps::Gates;
use worker_threads::StoppedWorkers;
use workers::Open;

const BATCHES: &[u8] =
    b"add 0 1\nget 0\nend\nadd 0 1\nget 0\nend\nadd 0 1\nget 0\nend\nadd 0 1\nget 0\nend\n";

/// How many calls of the log a tick takes: two writes, each with its sync.
const TICK_CALLS: u64 = 4;

// The answers to four batches, by how many ticks are acknowledged.
const ANSWERED: [&[u8]; 5] = [
    b"fault 12\nfault 12\nfault 12\nfault 12\n",
    b"tick 1: + =1\nfault 12\nfault 12\nfault 12\n",
    b"tick 1: + =1\ntick 2: + =2\nfault 12\nfault 12\n",
    b"tick 1: + =1\ntick 2: + =2\ntick 3: + =3\nfault 12\n",
    b"tick 1: + =1\ntick 2: + =2\ntick 3: + =3\ntick 4: + =4\n",
];

// The file that fails.
#[derive(Clone, Copy, Debug, PartialEq, Eq)]
enum Broken {
    ImageB,
    LogA,
}

type BrokenFile = Fused<ModelFile>;

// The files of a new world of two cells. One of them fails at its call of this number.
fn broken_files(rt: &impl Abort, alloc: Global, broken: Broken, call: u64) -> FourFiles<BrokenFile>
    requires { 1 ≤ call }
{
    let mut files = fused_files(rt, alloc);
    match broken {
        Broken::ImageB => files.image_b.arm(call),
        Broken::LogA => files.log_a.arm(call),
    }
    files
}

fn is_opened<M: Method>(alloc: Global, files: FourFiles<BrokenFile>) -> bool {
    let opened = open_world::<M, BrokenFile>(alloc, files);
    let is_opened = opened.is_ok();
    drop(opened);
    is_opened
}

// Returns the number of the first call on a file that the workers make. The calls before
// it open the world.
fn first_call<M: Method>(rt: &impl Abort, alloc: Global, broken: Broken) -> u64 {
    for call in 1..100 {
        if is_opened::<M>(alloc, broken_files(rt, alloc, broken, call)) {
            return call;
        }
    }
    panic!(rt; "no world was opened")
}

// The results of a run over files one of which fails.
#[derive(Drop)]
struct Left<M: Method> {
    stopped: StoppedWorkers<M, BrokenFile, Open, Open, Open>,
    page: Page,
    heard: Receiver<Report>,
}

// Runs a session of four batches over files one of which fails at its call of this number.
fn play_broken<M: Method + Send + 'static, R: Threads + Wait + Abort + Copy + Send + 'static>(
    rt: &R,
    alloc: Global,
    broken: Broken,
    call: u64,
    every: u32,
) -> Left<M>
    requires { 1 ≤ call }
{
    let gates = Gates {
        mutator: Open,
        checkpointer: Open,
        log_writer: Open,
    };
    let (to, heard) = unbounded(alloc).expect(rt, "a channel");
    let files = broken_files(rt, alloc, broken, call);
    let (workers, requests) = begin(rt, alloc, files, gates, to, every);
    let page = play(rt, alloc, requests, BATCHES);
    Left {
        stopped: end(rt, workers),
        page,
        heard,
    }
}

// The page of a session of four batches, of which so many were acknowledged.
fn answered(acked: u64) -> &'static [u8] {
    match ANSWERED.get(acked as usize) {
        Some(text) => text,
        None => b"no such page",
    }
}

// The expected results of four batches: how many ticks end and are acknowledged, and if the log
// goes down or else the images do. Exactly one report comes, which is `reported`.
#[derive(Clone, Copy)]
struct Outcome {
    ended: u64,
    acked: u64,
    is_log_down: bool,
    reported: Report,
}

fn is_reported(rt: &(impl Wait + Abort), heard: &Receiver<Report>, reported: Report) {
    same(rt, "what is reported", heard.recv(rt).ok(), Some(reported));
    same(rt, "what is reported then", heard.recv(rt).ok(), None);
}

fn are_ends<M: Method>(
    rt: &impl Abort,
    stopped: &StoppedWorkers<M, BrokenFile, Open, Open, Open>,
    outcome: Outcome,
) {
    let (mutator, log_writer) = (&stopped.mutator, &stopped.log_writer);
    same(rt, "ticks ended", mutator.ended(), outcome.ended);
    same(rt, "ticks acknowledged", log_writer.acked(), outcome.acked);
    let are_down = (log_writer.is_down(), stopped.checkpointer.is_down());
    let is_down = outcome.is_log_down;
    same(rt, "log and images down", are_down, (is_down, !is_down));
}

// No image is written, and the files have the acknowledged ticks.
fn is_left<M: Method>(rt: &(impl Wait + Abort), alloc: Global, left: &Left<M>, outcome: Outcome) {
    let acked = outcome.acked;
    is_page(rt, &left.page, answered(acked));
    are_ends(rt, &left.stopped, outcome);
    is_reported(rt, &left.heard, outcome.reported);
    let stopped = &left.stopped;
    let found = stands_in_fused(
        rt,
        alloc,
        stopped.checkpointer.images(),
        stopped.log_writer.log(),
    );
    same(rt, "what stands", found, (acked, 0, acked));
}

// Runs workers over files one of which fails at its call of this number, and checks the results.
fn try_broken<M: Method + Send + 'static, R: Threads + Wait + Abort + Copy + Send + 'static>(
    rt: &R,
    alloc: Global,
    broken: Broken,
    call: u64,
    every: u32,
    outcome: Outcome,
)
    requires { 1 ≤ call }
{
    let left = play_broken::<M, R>(rt, alloc, broken, call, every);
    is_left(rt, alloc, &left, outcome);
    drop(left);
}

// The number of the call that comes so many calls after the workers' first one.
fn later_call(first: u64, after: u64) -> u64
    ensures { 1 ≤ result }
{
    first.saturating_add(after).max(1)
}

// The results if the log goes down after so many ticks, which stay acknowledged.
fn log_down(acked: u64) -> Outcome {
    Outcome {
        ended: acked.saturating_add(1),
        acked,
        is_log_down: true,
        reported: Report::LogDown(acked),
    }
}

// Lets each of the calls of each tick fail in turn.
fn try_log<M: Method + Send + 'static, R: Threads + Wait + Abort + Copy + Send + 'static>(
    rt: &R,
    alloc: Global,
) {
    let first = first_call::<M>(rt, alloc, Broken::LogA);
    for after in 0..4 * TICK_CALLS {
        let call = later_call(first, after);
        let outcome = log_down(after / TICK_CALLS);
        try_broken::<M, R>(rt, alloc, Broken::LogA, call, 64, outcome);
    }
}

#[test]
fn sessions_are_refused_once_the_log_is_down(rt: HostRuntime) {
    try_log::<Zig, HostRuntime>(&rt, rt.alloc());
    try_log::<Pong, HostRuntime>(&rt, rt.alloc());
}

// The results if the image of the first round, in image.b, isn't written. Play continues.
const IMAGES_DOWN: Outcome = Outcome {
    ended: 4,
    acked: 4,
    is_log_down: false,
    reported: Report::ImagesDown,
};

// Lets each of the first four calls of an image fail in turn.
fn try_images<M: Method + Send + 'static, R: Threads + Wait + Abort + Copy + Send + 'static>(
    rt: &R,
    alloc: Global,
) {
    let first = first_call::<M>(rt, alloc, Broken::ImageB);
    for after in 0..4 {
        let call = later_call(first, after);
        try_broken::<M, R>(rt, alloc, Broken::ImageB, call, 1, IMAGES_DOWN);
    }
}

#[test]
fn play_goes_on_once_the_images_are_down(rt: HostRuntime) {
    try_images::<Zig, HostRuntime>(&rt, rt.alloc());
    try_images::<Pong, HostRuntime>(&rt, rt.alloc());
}
