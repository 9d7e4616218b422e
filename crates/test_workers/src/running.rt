//! Workers in threads, and sessions on them.
use crate::same::same;
use crate::worlds::{Report, Reporter, open_files};
use client_service::{Remote, serve_batches};
use crossbeam_channel::Sender;
use disk_model::{Disk, FourFiles};
use shared_capture::Method;
use std::alloc::Global;
use std::process::Abort;
use std::sync::Wait;
use std::thread::Threads;
use worker_steps::Gates;
use worker_threads::{StoppedWorkers, Workers, meet_stopped, start, stop};
use workers::{AskChannel, Gate, Spins};
use world_actions::Refusal;

/// Starts workers on the world in these files. A round is due after each `every` ticks.
pub fn begin<
    R: Threads + Wait + Abort + Copy + Send + 'static,
    M: Method + Send + 'static,
    D: Disk + Drop + Send + 'static,
    A: Gate + Drop + Send + 'static,
    B: Gate + Drop + Send + 'static,
    C: Gate + Drop + Send + 'static,
>(
    rt: &R,
    alloc: Global,
    files: FourFiles<D>,
    gates: Gates<A, B, C>,
    to: Sender<Report>,
    every: u32,
) -> (Workers<M, D, A, B, C>, AskChannel) {
    let opened = open_files::<M, D>(rt, alloc, files);
    let watch = Reporter { rt: *rt, to };
    let spins = Spins::on_this_machine(rt, alloc).expect(rt, "a count");
    start(rt, alloc, gates, watch, opened, every, &spins)
        .ok()
        .expect(rt, "workers")
}

/// Waits until the workers have ended, and brings their ends together.
pub fn end<R: Threads, M: Method, D: Disk + Drop, A: Gate + Drop, B: Gate + Drop, C: Gate + Drop>(
    rt: &R,
    workers: Workers<M, D, A, B, C>,
) -> StoppedWorkers<M, D, A, B, C> {
    let mut stopped = stop(rt, workers);
    meet_stopped(&mut stopped);
    stopped
}

/// The end of a session, and its text.
#[derive(Drop)]
pub struct Page {
    pub ends: Result<(), Refusal>,
    pub text: Vec<u8>,
}

/// The world of a session, after which no other begins.
pub fn only_session<R: Wait + Abort + Copy>(rt: &R, alloc: Global, asks: AskChannel) -> Remote<R> {
    let mut asks = asks;
    Remote::new(*rt, alloc, asks.session().expect(rt, "a session"))
}

/// Serves a session on this input. No other session begins after it.
pub fn play(
    rt: &(impl Wait + Abort + Copy),
    alloc: Global,
    asks: AskChannel,
    input: &[u8],
) -> Page {
    let mut world = only_session(rt, alloc, asks);
    let mut text = Vec::new(alloc);
    let mut rest = input;
    let ends = serve_batches(alloc, &mut rest, &mut text, &mut world);
    Page { ends, text }
}

/// The session came to its end with this text.
pub fn is_page(rt: &impl Abort, page: &Page, text: &[u8]) {
    same(rt, "how the session ends", page.ends, Ok(()));
    same(rt, "its text", page.text.as_slice(), text);
}
