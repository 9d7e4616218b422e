//! Sessions whose clients stop taking bytes, at each byte of the answers. Each answered tick
//! is in the files.
use crate::running::{begin, end, only_session};
use crate::same::same;
use crate::worlds::{new_files, stands_in};
use client_service::serve_batches;
use crossbeam_channel::unbounded;
use disk_model::ModelFile;
use shared_capture::{Method, Pong, Zig};
use std::alloc::Global;
use std::io::{self, ErrorKind, Write};
use std::process::Abort;
use std::sync::Wait;
use std::thread::Threads;
use worker_steps::Gates;
use worker_threads::StoppedWorkers;
use workers::{AskChannel, Open};
use world_actions::Refusal;

/// Three batches that come in one piece.
const BATCHES: &[u8] = b"add 0 1\nget 0\nend\nadd 0 1\nget 0\nend\nadd 0 1\nget 0\nend\n";

const ANSWERS: &[u8] = b"tick 1: + =1\ntick 2: + =2\ntick 3: + =3\n";

// A client that takes `room` more bytes, and then fails.
#[derive(Drop)]
struct Client {
    taken: Vec<u8>,
    room: usize,
}

impl Write for Client {
    fn write(&mut self, bytes: &[u8]) -> io::Result<usize> {
        let count = bytes.len().min(self.room);
        if count == 0 || self.taken.extend_from_slice(&bytes[..count]).is_err() {
            return Err(io::Error::from(ErrorKind::Other));
        }
        self.room -= count;
        Ok(count)
    }

    fn flush(&mut self) -> io::Result<()> {
        Ok(())
    }
}

// Serves a session on the batches, whose client takes so many bytes. Returns how the session ended,
// and the taken bytes.
fn play<R: Wait + Abort + Copy>(
    rt: &R,
    alloc: Global,
    asks: AskChannel,
    room: usize,
) -> (Result<(), Refusal>, Vec<u8>) {
    let mut world = only_session(rt, alloc, asks);
    let mut client = Client {
        taken: Vec::new(alloc),
        room,
    };
    let mut input = BATCHES;
    let ends = serve_batches(alloc, &mut input, &mut client, &mut world);
    (ends, client.taken)
}

// Counts the ticks whose whole answer was taken.
fn answered(taken: &[u8]) -> u64 {
    taken.iter().filter(|byte| **byte == b'\n').count() as u64
}

// The taken bytes are a prefix of the answers, and the files have each answered tick.
fn check<M: Method>(
    rt: &impl Abort,
    alloc: Global,
    stopped: &StoppedWorkers<M, ModelFile, Open, Open, Open>,
    taken: &[u8],
    room: usize,
) {
    same(rt, "what is taken", Some(taken), ANSWERS.get(..room));
    let (images, log) = (stopped.checkpointer.images(), stopped.log_writer.log());
    let (tick, _, word) = stands_in(rt, alloc, images, log);
    same(rt, "what stands", tick, stopped.mutator.ended());
    same(rt, "the word that stands", word, tick);
    assert!(rt; tick >= answered(taken), "tick {tick} stands");
}

fn cut_at<M: Method + Send + 'static, R: Threads + Wait + Abort + Copy + Send + 'static>(
    rt: &R,
    alloc: Global,
    room: usize,
) {
    let gates = Gates {
        mutator: Open,
        checkpointer: Open,
        log_writer: Open,
    };
    let (to, _heard) = unbounded(alloc).expect(rt, "a channel");
    let files = new_files(rt, alloc, 2);
    let (workers, asks) = begin::<R, M, ModelFile, Open, Open, Open>(
        rt, alloc, files, gates, to, 2,
    );
    let (served, taken) = play(rt, alloc, asks, room);
    let whole = room == ANSWERS.len();
    let wanted = if whole { Ok(()) } else { Err(Refusal::Device) };
    same(rt, "how the session ends", served, wanted);
    let stopped = end(rt, workers);
    check(rt, alloc, &stopped, &taken, room);
    drop(stopped);
}

fn cut_everywhere<M: Method + Send + 'static, R: Threads + Wait + Abort + Copy + Send + 'static>(
    rt: &R,
    alloc: Global,
) {
    for room in 0..ANSWERS.len() + 1 {
        cut_at::<M, R>(rt, alloc, room);
    }
}

#[test]
fn what_was_answered_stands_wherever_a_session_is_cut_off(rt: HostRuntime) {
    cut_everywhere::<Zig, HostRuntime>(&rt, rt.alloc());
    cut_everywhere::<Pong, HostRuntime>(&rt, rt.alloc());
}
