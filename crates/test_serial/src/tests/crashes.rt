ghost use Rattle.std.specs.Prelude.{◌≤◌};

use super::disks::{Disks, LEAVINGS, after_crash, disks_of, has_failed, may_stand};
use super::same::same;
use super::worlds::{NONE, bytes_of, fresh, serve};
use capture_core::{Capture, PlainCopy};
use disk_model::{Fused, Leaving, ModelFile};
use ping_pong::PingPong;
use recovery::Recovered;
use serial_world::SerialWorld;
use std::alloc::Global;
use std::process::Abort;
use world_actions::Refusal;
use world_start::fresh_files;
use zigzag::Zigzag;

// More calls than a file has in a trial.
const CALLS: u64 = 200;

// Three batches. A checkpoint is made after the second of them.
const INPUT: &[u8] = b"set 0 5\nend\nmove 0 1 2\nend\nset 1 9\nend\n";

// The words after so many ticks.
const WORLDS: [[u64; 2]; 4] = [[0, 0], [5, 0], [3, 2], [3, 9]];

// The texts, by how many ticks are acknowledged.
const TEXTS: [&[u8]; 4] = [
    b"fault 12\nfault 12\nfault 12\n",
    b"tick 1: +\nfault 12\nfault 12\n",
    b"tick 1: +\ntick 2: +\nfault 12\n",
    b"tick 1: +\ntick 2: +\ntick 3: +\n",
];

// The result of a run is the number of acknowledged ticks, or this number if the
// world wasn't opened.
const REFUSED: usize = 4;

// True if it is the world after one of the ticks, and after at least the acknowledged ones.
fn is_safe(found: &Recovered, acked: u64) -> bool {
    match WORLDS.get(found.tick as usize) {
        Some(words) => acked <= found.tick && found.words.as_slice() == words.as_slice(),
        None => false,
    }
}

fn try_crash(rt: &impl Abort, alloc: Global, disks: &Disks, leaving: Leaving, acked: u64) {
    let found = after_crash(rt, alloc, disks, leaving).expect(rt, "a world that stands");
    may_stand(rt, leaving, &found, is_safe(&found, acked));
}

// Asserts that whatever a crash leaves is safe.
fn try_crashes(rt: &impl Abort, alloc: Global, disks: &Disks, acked: u64) {
    for leaving in LEAVINGS {
        try_crash(rt, alloc, disks, leaving, acked);
    }
}

// The text if so many ticks are acknowledged.
fn text_of(acked: u64) -> &'static [u8] {
    match TEXTS.get(acked as usize) {
        Some(text) => text,
        None => b"no such text",
    }
}

// Serves the batches, and returns how many ticks are acknowledged.
fn serve_batches<C: Capture>(
    rt: &impl Abort,
    alloc: Global,
    served: &mut SerialWorld<C, Fused<ModelFile>>,
) -> u64 {
    same(rt, "what is recovered", served.recovered(), (0, 0));
    let (ends, text) = serve(alloc, served, INPUT, usize::MAX);
    let acked = served.acked();
    same(rt, "how the session ends", ends, Ok(()));
    same(rt, "its text", text.as_slice(), text_of(acked));
    acked
}

// Opens a world and serves the batches. Returns the files, and the result of the run.
fn play<C: Capture>(rt: &impl Abort, alloc: Global, disks: Disks) -> (Disks, usize) {
    match SerialWorld::<C, Fused<ModelFile>>::open(alloc, disks, 2) {
        Ok(mut served) => {
            let acked = serve_batches(rt, alloc, &mut served);
            (served.into_files(), acked as usize)
        }
        Err((disks, refusal)) => {
            same(rt, "a refusal", refusal, Refusal::Device);
            (disks, REFUSED)
        }
    }
}

fn acked_by(answer: usize) -> u64 {
    if answer == REFUSED { 0 } else { answer as u64 }
}

// Lets the k-th call of a file fail. Returns the result of the run, and if the call was made.
fn fail_call<C: Capture>(
    rt: &impl Abort,
    alloc: Global,
    bytes: [&[u8]; 4],
    place: usize,
    k: u64,
) -> (usize, bool)
    requires { 1 ≤ k }
{
    let (mut disks, answer) = play::<C>(rt, alloc, disks_of(rt, alloc, bytes, place, k));
    try_crashes(rt, alloc, &disks, acked_by(answer));
    let has_failed = has_failed(&mut disks, place, k);
    drop(disks);
    (answer, has_failed)
}

fn count(met: &mut [u64], answer: usize) {
    if let Some(count) = met.get_mut(answer) {
        *count = count.saturating_add(1);
    }
}

fn all_are_met(rt: &impl Abort, met: &[u64]) {
    for answer in 0..met.len() {
        same(
            rt,
            "an answer is met",
            (answer, met[answer] > 0),
            (answer, true),
        );
    }
}

// Lets each call of a file fail in turn, and counts the results. Returns true if there
// are no more calls.
fn fail_each_call<C: Capture>(
    rt: &impl Abort,
    alloc: Global,
    bytes: [&[u8]; 4],
    place: usize,
    met: &mut [u64],
) -> bool {
    for k in 1..CALLS {
        let (answer, has_failed) = fail_call::<C>(rt, alloc, bytes, place, k);
        if !has_failed {
            same(
                rt,
                "a file and its last answer",
                (place, answer),
                (place, 3),
            );
            return true;
        }
        count(met, answer);
    }
    false
}

fn fail_files<C: Capture>(rt: &impl Abort, alloc: Global, bytes: [&[u8]; 4], met: &mut [u64]) {
    for place in 0..4 {
        let is_over = fail_each_call::<C>(rt, alloc, bytes, place, met);
        same(
            rt,
            "a file has no more calls",
            (place, is_over),
            (place, true),
        );
    }
}

fn fail_each_file<C: Capture>(rt: &impl Abort, alloc: Global) {
    let made = fresh(rt, alloc, 2);
    let mut met = [0; 5];
    fail_files::<C>(rt, alloc, bytes_of(&made), &mut met);
    drop(made);
    all_are_met(rt, &met);
}

#[test]
fn keeps_what_is_acknowledged(rt: HostRuntime) {
    fail_each_file::<PlainCopy>(&rt, rt.alloc());
    fail_each_file::<Zigzag>(&rt, rt.alloc());
    fail_each_file::<PingPong>(&rt, rt.alloc());
}

fn is_new(found: &Recovered) -> bool {
    (found.tick, found.from) == (0, 0) && found.words.as_slice() == [0, 0].as_slice()
}

// Asserts that a crash leaves a new world, or none yet, if making it failed. Returns 0 for a new
// world, and 1 for none.
fn new_or_none(rt: &impl Abort, alloc: Global, disks: &Disks, leaving: Leaving) -> usize {
    match after_crash(rt, alloc, disks, leaving) {
        Ok(found) => {
            may_stand(rt, leaving, &found, is_new(&found));
            0
        }
        Err(refusal) => {
            same(rt, "a refusal", refusal, Refusal::NoImage);
            1
        }
    }
}

// Tries crashes of files whose device failed while a new world was made. Counts the
// worlds that are left.
fn try_unmade(rt: &impl Abort, alloc: Global, disks: &Disks, refusal: Refusal, met: &mut [u64]) {
    same(rt, "a refusal", refusal, Refusal::Device);
    for leaving in LEAVINGS {
        let answer = new_or_none(rt, alloc, disks, leaving);
        count(met, answer);
    }
}

// Makes a new world of these disks, one of which fails its k-th call. Returns if a world is made,
// and if the call failed.
fn fail_making(
    rt: &impl Abort,
    alloc: Global,
    disks: Disks,
    place: usize,
    k: u64,
    met: &mut [u64],
) -> (bool, bool) {
    match fresh_files(alloc, 2, disks) {
        Ok(mut disks) => {
            let has_failed = has_failed(&mut disks, place, k);
            drop(disks);
            (true, has_failed)
        }
        Err((disks, refusal)) => {
            try_unmade(rt, alloc, &disks, refusal, met);
            drop(disks);
            (false, true)
        }
    }
}

// Lets each call of a file fail in turn. Returns true if there are no more calls.
fn fail_each_making(rt: &impl Abort, alloc: Global, place: usize, met: &mut [u64]) -> bool {
    for k in 1..CALLS {
        let disks = disks_of(rt, alloc, [NONE; 4], place, k);
        let (is_made, has_failed) = fail_making(rt, alloc, disks, place, k, met);
        let call = (place, k, has_failed);
        same(rt, "a call that fails", call, (place, k, !is_made));
        if is_made {
            return true;
        }
    }
    false
}

#[test]
fn makes_a_new_world_or_none(rt: HostRuntime) {
    let mut met = [0; 2];
    for place in 0..4 {
        let is_over = fail_each_making(&rt, rt.alloc(), place, &mut met);
        same(
            &rt,
            "a file has no more calls",
            (place, is_over),
            (place, true),
        );
    }
    all_are_met(&rt, &met);
}
