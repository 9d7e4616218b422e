//! Files in which a world isn't made or isn't opened.
use super::same::same;
use super::worlds::{IMAGE, NONE, bytes_of, files_of, fresh, reported, stands};
use crate::create_and_open;
use capture_core::PlainCopy;
use disk_model::{FourFiles, ModelFile};
use serial_world::SerialWorld;
use std::alloc::Global;
use std::process::Abort;
use world_actions::Refusal;
use world_start::fresh_files;

// An open image of too many cells.
const BAD_IMAGE: &[u8] = &[1; 17];

// An open segment of base 0 without ticks.
const LOG: &[u8] = &[1, 0, 0, 0, 0, 0, 0, 0, 0, 0];

// An open segment whose group is cut off.
const BAD_LOG: &[u8] = &[1, 0, 0, 0, 0, 0, 0, 0, 0, 1];

// A closed image or segment.
const SHUT: &[u8] = &[0, 1, 2];

// Returns the refusal, and if the files are given back with these bytes.
fn refused<T: Drop>(
    answer: Result<T, (FourFiles<ModelFile>, Refusal)>,
    bytes: [&[u8]; 4],
) -> Option<(Refusal, bool)> {
    match answer {
        Ok(_) => None,
        Err((files, refusal)) => {
            let are_same = bytes_of(&files) == bytes;
            drop(files);
            Some((refusal, are_same))
        }
    }
}

// Asserts that no new world is made of these files, which are given back as they were.
fn try_not_empty(rt: &impl Abort, alloc: Global, bytes: [&[u8]; 4]) {
    let answer = fresh_files(alloc, 1, files_of(rt, alloc, bytes));
    let want = Some((Refusal::NotEmpty, true));
    same(rt, "a refusal", refused(answer, bytes), want);
}

static OPEN: [[&[u8]; 4]; 8] = [
    [IMAGE, SHUT, NONE, SHUT],
    [NONE, IMAGE, SHUT, NONE],
    [BAD_IMAGE, SHUT, NONE, SHUT],
    [NONE, BAD_IMAGE, SHUT, NONE],
    [SHUT, NONE, LOG, NONE],
    [NONE, SHUT, NONE, LOG],
    [SHUT, NONE, BAD_LOG, NONE],
    [NONE, SHUT, NONE, BAD_LOG],
];

/// Tries to make a world of files one of which is open.
pub fn try_open_files(rt: &impl Abort, alloc: Global) {
    for bytes in &OPEN {
        try_not_empty(rt, alloc, *bytes);
    }
}

/// Tries to make a world of the files of a new world.
pub fn try_made_files(rt: &impl Abort, alloc: Global) {
    let made = fresh(rt, alloc, 1);
    try_not_empty(rt, alloc, bytes_of(&made));
    drop(made);
}

/// Tries to make and open a world of the files of a new world.
pub fn try_created_again(rt: &impl Abort, alloc: Global) {
    let made = fresh(rt, alloc, 1);
    let bytes = bytes_of(&made);
    let files = files_of(rt, alloc, bytes);
    let answer = create_and_open::<PlainCopy, ModelFile>(alloc, 1, files, 64);
    let want = Some((Refusal::NotEmpty, true));
    same(rt, "a refusal", refused(answer, bytes), want);
    drop(made);
}

/// Makes a new world of files that are closed.
pub fn try_closed_files(rt: &impl Abort, alloc: Global) {
    let shut = files_of(rt, alloc, [SHUT; 4]);
    let files = reported(fresh_files(alloc, 2, shut)).expect(rt, "a new world");
    stands(rt, alloc, &files, (0, 0), &[0, 0]);
    drop(files);
}

static DAMAGED: [([&[u8]; 4], Refusal); 8] = [
    ([NONE; 4], Refusal::NoImage),
    ([SHUT; 4], Refusal::NoImage),
    ([NONE, SHUT, LOG, NONE], Refusal::NoImage),
    ([BAD_IMAGE, IMAGE, NONE, NONE], Refusal::BadImage),
    ([IMAGE, BAD_IMAGE, BAD_LOG, NONE], Refusal::BadImage),
    ([IMAGE, NONE, BAD_LOG, NONE], Refusal::BadLog),
    ([NONE, IMAGE, LOG, BAD_LOG], Refusal::BadLog),
    ([NONE, NONE, NONE, BAD_LOG], Refusal::BadLog),
];

// Asserts that no world is opened in these files, which are given back as they were.
fn try_damaged(rt: &impl Abort, alloc: Global, bytes: [&[u8]; 4], refusal: Refusal) {
    let files = files_of(rt, alloc, bytes);
    let answer = SerialWorld::<PlainCopy, ModelFile>::open(alloc, files, 64);
    let want = Some((refusal, true));
    same(rt, "a refusal", refused(answer, bytes), want);
}

/// Tries each of the damaged worlds.
pub fn try_damaged_files(rt: &impl Abort, alloc: Global) {
    for (bytes, refusal) in &DAMAGED {
        try_damaged(rt, alloc, *bytes, *refusal);
    }
}
