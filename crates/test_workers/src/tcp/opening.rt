use crate::same::same;
use crate::worlds::{files_of, new_files, open_world};
use capture_core::PlainCopy;
use disk_model::{FourFiles, ModelFile};
use recovery::{Recovered, recover};
use serial_world::SerialWorld;
use sessions::serve_lines;
use shared_capture::{Front, Method, Pong, Zig};
use std::alloc::Global;
use std::process::Abort;
use worker_steps::Opened;
use world_actions::Refusal;
use world_ticks::Cells;

const BATCHES: &[u8] = b"set 0 5\nset 1 6\nend\nmove 0 1 2\nend\n";

type World = SerialWorld<PlainCopy, ModelFile>;

fn opened(rt: &impl Abort, alloc: Global, files: FourFiles<ModelFile>) -> World {
    match World::open(alloc, files, 64) {
        Ok(served) => served,
        Err((_, refusal)) => panic!(rt; "no world: {refusal}"),
    }
}

// The files of a world of two cells after two ticks, with an image of tick 0.
fn played(rt: &impl Abort, alloc: Global) -> FourFiles<ModelFile> {
    let mut served = opened(rt, alloc, new_files(rt, alloc, 2));
    let mut input = BATCHES;
    let mut page = Vec::new(alloc);
    serve_lines(alloc, &mut input, &mut page, &mut served).expect(rt, "a session");
    served.into_files()
}

// The word of a cell, if there is one.
fn word_of<M: Method>(front: &mut Front<M>, cell: usize) -> Option<u64> {
    if cell < front.len() {
        Some(front.read(cell))
    } else {
        None
    }
}

// The world in these files, opened for its workers.
fn seated<M: Method>(
    rt: &impl Abort,
    alloc: Global,
    files: FourFiles<ModelFile>,
) -> (Opened<M, ModelFile>, u64) {
    match open_world::<M, ModelFile>(alloc, files) {
        Ok(opened) => opened,
        Err((_, refusal)) => panic!(rt; "no world: {refusal}"),
    }
}

fn has_words<M: Method>(rt: &impl Abort, front: &mut Front<M>) {
    for (cell, word) in [(0, Some(3)), (1, Some(8)), (2, None)] {
        same(rt, "a word", word_of(front, cell), word);
    }
}

// Recovers from the durable bytes.
fn found<M: Method>(alloc: Global, opened: &Opened<M, ModelFile>) -> Result<Recovered, Refusal> {
    recover(
        alloc,
        opened.images.image_a.durable(),
        opened.images.image_b.durable(),
        opened.log.a.durable(),
        opened.log.b.durable(),
    )
}

// The start has ended, and the files have its image.
fn is_started<M: Method>(rt: &impl Abort, alloc: Global, opened: &Opened<M, ModelFile>) {
    let found = found(alloc, opened).expect(rt, "a world that stands");
    let ticks = (found.tick, found.from);
    same(rt, "the tick and that of the image", ticks, (2, 2));
    same(rt, "the words", found.words.as_slice(), &[3, 8]);
}

fn is_world<M: Method>(
    rt: &impl Abort,
    alloc: Global,
    opened: &mut Opened<M, ModelFile>,
    from: u64,
) {
    same(rt, "the ticks", (opened.ended, from), (2, 0));
    has_words(rt, &mut opened.front);
    is_started(rt, alloc, opened);
}

fn try_open<M: Method>(rt: &impl Abort, alloc: Global) {
    let (mut opened, from) = seated::<M>(rt, alloc, played(rt, alloc));
    is_world(rt, alloc, &mut opened, from);
    drop(opened);
}

#[test]
fn opens_worlds_for_their_workers(rt: HostRuntime) {
    try_open::<Zig>(&rt, rt.alloc());
    try_open::<Pong>(&rt, rt.alloc());
}

// Returns the refusal of these files, and if image.a still has these bytes.
fn refused<M: Method>(
    alloc: Global,
    files: FourFiles<ModelFile>,
    image: &[u8],
) -> Option<(Refusal, bool)> {
    let (files, refusal) = open_world::<M, ModelFile>(alloc, files).err()?;
    Some((refusal, files.image_a.now() == image))
}

fn try_refused<M: Method>(rt: &impl Abort, alloc: Global, image: &[u8], reason: Refusal) {
    let answer = refused::<M>(alloc, files_of(rt, alloc, image), image);
    same(rt, "a refusal", answer, Some((reason, true)));
}

#[test]
fn gives_files_back_that_hold_no_world(rt: HostRuntime) {
    try_refused::<Zig>(&rt, rt.alloc(), &[], Refusal::NoImage);
    try_refused::<Pong>(&rt, rt.alloc(), &[1; 17], Refusal::BadImage);
}
