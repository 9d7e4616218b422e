//! Batches that are answered by values, and words that are read by their cells.
use super::disks::disks_of;
use super::same::same;
use super::worlds::{bytes_of, created, files_of, fresh, open, stands};
use batches::{Answer, Batch, Request};
use capture_core::{Capture, PlainCopy};
use disk_model::{Disk, Fused, ModelFile};
use serial_world::SerialWorld;
use std::alloc::Global;
use std::process::Abort;
use world_actions::{Action, Refusal};

// More calls than the log makes until a batch is answered.
const CALLS: u64 = 40;

// A batch with each kind of answer, on a world of two cells.
fn mixed_batch(alloc: Global) -> Result<Batch, Refusal> {
    let mut batch = Batch::new(alloc)?;
    batch.push_reserved(Request::Act(Action::Set { cell: 0, value: 5 }));
    batch.push_reserved(Request::Act(Action::Add { cell: 0, by: -2 }));
    batch.push_reserved(Request::Get(0));
    batch.push_reserved(Request::Act(Action::Set { cell: 2, value: 1 }));
    batch.push_reserved(Request::Get(2));
    batch.push_reserved(Request::Bad);
    Ok(batch)
}

const MIXED: &[Answer] = &[
    Answer::Done,
    Answer::Done,
    Answer::Word(3),
    Answer::Refused(Refusal::BadCell),
    Answer::Refused(Refusal::BadCell),
    Answer::Refused(Refusal::BadLine),
];

const NO_ANSWERS: &[Answer] = &[];

// A list that already has an answer.
fn used_list(alloc: Global) -> Result<Vec<Answer>, Refusal> {
    Ok(vec![in alloc; Answer::Done]?)
}

// Asserts what a batch gives: the number of its tick, and its answers.
fn plays<C: Capture, D: Disk>(
    rt: &impl Abort,
    alloc: Global,
    served: &mut SerialWorld<C, D>,
    tick: Result<u64, Refusal>,
    wanted: &[Answer],
) {
    let batch = mixed_batch(alloc).expect(rt, "a batch");
    let mut answers = used_list(alloc).expect(rt, "a list");
    let answer = served.play(&batch, &mut answers);
    same(rt, "the number of the tick", answer, tick);
    same(rt, "the answers", answers.as_slice(), wanted);
}

fn reads<C: Capture, D: Disk>(rt: &impl Abort, served: &mut SerialWorld<C, D>, words: [u64; 2]) {
    same(rt, "the number of cells", served.cells(), 2);
    same(rt, "the first word", served.read(0), Ok(words[0]));
    same(rt, "the second word", served.read(1), Ok(words[1]));
    same(rt, "a word outside", served.read(2), Err(Refusal::BadCell));
}

/// Plays two batches on a new world, and reads its words before, between and after them.
pub fn try_typed<C: Capture>(rt: &impl Abort, alloc: Global) {
    let mut served = created::<C>(rt, alloc, 2, 2);
    reads(rt, &mut served, [0, 0]);
    plays(rt, alloc, &mut served, Ok(1), MIXED);
    reads(rt, &mut served, [3, 0]);
    plays(rt, alloc, &mut served, Ok(2), MIXED);
    reads(rt, &mut served, [3, 0]);
    same(rt, "the acknowledged ticks", served.acked(), 2);
    let files = served.into_files();
    stands(rt, alloc, &files, (2, 2), &[3, 0]);
    drop(files);
}

/// Plays a batch on the world in these files, whose tick is the last one.
pub fn try_last(rt: &impl Abort, alloc: Global, bytes: [&[u8]; 4]) {
    let mut served = open::<PlainCopy>(rt, alloc, files_of(rt, alloc, bytes), 64);
    plays(rt, alloc, &mut served, Err(Refusal::TicksEnded), NO_ANSWERS);
    drop(served);
}

// Plays a batch on a world whose log went down in it, or returns false if it didn't.
fn is_lost<C: Capture, D: Disk>(
    rt: &impl Abort,
    alloc: Global,
    served: &mut SerialWorld<C, D>,
) -> bool {
    let batch = mixed_batch(alloc).expect(rt, "a batch");
    let mut answers = used_list(alloc).expect(rt, "a list");
    match served.play(&batch, &mut answers) {
        Ok(tick) => {
            same(rt, "the tick", (tick, served.acked()), (1, 1));
            same(rt, "the answers", answers.as_slice(), MIXED);
            false
        }
        Err(refusal) => {
            same(rt, "the refusal", refusal, Refusal::LogDown);
            same(rt, "no answers", answers.as_slice(), NO_ANSWERS);
            same(rt, "no tick is acknowledged", served.acked(), 0);
            reads(rt, served, [3, 0]);
            true
        }
    }
}

/// Fails each call of log.a in turn. Some batch is answered, and some log goes down.
pub fn try_lost(rt: &impl Abort, alloc: Global) {
    let files = fresh(rt, alloc, 2);
    let (mut answered, mut lost) = (false, false);
    for k in 1..CALLS {
        let disks = disks_of(rt, alloc, bytes_of(&files), 2, k);
        if let Ok(mut served) = SerialWorld::<PlainCopy, Fused<ModelFile>>::open(alloc, disks, 64) {
            if is_lost(rt, alloc, &mut served) {
                lost = true;
            } else {
                answered = true;
            }
        }
    }
    drop(files);
    same(rt, "both are met", (answered, lost), (true, true));
}
