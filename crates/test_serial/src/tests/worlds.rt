//! Worlds in four files, and sessions that are played on them.
ghost use Rattle.std.specs.Prelude.{◌≤◌};
ghost use Rattle.world_actions.specs.declared.world.TheConstants.{CELLS};

use super::same::same;
use crate::create_and_open;
use capture_core::Capture;
use disk_model::{Disk, FourFiles, ModelFile};
use recovery::{Recovered, recover};
use serial_world::SerialWorld;
use sessions::serve_lines;
use std::alloc::Global;
use std::io::{self, Read};
use std::process::Abort;
use world_actions::Refusal;
use world_start::fresh_files;

/// A file without bytes, or a session without answers.
pub const NONE: &[u8] = &[];

/// An image of one cell, 0, at tick 0.
pub const IMAGE: &[u8] = &[
    1, 1, 0, 0, 0, 0, 0, 0, 0, 0, 0, 0, 0, 0, 0, 0, 0, 0, 0, 0, 0, 0, 0, 0, 0,
];

/// Bytes that come in pieces of at most `most`.
#[derive(Drop)]
struct Pieces<'a> {
    bytes: &'a [u8],
    most: usize,
}

impl Read for Pieces<'_> {
    fn read(&mut self, buf: &mut [u8]) -> io::Result<usize> {
        let count = self.bytes.len().min(self.most).min(buf.len());
        let (now, later) = self.bytes.split_at(count);
        buf[..count].copy_from_slice(now);
        self.bytes = later;
        Ok(count)
    }
}

/// Returns the answer, without the files of a refusal.
pub fn reported<T: Drop, D: Disk + Drop>(
    answer: Result<T, (FourFiles<D>, Refusal)>,
) -> Result<T, Refusal> {
    match answer {
        Ok(value) => Ok(value),
        Err((_, refusal)) => Err(refusal),
    }
}

fn file_of(rt: &impl Abort, alloc: Global, bytes: &[u8]) -> ModelFile {
    let bytes = Vec::from_slice(alloc, bytes).expect(rt, "memory for bytes");
    ModelFile::new(alloc, bytes).expect(rt, "memory for a file")
}

/// Files with these bytes: image.a, image.b, log.a and log.b.
pub fn files_of(rt: &impl Abort, alloc: Global, bytes: [&[u8]; 4]) -> FourFiles<ModelFile> {
    let [image_a, image_b, log_a, log_b] = bytes;
    FourFiles {
        image_a: file_of(rt, alloc, image_a),
        image_b: file_of(rt, alloc, image_b),
        log_a: file_of(rt, alloc, log_a),
        log_b: file_of(rt, alloc, log_b),
    }
}

/// The present bytes of the files.
pub fn bytes_of(files: &FourFiles<ModelFile>) -> [&[u8]; 4] {
    [
        files.image_a.now(),
        files.image_b.now(),
        files.log_a.now(),
        files.log_b.now(),
    ]
}

/// The files of a new world.
pub fn fresh(rt: &impl Abort, alloc: Global, cells: u32) -> FourFiles<ModelFile>
    requires { (1 ≤ cells) × (cells ≤ CELLS) }
{
    let files = files_of(rt, alloc, [NONE; 4]);
    reported(fresh_files(alloc, cells, files)).expect(rt, "a new world")
}

pub fn open<C: Capture>(
    rt: &impl Abort,
    alloc: Global,
    files: FourFiles<ModelFile>,
    every: u32,
) -> SerialWorld<C, ModelFile> {
    reported(SerialWorld::open(alloc, files, every)).expect(rt, "a world")
}

/// A new world, made and opened in one call.
pub fn created<C: Capture>(
    rt: &impl Abort,
    alloc: Global,
    cells: u32,
    every: u32,
) -> SerialWorld<C, ModelFile>
    requires { (1 ≤ cells) × (cells ≤ CELLS) }
{
    let files = files_of(rt, alloc, [NONE; 4]);
    reported(create_and_open(alloc, cells, files, every)).expect(rt, "a new world")
}

fn durable(alloc: Global, files: &FourFiles<ModelFile>) -> Result<Recovered, Refusal> {
    recover(
        alloc,
        files.image_a.durable(),
        files.image_b.durable(),
        files.log_a.durable(),
        files.log_b.durable(),
    )
}

/// Asserts what recovery finds in the durable bytes: the tick, that of the image, and the words.
pub fn stands(
    rt: &impl Abort,
    alloc: Global,
    files: &FourFiles<ModelFile>,
    ticks: (u64, u64),
    words: &[u64],
) {
    let found = durable(alloc, files).expect(rt, "a world that stands");
    same(
        rt,
        "the tick and that of the image",
        (found.tick, found.from),
        ticks,
    );
    same(rt, "the words", found.words.as_slice(), words);
}

/// A session: the recovered tick and that of its image, and the input. Then its end, its text, and
/// the last acknowledged tick.
#[derive(Clone, Copy)]
pub struct Session<'a> {
    pub recovered: (u64, u64),
    pub input: &'a [u8],
    pub ends: Result<(), Refusal>,
    pub text: &'a [u8],
    pub acked: u64,
}

/// Serves a session on this input, which comes in pieces of at most so many bytes. Returns its
/// end and its text.
pub fn serve<C: Capture, D: Disk>(
    alloc: Global,
    served: &mut SerialWorld<C, D>,
    input: &[u8],
    most: usize,
) -> (Result<(), Refusal>, Vec<u8>) {
    let mut pieces = Pieces { bytes: input, most };
    let mut page = Vec::new(alloc);
    let ends = serve_lines(alloc, &mut pieces, &mut page, served);
    (ends, page)
}

/// Plays a session, whose input comes in pieces of at most so many bytes.
pub fn play<C: Capture, D: Disk>(
    rt: &impl Abort,
    alloc: Global,
    served: &mut SerialWorld<C, D>,
    session: &Session<'_>,
    most: usize,
) {
    let (recovered, acked) = (session.recovered, session.acked);
    let stood = (served.recovered(), served.acked());
    same(rt, "before the session", stood, (recovered, recovered.0));
    let (ends, text) = serve(alloc, served, session.input, most);
    same(rt, "how the session ends", ends, session.ends);
    same(rt, "its text", text.as_slice(), session.text);
    let stands = (served.recovered(), served.acked());
    same(rt, "after the session", stands, (recovered, acked));
}

/// A session on a world that makes a checkpoint after so many ticks. `found` and `words` are then
/// recovered from the durable bytes: the tick, that of the image, and the words.
#[derive(Clone, Copy)]
pub struct Case<'a> {
    pub every: u32,
    pub session: Session<'a>,
    pub found: (u64, u64),
    pub words: &'a [u64],
}

/// Tries a case on the world in these files, and gives them back.
pub fn try_case<C: Capture>(
    rt: &impl Abort,
    alloc: Global,
    files: FourFiles<ModelFile>,
    case: &Case<'_>,
    most: usize,
) -> FourFiles<ModelFile> {
    let mut served = open::<C>(rt, alloc, files, case.every);
    play(rt, alloc, &mut served, &case.session, most);
    let files = served.into_files();
    stands(rt, alloc, &files, case.found, case.words);
    files
}

/// Tries a case on a new world.
pub fn try_new<C: Capture>(rt: &impl Abort, alloc: Global, cells: u32, case: &Case<'_>, most: usize)
    requires { (1 ≤ cells) × (cells ≤ CELLS) }
{
    let files = try_case::<C>(rt, alloc, fresh(rt, alloc, cells), case, most);
    drop(files);
}

/// 1,025 lines and an end.
pub fn long_batch(rt: &impl Abort, alloc: Global) -> Vec<u8> {
    let mut lines = Vec::new(alloc);
    for _ in 0..1025 {
        lines.extend_from_slice(b"get 0\n").expect(rt, "memory");
    }
    lines.extend_from_slice(b"end\n").expect(rt, "memory");
    lines
}
