//! Sessions on a served world whose reader or writer fails.
use super::same::same;
use super::worlds::{fresh, open, stands};
use capture_core::PlainCopy;
use disk_model::ModelFile;
use serial_world::SerialWorld;
use sessions::serve_lines;
use std::alloc::Global;
use std::io::{self, ErrorKind, Read, Write};
use std::process::Abort;
use world_actions::Refusal;

/// Two batches.
pub const INPUT: &[u8] = b"set 0 5\nend\nget 0\nset 0 6\nend\n";

/// Their answers.
pub const TEXT: &[u8] = b"tick 1: +\ntick 2: =5 +\n";

/// How many bytes the input has up to the end of the first batch, and of the second.
pub const WHOLE: [usize; 2] = [12, 30];

/// How many bytes the first answer has.
pub const FIRST_ANSWER: usize = 10;

// Bytes, and a failure at their end.
#[derive(Drop)]
struct Broken<'a> {
    bytes: &'a [u8],
}

impl Read for Broken<'_> {
    fn read(&mut self, buf: &mut [u8]) -> io::Result<usize> {
        if self.bytes.is_empty() {
            return Err(io::Error::from(ErrorKind::Other));
        }
        let count = self.bytes.len().min(5).min(buf.len());
        let (now, later) = self.bytes.split_at(count);
        buf[..count].copy_from_slice(now);
        self.bytes = later;
        Ok(count)
    }
}

// A page that takes `room` more bytes, and then fails.
#[derive(Drop)]
struct Page {
    bytes: Vec<u8>,
    room: usize,
}

impl Write for Page {
    fn write(&mut self, buf: &[u8]) -> io::Result<usize> {
        let count = buf.len().min(self.room);
        if count == 0 || self.bytes.extend_from_slice(&buf[..count]).is_err() {
            return Err(io::Error::from(ErrorKind::Other));
        }
        self.room -= count;
        Ok(count)
    }

    fn flush(&mut self) -> io::Result<()> {
        Ok(())
    }
}

// The text of a session that ends with a failure of its reader or its writer.
fn serve_broken(
    rt: &impl Abort,
    alloc: Global,
    served: &mut SerialWorld<PlainCopy, ModelFile>,
    input: &[u8],
    room: usize,
) -> Vec<u8> {
    let mut input = Broken { bytes: input };
    let mut page = Page {
        bytes: Vec::new(alloc),
        room,
    };
    let ended = serve_lines(alloc, &mut input, &mut page, served);
    same(rt, "how the session ends", ended, Err(Refusal::Device));
    page.bytes
}

/// Plays a session on a world of one cell. A call fails after this input is read, or after so many
/// bytes of answers are written. Asserts the written text, and how many batches are acknowledged
/// and recovered. Each has an image.
pub fn try_broken(
    rt: &impl Abort,
    alloc: Global,
    input: &[u8],
    room: usize,
    text: &[u8],
    batches: u64,
) {
    let mut served = open::<PlainCopy>(rt, alloc, fresh(rt, alloc, 1), 1);
    let given = serve_broken(rt, alloc, &mut served, input, room);
    same(rt, "the text", given.as_slice(), text);
    same(rt, "what is acknowledged", served.acked(), batches);
    let files = served.into_files();
    stands(rt, alloc, &files, (batches, batches), word_after(batches));
    drop(files);
}

fn word_after(batches: u64) -> &'static [u64] {
    match batches {
        0 => &[0],
        1 => &[5],
        _ => &[6],
    }
}
