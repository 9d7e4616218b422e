use super::same::{same, same_for};
use batches::{Batch, answer_text};
use sessions::{World, serve_lines};
use std::alloc::{AllocError, Global};
use std::io::{self, ErrorKind, Read, Write};
use std::process::Abort;
use world_actions::Refusal;
use world_ticks::{Tick, Words};

const BATCH: &[u8] = b"set 0 5\nget 0\nmove 0 1 9\nfoo\nend\n";

const ANSWER: &[u8] = b"tick 1: + =5 -3 -16\n";

// A world in memory, which loses nothing. The contract of `answer_text` defines what
// its batches do.
#[derive(Drop)]
struct Memory {
    alloc: Global,
    words: Words,
    ended: u64,
}

impl World for Memory {
    ghost use Rattle.std.specs.Prelude.{⊤};

    ghost runs = { λ old requests given new. ⊤ };

    fn batch(&mut self, b: &Batch, text: &mut Vec<u8>) -> Result<(), Refusal> {
        let mut tick = Tick::new(self.alloc);
        let number = self.ended.saturating_add(1);
        answer_text(text, &mut self.words, &mut tick, b, number)?;
        self.ended = number;
        Ok(())
    }
}

// Bytes that come a few at a time, and a failure at their end, if it is to fail.
#[derive(Drop)]
struct Pieces<'a> {
    bytes: &'a [u8],
    most: usize,
    fails: bool,
}

impl Read for Pieces<'_> {
    fn read(&mut self, buf: &mut [u8]) -> io::Result<usize> {
        if self.fails && self.bytes.is_empty() {
            return Err(io::Error::from(ErrorKind::Other));
        }
        let count = self.bytes.len().min(self.most).min(buf.len());
        let (now, later) = self.bytes.split_at(count);
        buf[..count].copy_from_slice(now);
        self.bytes = later;
        Ok(count)
    }
}

// A page that takes `room` more bytes, and then fails.
#[derive(Drop)]
struct Page {
    bytes: Vec<u8>,
    room: usize,
}

impl Write for Page {
    fn write(&mut self, buf: &[u8]) -> io::Result<usize> {
        let count = buf.len().min(self.room);
        if count == 0 || self.bytes.extend_from_slice(&buf[..count]).is_err() {
            return Err(io::Error::from(ErrorKind::Other));
        }
        self.room -= count;
        Ok(count)
    }

    fn flush(&mut self) -> io::Result<()> {
        Ok(())
    }
}

// The end of a session: its result, its text, and how many ticks ended in it.
#[derive(Clone, Copy)]
struct End<'a> {
    result: Result<(), Refusal>,
    text: &'a [u8],
    ticks: u64,
}

// A world of two cells.
fn new_world(rt: &impl Abort, alloc: Global) -> Memory {
    Memory {
        alloc,
        words: Words::new(vec![in alloc; 0, 0].expect(rt, "memory")),
        ended: 0,
    }
}

// Asserts that a session on a world of two cells ends so.
fn check_session(rt: &impl Abort, alloc: Global, mut input: Pieces<'_>, room: usize, end: End<'_>) {
    let mut world = new_world(rt, alloc);
    let mut page = Page {
        bytes: Vec::new(alloc),
        room,
    };
    let case = (input.bytes.len(), input.most, room);
    let result = serve_lines(alloc, &mut input, &mut page, &mut world);
    let given = (result, page.bytes.as_slice(), world.ended);
    same_for(rt, case, given, (end.result, end.text, end.ticks));
}

// Serves an input in pieces of one byte, of seven and in one.
fn try_pieces(rt: &impl Abort, alloc: Global, bytes: &[u8], end: End<'_>) {
    for most in [1, 7, usize::MAX] {
        let input = Pieces {
            bytes,
            most,
            fails: false,
        };
        check_session(rt, alloc, input, usize::MAX, end);
    }
}

// Inputs, the answers to each, and how many ticks end.
const SESSIONS: [(&[u8], &[u8], u64); 6] = [
    (BATCH, ANSWER, 1),
    (b"set 0 5\nget 0\nmove 0 1 9\nfoo\n", b"", 0),
    (b"end\n", b"tick 1:\n", 1),
    // A line of one byte more than a line has.
    (
        b"set 0 5\nget 00000000000000000000000000000000000000000000000000000000000000000000000000000\nget 0\nend\n",
        b"tick 1: + -16 =5\n",
        1,
    ),
    (
        b"set 0 5\nend\nget 0\nset 0 6\nend\nset 0 7\nend",
        b"tick 1: +\ntick 2: =5 +\n",
        2,
    ),
    (b"", b"", 0),
];

#[test]
fn answers_whole_batches(rt: HostRuntime) {
    for (bytes, text, ticks) in &SESSIONS {
        let end = End {
            result: Ok(()),
            text,
            ticks: *ticks,
        };
        try_pieces(&rt, rt.alloc(), bytes, end);
    }
}

// Some bytes, and then a batch of 1025 lines.
fn too_many_lines(alloc: Global, before: &[u8]) -> Result<Vec<u8>, AllocError> {
    let mut input = Vec::from_slice(alloc, before)?;
    for _ in 0..1025 {
        input.extend_from_slice(b"get 0\n")?;
    }
    input.extend_from_slice(b"end\nend\n")?;
    Ok(input)
}

// The input before a batch that is too long, the answers, and how many ticks end.
const BEFORE: [(&[u8], &[u8], u64); 2] = [
    (b"", b"fault 16\n", 0),
    (BATCH, b"tick 1: + =5 -3 -16\nfault 16\n", 1),
];

#[test]
fn a_batch_of_1025_lines_ends_the_session(rt: HostRuntime) {
    for (before, text, ticks) in &BEFORE {
        let input = too_many_lines(rt.alloc(), before).expect(&rt, "memory");
        let end = End {
            result: Err(Refusal::BadLine),
            text,
            ticks: *ticks,
        };
        try_pieces(&rt, rt.alloc(), &input, end);
    }
}

#[test]
fn a_writer_that_fails_has_a_front(rt: HostRuntime) {
    let whole = b"tick 1: +\ntick 2: =5\n";
    for room in 0..whole.len() {
        let input = Pieces {
            bytes: b"set 0 5\nend\nget 0\nend\n",
            most: 5,
            fails: false,
        };
        let end = End {
            result: Err(Refusal::Device),
            text: &whole[..room],
            ticks: if room < 10 { 1 } else { 2 },
        };
        check_session(&rt, rt.alloc(), input, room, end);
    }
}

// How many bytes of an input are left unread once an answer to it can't be written. The input
// comes byte by byte.
fn left_unread(rt: &impl Abort, alloc: Global, bytes: &[u8]) -> usize {
    let mut input = Pieces {
        bytes,
        most: 1,
        fails: false,
    };
    let mut page = Page {
        bytes: Vec::new(alloc),
        room: 0,
    };
    let mut world = new_world(rt, alloc);
    let result = serve_lines(alloc, &mut input, &mut page, &mut world);
    same(rt, result, Err(Refusal::Device));
    input.bytes.len()
}

#[test]
fn a_writer_that_fails_ends_the_reading(rt: HostRuntime) {
    let left = left_unread(&rt, rt.alloc(), b"set 0 5\nend\nget 0\nend\n");
    same(&rt, left, b"get 0\nend\n".len());
}

#[test]
fn a_reader_that_fails_leaves_whole_answers(rt: HostRuntime) {
    for length in 0..BATCH.len() + 1 {
        let input = Pieces {
            bytes: &BATCH[..length],
            most: 5,
            fails: true,
        };
        let is_whole = length == BATCH.len();
        let text = if is_whole { ANSWER } else { b"" };
        let end = End {
            result: Err(Refusal::Device),
            text,
            ticks: u64::from(is_whole),
        };
        check_session(&rt, rt.alloc(), input, usize::MAX, end);
    }
}
