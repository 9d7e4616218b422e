ghost use Rattle.world_actions.specs.World.{IsWord};

use super::same::same;
use batches::{BatchReader, answer_text};
use std::alloc::Global;
use std::process::Abort;
use world_actions::LIMIT;
use world_ticks::{Tick, Words};

// Answers the batch of a reader as the tick of this number. Returns the answer, and how many
// actions the tick has.
fn answered(
    rt: &impl Abort,
    alloc: Global,
    words: &mut Words,
    reader: &BatchReader,
    number: u64,
) -> (Vec<u8>, usize) {
    let (mut tick, mut text) = (Tick::new(alloc), Vec::new(alloc));
    let answered = answer_text(&mut text, words, &mut tick, reader.batch(), number);
    answered.expect(rt, "memory");
    (text, tick.actions().len())
}

// Batches, one after another, by the numbers of their ticks, and their answers.
const BATCHES: [(u64, &[u8], &[u8]); 3] = [
    (
        1,
        b"set 0 5\nget 0\nmove 0 1 9\nfoo\nend\n",
        b"tick 1: + =5 -3 -16\n",
    ),
    (2, b"end\n", b"tick 2:\n"),
    (
        3,
        b"get 2\nadd 0 -6\nset 1 1000000000000000000\nmove 1 1 0\nget 0\r\nend\n",
        b"tick 3: -1 -3 -2 -4 -16\n",
    ),
];

// Asserts the answer to a batch that leaves 5 in the first cell and 0 in the other.
fn check_answer(
    rt: &impl Abort,
    alloc: Global,
    words: &mut Words,
    batch: &[u8],
    number: u64,
    want: &[u8],
) {
    let reader = reader_of(rt, alloc, batch, 1);
    let (text, _) = answered(rt, alloc, words, &reader, number);
    same(rt, text.as_slice(), want);
    same(rt, words.as_slice(), [5, 0].as_slice());
}

#[test]
fn answers_each_line_in_the_world_after_those_before(rt: HostRuntime) {
    let mut words = Words::new(vec![in rt.alloc(); 0, 0].expect(&rt, "memory"));
    for (number, batch, want) in &BATCHES {
        check_answer(&rt, rt.alloc(), &mut words, batch, *number, want);
    }
}

// A reader that has taken a line so many times.
fn reader_of(rt: &impl Abort, alloc: Global, line: &[u8], count: usize) -> BatchReader {
    let mut reader = BatchReader::new(alloc).expect(rt, "memory");
    for _ in 0..count {
        reader.take(line);
    }
    reader
}

// The answer in a world of one cell that has this word.
fn answered_by(
    rt: &impl Abort,
    alloc: Global,
    word: u64,
    reader: &BatchReader,
    number: u64,
) -> (Vec<u8>, usize)
    requires { IsWord word }
{
    let mut words = Words::new(vec![in alloc; word].expect(rt, "memory"));
    answered(rt, alloc, &mut words, reader, number)
}

// True if 256 actions are answered by a plus each, and the next by a refusal. Then comes the
// word that is got.
fn has_256_actions(text: &[u8]) -> bool {
    text.starts_with(b"tick 7: + + + ")
        && text.ends_with(b" + + -5 =256\n")
        && text.len() == 7 + 2 * 256 + 3 + 5 + 1
}

#[test]
fn takes_256_actions_of_a_batch(rt: HostRuntime) {
    let mut reader = reader_of(&rt, rt.alloc(), b"add 0 1\n", 257);
    reader.take(b"get 0\n");
    let (text, actions) = answered_by(&rt, rt.alloc(), 0, &reader, 7);
    assert!(rt; has_256_actions(&text));
    same(&rt, actions, 256);
}

#[test]
fn the_longest_answer_has_room(rt: HostRuntime) {
    let reader = reader_of(&rt, rt.alloc(), b"get 0\n", 1024);
    let (text, _) = answered_by(&rt, rt.alloc(), LIMIT, &reader, u64::MAX);
    same(&rt, text.len(), 5 + 20 + 1 + 1024 * 20 + 1);
}
