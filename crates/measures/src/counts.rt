use crate::measuring::{CELLS, zeros};
use crate::moves::write_at_random;
use crate::seats::Seats;
use crate::store::Store;
use anyhow::Error;
use capture_core::{Capture, PlainCopy, Taken};
use ping_pong::PingPong;
use shared_capture::{ping_pong_pair, zigzag_pair};
use zigzag::Zigzag;

/// How many rounds the list has.
const ROUNDS: u32 = 5;

/// How many cells are written before each round.
const WRITES: u32 = 1024;

/// How many takes are made between two writes of a round.
const TAKES: usize = 16;

/// How many takes handed out a word, and how many handed out Same.
#[derive(Clone, Copy)]
struct Counts {
    words: u64,
    same: u64,
}

/// Prints for each store what its takes hand out, and how many bytes a cell needs. A cell needs
/// some words of 8 bytes, and some marks, of which 64 are in a word.
pub fn report_counts<R: Print + AllocGlobal>(rt: &R) -> Result<(), Error> {
    report_owned(rt)?;
    report_shared(rt)
}

fn report_owned<R: Print + AllocGlobal>(rt: &R) -> Result<(), Error> {
    let words = zeros(rt.alloc(), CELLS)?;
    let plain_copy = PlainCopy::build(rt.alloc(), &words)?;
    report_store(rt, "plain copy", plain_copy, 2, 0)?;
    let zigzag = Zigzag::new(rt.alloc(), &words)?;
    report_store(rt, "zigzag", zigzag, 2, 2)?;
    let ping_pong = PingPong::new(rt.alloc(), &words)?;
    report_store(rt, "pingpong", ping_pong, 3, 2)
}

fn report_shared<R: Print + AllocGlobal>(rt: &R) -> Result<(), Error> {
    let (front, back) = zigzag_pair(rt.alloc(), zeros(rt.alloc(), CELLS)?)?;
    report_store(rt, "shared zigzag", Seats::new(front, back), 3, 5)?;
    let (front, back) = ping_pong_pair(rt.alloc(), zeros(rt.alloc(), CELLS)?)?;
    report_store(rt, "shared pingpong", Seats::new(front, back), 3, 3)
}

fn report_store<R: Print, S: Store + Drop>(
    rt: &R,
    name: &str,
    mut store: S,
    words: u32,
    marks: u32,
) -> Result<(), Error> {
    let counts = count_takes(&mut store);
    let takes = counts.words.saturating_add(counts.same);
    let eighths = words.saturating_mul(64).saturating_add(marks);
    println!(rt;
        "{name}: {takes} takes, {} words and {} unchanged; {}.{:03} bytes a cell",
        counts.words,
        counts.same,
        eighths / 8,
        eighths % 8 * 125
    )?;
    Ok(())
}

// Counts the takes of one list of writes, marks and takes.
fn count_takes<S: Store>(store: &mut S) -> Counts {
    let mut counts = Counts { words: 0, same: 0 };
    let mut number = 1;
    for _ in 0..ROUNDS {
        number = write_at_random(store, number, WRITES);
        if store.try_mark() {
            store.find_round();
            number = count_round(store, number, &mut counts);
            store.finish_round();
        }
    }
    counts
}

fn count_round<S: Store>(store: &mut S, seed: u64, counts: &mut Counts) -> u64 {
    let mut number = seed;
    for i in 0..store.len() {
        if i % TAKES == 0 {
            number = write_at_random(store, number, 1);
        }
        match store.take() {
            Some(Taken::Word(_)) => counts.words = counts.words.saturating_add(1),
            Some(Taken::Same) => counts.same = counts.same.saturating_add(1),
            None => {}
        }
    }
    number
}
