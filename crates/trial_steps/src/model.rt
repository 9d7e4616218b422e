use crate::tally::Tally;
use crate::words::Words;
use batches::{Batch, Request};
use std::alloc::Global;
use world_actions::Refusal;

/// The most actions that a tick accepts.
const ACTIONS: u32 = 256;

/// A model of a world: the words after each tick, and the answer of each. It knows nothing of
/// files or workers.
#[derive(Drop)]
pub struct PlainModel {
    alloc: Global,
    // The tick with which the model begins.
    base: u64,
    // The words after that tick, and after each later one.
    worlds: Vec<Words>,
    // The answer of each tick after that one.
    texts: Vec<Vec<u8>>,
}

impl PlainModel {
    /// A world of these words after this tick.
    pub fn new(alloc: Global, tick: u64, words: Vec<u64>) -> Result<Self, Refusal> {
        let mut worlds = Vec::new(alloc);
        worlds.push(Words::new(words))?;
        Ok(PlainModel {
            alloc,
            base: tick,
            worlds,
            texts: Vec::new(alloc),
        })
    }

    /// The last tick.
    pub fn last(&self) -> u64 {
        self.base.saturating_add(self.texts.len() as u64)
    }

    /// Runs a batch as the next tick, and counts the refusals in its answer.
    pub fn play(&mut self, batch: &Batch, tally: &mut Tally) -> Result<u64, Refusal> {
        let tick = self.last().saturating_add(1);
        self.copy_last()?;
        let (Some(words), Some(text)) = (self.worlds.last_mut(), self.texts.last_mut()) else {
            return Err(Refusal::Impossible);
        };
        put(text, format!(in self.alloc; "tick {tick}:")?.as_str())?;
        answer(self.alloc, words, batch.requests(), tally, text)?;
        Ok(tick)
    }

    // Adds a copy of the last world, and an empty answer.
    fn copy_last(&mut self) -> Result<(), Refusal> {
        let last = self.worlds.last().ok_or(Refusal::Impossible)?;
        let words = last.try_copy(self.alloc)?;
        self.worlds.push(words)?;
        self.texts.push(Vec::new(self.alloc))?;
        Ok(())
    }

    /// True if this is the answer of a tick.
    pub fn is_answer(&self, tick: u64, text: &[u8]) -> bool {
        let at = tick.wrapping_sub(self.base).wrapping_sub(1) as usize;
        match self.texts.get(at) {
            Some(wanted) => wanted.as_slice() == text,
            None => false,
        }
    }

    /// True if these are the words after a tick.
    pub fn is_world(&self, tick: u64, words: &[u64]) -> bool {
        match self.worlds.get(tick.wrapping_sub(self.base) as usize) {
            Some(wanted) => wanted.are(words),
            None => false,
        }
    }
}

// Runs the requests, and writes their replies and the end of the line.
fn answer(
    alloc: Global,
    words: &mut Words,
    requests: &[Request],
    tally: &mut Tally,
    text: &mut Vec<u8>,
) -> Result<(), Refusal> {
    let mut accepted = 0;
    for request in requests {
        match reply(words, &mut accepted, *request) {
            Ok(None) => put(text, " +")?,
            Ok(Some(word)) => put_number(alloc, text, " =", word)?,
            Err(refusal) => {
                tally.count_refusal(refusal);
                put_number(alloc, text, " -", u64::from(refusal.code()))?;
            }
        }
    }
    put(text, "\n")
}

// Runs a request. A read returns a word.
fn reply(words: &mut Words, accepted: &mut u32, request: Request) -> Result<Option<u64>, Refusal> {
    match request {
        Request::Act(_) if *accepted >= ACTIONS => Err(Refusal::TickFull),
        Request::Act(action) => {
            words.act(action)?;
            *accepted = accepted.saturating_add(1);
            Ok(None)
        }
        Request::Get(cell) => Ok(Some(words.word(cell)?)),
        Request::Bad => Err(Refusal::BadLine),
    }
}

fn put_number(alloc: Global, text: &mut Vec<u8>, before: &str, number: u64) -> Result<(), Refusal> {
    let part = format!(in alloc; "{before}{number}")?;
    put(text, part.as_str())
}

fn put(text: &mut Vec<u8>, part: &str) -> Result<(), Refusal> {
    text.extend_from_slice(part.as_bytes())?;
    Ok(())
}
