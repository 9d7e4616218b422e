use crate::case::{Case, digest, digest_of_bytes, folded};
use batches::{Answer, Batch, BatchReader, Fed, Request, answer_each};
use shared_capture::{Front, Zig, zigzag_pair};
use std::alloc::Global;
use workers::play;
use world_actions::{Action, Refusal};
use world_ticks::{Cells, Tick, Words, act};

const SET: Action = Action::Set { cell: 0, value: 5 };

/// A case that plays an action on a tick without room.
#[derive(Drop)]
pub struct Act {
    words: Words,
    tick: Tick,
}

impl Case for Act {
    fn name() -> &'static str {
        "act"
    }

    fn refusal() -> Refusal {
        Refusal::NoMemory
    }

    fn set_up(alloc: Global) -> Result<Self, Refusal> {
        Ok(Act {
            words: Words::new(vec![in alloc; 3, 4]?),
            tick: Tick::new(alloc),
        })
    }

    fn call(&mut self) -> Result<u64, Refusal> {
        act(&mut self.words, &mut self.tick, SET)?;
        Ok(0)
    }

    fn seen(&mut self) -> u64 {
        folded(
            digest(self.words.as_slice()),
            self.tick.actions().len() as u64,
        )
    }
}

/// A case that reserves room for more actions.
#[derive(Drop)]
pub struct ReserveTick {
    tick: Tick,
}

impl Case for ReserveTick {
    fn name() -> &'static str {
        "Tick::reserve"
    }

    fn refusal() -> Refusal {
        Refusal::NoMemory
    }

    fn set_up(alloc: Global) -> Result<Self, Refusal> {
        let mut tick = Tick::new(alloc);
        tick.reserve(1)?;
        tick.push_reserved(SET);
        Ok(ReserveTick { tick })
    }

    fn call(&mut self) -> Result<u64, Refusal> {
        self.tick.reserve(200)?;
        Ok(0)
    }

    fn seen(&mut self) -> u64 {
        self.tick.actions().len() as u64
    }
}

// A batch of an action and a read of its cell.
fn batch(alloc: Global) -> Result<Batch, Refusal> {
    let mut batch = Batch::new(alloc)?;
    batch.push_reserved(Request::Act(SET));
    batch.push_reserved(Request::Get(0));
    Ok(batch)
}

/// A case that copies a batch.
#[derive(Drop)]
pub struct CopyBatch {
    alloc: Global,
    batch: Batch,
}

impl Case for CopyBatch {
    fn name() -> &'static str {
        "Batch::try_copy"
    }

    fn refusal() -> Refusal {
        Refusal::NoMemory
    }

    fn set_up(alloc: Global) -> Result<Self, Refusal> {
        Ok(CopyBatch {
            alloc,
            batch: batch(alloc)?,
        })
    }

    fn call(&mut self) -> Result<u64, Refusal> {
        let copy = self.batch.try_copy(Batch::empty(self.alloc))?;
        Ok(u64::from(copy.requests() == self.batch.requests()))
    }

    fn seen(&mut self) -> u64 {
        self.batch.requests().len() as u64
    }
}

/// A case that runs a batch on a list of words, and answers by values.
#[derive(Drop)]
pub struct AnswerEach {
    alloc: Global,
    words: Words,
    batch: Batch,
}

impl Case for AnswerEach {
    fn name() -> &'static str {
        "answer_each"
    }

    fn refusal() -> Refusal {
        Refusal::NoMemory
    }

    fn set_up(alloc: Global) -> Result<Self, Refusal> {
        Ok(AnswerEach {
            alloc,
            words: Words::new(vec![in alloc; 3, 4]?),
            batch: batch(alloc)?,
        })
    }

    fn call(&mut self) -> Result<u64, Refusal> {
        let mut tick = Tick::new(self.alloc);
        let mut answers = Vec::new(self.alloc);
        answer_each(&mut answers, &mut self.words, &mut tick, &self.batch)?;
        let are_right = answers.as_slice() == [Answer::Done, Answer::Word(5)].as_slice();
        Ok(folded(u64::from(are_right), tick.actions().len() as u64))
    }

    fn seen(&mut self) -> u64 {
        digest(self.words.as_slice())
    }
}

/// A case that makes a reader of batches.
#[derive(Drop)]
pub struct NewReader {
    alloc: Global,
}

impl Case for NewReader {
    fn name() -> &'static str {
        "BatchReader::new"
    }

    fn refusal() -> Refusal {
        Refusal::NoMemory
    }

    fn set_up(alloc: Global) -> Result<Self, Refusal> {
        Ok(NewReader { alloc })
    }

    fn call(&mut self) -> Result<u64, Refusal> {
        let mut reader = BatchReader::new(self.alloc)?;
        let (taken, fed) = reader.take(b"set 0 5\nend\n");
        Ok(folded(taken as u64, u64::from(fed == Fed::Whole)))
    }

    fn seen(&mut self) -> u64 {
        0
    }
}

/// A case that runs a batch on a front.
#[derive(Drop)]
pub struct Play {
    alloc: Global,
    front: Front<Zig>,
    batch: Batch,
}

impl Case for Play {
    fn name() -> &'static str {
        "play"
    }

    fn refusal() -> Refusal {
        Refusal::NoMemory
    }

    fn set_up(alloc: Global) -> Result<Self, Refusal> {
        let (front, _) = zigzag_pair(alloc, vec![in alloc; 3, 4]?)?;
        Ok(Play {
            alloc,
            front,
            batch: batch(alloc)?,
        })
    }

    fn call(&mut self) -> Result<u64, Refusal> {
        let buffer = Vec::new(self.alloc);
        let (tick, text) = play(self.alloc, buffer, &mut self.front, &self.batch, 0, 0)?;
        Ok(folded(digest_of_bytes(&text), tick.actions().len() as u64))
    }

    fn seen(&mut self) -> u64 {
        if self.front.len() != 2 {
            return 0;
        }
        digest(&[self.front.read(0), self.front.read(1)])
    }
}
