use crate::case::{Case, folded};
use action_log::LogAnswer;
use capture_core::PlainCopy;
use disk_model::Leaving;
use image_files::ImageAnswer;
use std::alloc::Global;
use world_actions::{Action, Refusal};
use world_core::{Answer, Core, Fate, Move, run};
use zigzag::Zigzag;

const SET: Action = Action::Set { cell: 0, value: 5 };

/// More moves than a start, a round or a log of one group needs.
const MOVES: u32 = 100;

/// A case that makes a core.
#[derive(Drop)]
pub struct Fresh {
    alloc: Global,
}

impl Case for Fresh {
    fn name() -> &'static str {
        "Core::fresh"
    }

    fn refusal() -> Refusal {
        Refusal::NoMemory
    }

    fn set_up(alloc: Global) -> Result<Self, Refusal> {
        Ok(Fresh { alloc })
    }

    fn call(&mut self) -> Result<u64, Refusal> {
        let core = Core::<Zigzag>::fresh(self.alloc, 2)?;
        Ok(u64::from(core.cells()))
    }

    fn seen(&mut self) -> u64 {
        0
    }
}

/// A case that crashes a core whose log has a tick.
#[derive(Drop)]
pub struct Crash {
    core: Core<Zigzag>,
}

impl Case for Crash {
    fn name() -> &'static str {
        "Core::step of a crash"
    }

    fn refusal() -> Refusal {
        Refusal::NoMemory
    }

    fn set_up(alloc: Global) -> Result<Self, Refusal> {
        let mut core = Core::fresh(alloc, 2)?;
        settle(&mut core);
        core.step(Move::Act(SET));
        core.step(Move::End);
        settle(&mut core);
        Ok(Crash { core })
    }

    fn call(&mut self) -> Result<u64, Refusal> {
        let left = self.core.remains(Leaving::Lose)?;
        match self.core.step(Move::Crash(left)) {
            Answer::Recovered { tick, from } => Ok(folded(tick, from)),
            Answer::Refused(refusal) => Err(refusal),
            _ => Ok(0),
        }
    }

    fn seen(&mut self) -> u64 {
        let starting = u64::from(self.core.starting());
        folded(number_of(self.core.step(Move::Get(0))), starting)
    }
}

/// A case that runs moves over a fresh core.
#[derive(Drop)]
pub struct Run {
    alloc: Global,
}

impl Case for Run {
    fn name() -> &'static str {
        "run"
    }

    fn refusal() -> Refusal {
        Refusal::NoMemory
    }

    fn set_up(alloc: Global) -> Result<Self, Refusal> {
        Ok(Run { alloc })
    }

    fn call(&mut self) -> Result<u64, Refusal> {
        let mut moves = Vec::with_capacity(self.alloc, 4)?;
        moves.push(Move::Get(0))?;
        moves.push(Move::Get(1))?;
        let (answers, core) = run::<PlainCopy>(self.alloc, 2, moves)?;
        Ok(folded(answers.len() as u64, u64::from(core.cells())))
    }

    fn seen(&mut self) -> u64 {
        0
    }
}

/// Runs both keepers until they have nothing to do.
pub fn settle(core: &mut Core<Zigzag>) -> u64 {
    let mut sum = settle_images(core);
    for _ in 0..MOVES {
        sum = folded(sum, number_of(core.step(Move::Log(Fate::Done))));
    }
    sum
}

/// Runs the image keeper until it has nothing to do.
pub fn settle_images(core: &mut Core<Zigzag>) -> u64 {
    let mut sum = 0;
    for _ in 0..MOVES {
        sum = folded(sum, number_of(core.step(Move::Image(Fate::Done))));
    }
    sum
}

/// A number for an answer.
pub fn number_of(given: Answer) -> u64 {
    match given {
        Answer::Did => 1,
        Answer::Word(word) => folded(2, word),
        Answer::Ended(tick) => folded(3, tick),
        Answer::Started(tick) => folded(4, tick),
        Answer::Image(given) => folded(5, number_of_image(given)),
        Answer::Log(given) => folded(6, number_of_log(given)),
        Answer::Recovered { tick, from } => folded(folded(7, tick), from),
        Answer::Blank => 8,
        Answer::Refused(refusal) => folded(9, u64::from(refusal.code())),
    }
}

fn number_of_image(given: ImageAnswer) -> u64 {
    match given {
        ImageAnswer::Idle => 1,
        ImageAnswer::Working => 2,
        ImageAnswer::Opened(tick) => folded(3, tick),
        ImageAnswer::Down => 4,
    }
}

fn number_of_log(given: LogAnswer) -> u64 {
    match given {
        LogAnswer::Idle => 1,
        LogAnswer::Working => 2,
        LogAnswer::Acked(receipt) => folded(3, receipt.tick()),
        LogAnswer::Down => 4,
    }
}
