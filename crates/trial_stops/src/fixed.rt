use crate::run::Run;
use action_log::LogAnswer;
use capture_core::Capture;
use image_files::ImageAnswer;
use std::alloc::Global;
use world_actions::{Action, Refusal};
use world_core::{Answer, Fate, Move};

/// One move of the run.
#[derive(Clone, Copy, Debug, PartialEq, Eq)]
pub enum Step {
    /// Puts a value into a cell.
    Set { cell: u32, value: u64 },
    End,
    Mark,
    Image,
    Log,
}

impl Step {
    /// The core's form of the move. The fate is that of its call, if it makes one.
    pub fn as_move(self, fate: Fate) -> Move {
        match self {
            Step::Set { cell, value } => Move::Act(Action::Set { cell, value }),
            Step::End => Move::End,
            Step::Mark => Move::Mark,
            Step::Image => Move::Image(fate),
            Step::Log => Move::Log(fate),
        }
    }
}

/// How many moves each part of the run has of the image keeper and of the log keeper.
#[derive(Clone, Copy, Debug, PartialEq, Eq)]
pub struct Shape {
    pub first: (u32, u32),
    pub second: (u32, u32),
}

/// The words of both cells before the ticks, and after each of the three.
pub const WORDS: [[u64; 2]; 4] = [[0, 0], [5, 7], [6, 7], [6, 7]];

/// Two ticks, and a round between them.
const FIRST: [Step; 6] = [
    Step::Set { cell: 0, value: 5 },
    Step::Set { cell: 1, value: 7 },
    Step::End,
    Step::Mark,
    Step::Set { cell: 0, value: 6 },
    Step::End,
];

/// A third tick, and a round.
const SECOND: [Step; 2] = [Step::End, Step::Mark];

/// More moves than a round and a log have here.
const MOVES: u32 = 100;

/// The moves of the run, and how many each part has of each keeper.
pub fn fixed_run<C: Capture>(alloc: Global) -> Result<(Vec<Step>, Shape), Refusal> {
    let mut steps = Vec::new(alloc);
    let mut run = Run::<C>::started(alloc)?;
    let shape = add_parts(&mut run, &mut steps)?;
    Ok((steps, shape))
}

/// The moves of a run whose log is left after: two ticks, and the round between them
/// up to its image.
pub fn run_before_the_log<C: Capture>(alloc: Global) -> Result<Vec<Step>, Refusal> {
    let mut steps = Vec::new(alloc);
    let mut run = Run::<C>::started(alloc)?;
    add_images(&mut run, &mut steps)?;
    Ok(steps)
}

// The first part without the moves of the log.
fn add_images<C: Capture>(run: &mut Run<C>, steps: &mut Vec<Step>) -> Result<(), Refusal> {
    for step in &FIRST {
        run.step(*step, Fate::Done);
        steps.push(*step)?;
    }
    let mut images = Some(0);
    for _ in 0..MOVES {
        images = added(run, Step::Image, images, steps)?;
        if images.is_none() {
            break;
        }
    }
    Ok(())
}

fn add_parts<C: Capture>(run: &mut Run<C>, steps: &mut Vec<Step>) -> Result<Shape, Refusal> {
    let first = add_part(run, &FIRST, steps)?;
    let second = add_part(run, &SECOND, steps)?;
    Ok(Shape { first, second })
}

// Adds these moves, and then moves of the images and of the log in turn. Those of a keeper are left
// out once it has nothing to do.
fn add_part<C: Capture>(
    run: &mut Run<C>,
    moves: &[Step],
    steps: &mut Vec<Step>,
) -> Result<(u32, u32), Refusal> {
    for step in moves {
        run.step(*step, Fate::Done);
        steps.push(*step)?;
    }
    let (mut images, mut logs) = (Some(0), Some(0));
    let mut made = (0, 0);
    for _ in 0..MOVES {
        images = added(run, Step::Image, images, steps)?;
        logs = added(run, Step::Log, logs, steps)?;
        made = (images.unwrap_or(made.0), logs.unwrap_or(made.1));
        if images.is_none() && logs.is_none() {
            break;
        }
    }
    Ok(made)
}

// Adds one more move of a keeper that has made so many. Returns None once the keeper
// has nothing to do.
fn added<C: Capture>(
    run: &mut Run<C>,
    step: Step,
    made: Option<u32>,
    steps: &mut Vec<Step>,
) -> Result<Option<u32>, Refusal> {
    let Some(made) = made else {
        return Ok(None);
    };
    if is_idle(run.step(step, Fate::Done)) {
        return Ok(None);
    }
    steps.push(step)?;
    Ok(Some(made.saturating_add(1)))
}

fn is_idle(given: Answer) -> bool {
    matches!(
        given,
        Answer::Image(ImageAnswer::Idle) | Answer::Log(LogAnswer::Idle)
    )
}
