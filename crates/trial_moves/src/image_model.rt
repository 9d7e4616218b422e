use crate::wrong::{Rule, Wrong, expect, hold};
use plain_moves::PlainAnswer;
use world_core::Fate;

/// A round that is open.
#[derive(Clone, Copy)]
struct Round {
    tick: u64,
    steps: u64,
}

/// The state of the images, only by moves and answers.
#[derive(Clone, Copy)]
pub struct ImageModel {
    cells: u64,
    newest: Option<u64>,
    round: Option<Round>,
    down: bool,
}

impl ImageModel {
    /// The images at the beginning of a start at `tick`. If the newest image is of that tick the
    /// start has no round, else it has one.
    pub fn new(cells: u32, newest: Option<u64>, tick: u64) -> Self {
        let mut images = ImageModel {
            cells: u64::from(cells),
            newest,
            round: None,
            down: false,
        };
        if newest != Some(tick) {
            images.begin(tick);
        }
        images
    }

    /// The tick of the newest image.
    pub fn newest(&self) -> Option<u64> {
        self.newest
    }

    /// The tick of the open round.
    pub fn round(&self) -> Option<u64> {
        self.round.map(|round| round.tick)
    }

    /// True if a call failed.
    pub fn is_down(&self) -> bool {
        self.down
    }

    /// Opens a round.
    pub fn begin(&mut self, tick: u64) {
        self.round = Some(Round { tick, steps: 0 });
    }

    /// Judges the answer to a step, and follows it.
    pub fn step(&mut self, fate: Fate, given: PlainAnswer) -> Result<(), Wrong> {
        let Some(round) = self.round else {
            return expect(PlainAnswer::ImageIdle, given);
        };
        if self.down {
            return expect(PlainAnswer::ImageDown, given);
        }
        match given {
            PlainAnswer::ImageWorking => self.work(round),
            PlainAnswer::ImageOpened(tick) => self.open(round, fate, tick),
            PlainAnswer::ImageDown => {
                self.down = true;
                hold(fate == Fate::Failed, Rule::ImagesDownByFailure)
            }
            _ => hold(false, Rule::OpenRoundGoesOn),
        }
    }

    fn work(&mut self, round: Round) -> Result<(), Wrong> {
        let steps = round.steps.saturating_add(1);
        self.round = Some(Round { steps, ..round });
        hold(steps < self.most_steps(), Rule::RoundSteps)
    }

    fn open(&mut self, round: Round, fate: Fate, tick: u64) -> Result<(), Wrong> {
        let steps = round.steps.saturating_add(1);
        self.newest = Some(tick);
        self.round = None;
        hold(
            tick == round.tick && fate == Fate::Done,
            Rule::OpensItsRound,
        )?;
        let is_within = self.least_steps() <= steps && steps <= self.most_steps();
        hold(is_within, Rule::RoundSteps)
    }

    // A take for each cell, a write for each chunk, the header, the sync of the body, the
    // gate and its sync.
    fn least_steps(&self) -> u64 {
        self.cells
            .saturating_add(self.cells.div_ceil(64))
            .saturating_add(4)
    }

    // In addition, the closed gate and its sync, and a read for each chunk.
    fn most_steps(&self) -> u64 {
        self.least_steps()
            .saturating_add(self.cells.div_ceil(64))
            .saturating_add(2)
    }
}
