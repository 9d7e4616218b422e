use crate::draft::Draft;
use crate::flaky::Flaky;
use crate::hold::Hold;
use crate::model::PlainModel;
use crate::stand::Left;
use crate::tally::Tally;
use disk_model::FourFiles;
use std::alloc::Global;
use std::mem::replace;
use trial_kit::Random;
use worker_steps::Gates;
use world_actions::Refusal;

/// How often things go wrong.
#[derive(Clone, Copy)]
pub struct Odds {
    /// How many of a hundred calls of a file fail.
    pub fails: u64,
    /// Each time a gate is asked it sticks with a chance of one in so many. If this
    /// is 0 none sticks.
    pub sticks: u64,
}

impl Odds {
    /// Nothing goes wrong.
    pub const NONE: Odds = Odds {
        fails: 0,
        sticks: 0,
    };
}

/// The state that is kept from run to run: the random numbers, the model, the bytes that the last
/// crash left, and the counts.
#[derive(Drop)]
pub struct Trial {
    pub alloc: Global,
    pub cells: u32,
    pub left: Left,
    pub odds: Odds,
    pub random: Random,
    pub model: PlainModel,
    pub draft: Draft,
    pub tally: Tally,
}

impl Trial {
    /// A trial that has no world yet.
    pub fn new(alloc: Global, seed: u64) -> Result<Self, Refusal> {
        Ok(Trial {
            alloc,
            cells: 0,
            left: no_bytes(alloc),
            odds: Odds::NONE,
            random: Random::new(seed),
            model: PlainModel::new(alloc, 0, Vec::new(alloc))?,
            draft: Draft::new(alloc)?,
            tally: Tally::new(),
        })
    }

    /// Begins a world of zeros after this tick.
    pub fn begin_world(&mut self, cells: u32, tick: u64, odds: Odds) -> Result<(), Refusal> {
        self.cells = cells;
        self.odds = odds;
        self.left = no_bytes(self.alloc);
        self.left.image_a = image(self.alloc, cells, tick)?;
        self.begin_model(tick, vec![in self.alloc; 0; cells as usize]?)
    }

    /// Begins the model again, from these words after this tick.
    pub fn begin_model(&mut self, tick: u64, words: Vec<u64>) -> Result<(), Refusal> {
        self.model = PlainModel::new(self.alloc, tick, words)?;
        Ok(())
    }

    /// Makes files of the bytes that the last crash left.
    pub fn files(&mut self) -> Result<FourFiles<Flaky>, Refusal> {
        let (alloc, fails) = (self.alloc, self.odds.fails);
        let (left, random) = (&mut self.left, &mut self.random);
        Ok(FourFiles {
            image_a: file(alloc, &mut left.image_a, fails, random)?,
            image_b: file(alloc, &mut left.image_b, fails, random)?,
            log_a: file(alloc, &mut left.log_a, fails, random)?,
            log_b: file(alloc, &mut left.log_b, fails, random)?,
        })
    }

    /// The gates of a run.
    pub fn gates(&mut self) -> Gates<Hold, Hold, Hold> {
        Gates {
            mutator: self.gate(),
            checkpointer: self.gate(),
            log_writer: self.gate(),
        }
    }

    fn gate(&mut self) -> Hold {
        Hold::new(self.odds.sticks, &mut self.random)
    }

    /// Draws the number of ticks after which a round is due.
    pub fn every(&mut self) -> u32 {
        1u32.saturating_add(self.random.below(5) as u32)
    }

    /// Fills the draft with random requests.
    pub fn draw_batch(&mut self) {
        self.draft.fill(self.cells, &mut self.random);
    }

    /// Runs the drafted batch in the model, and returns its tick.
    pub fn play(&mut self) -> Result<u64, Refusal> {
        self.model.play(self.draft.batch(), &mut self.tally)
    }
}

fn no_bytes(alloc: Global) -> Left {
    FourFiles {
        image_a: Vec::new(alloc),
        image_b: Vec::new(alloc),
        log_a: Vec::new(alloc),
        log_b: Vec::new(alloc),
    }
}

// A file with these bytes, which it takes.
fn file(
    alloc: Global,
    bytes: &mut Vec<u8>,
    fails: u64,
    random: &mut Random,
) -> Result<Flaky, Refusal> {
    Flaky::new(alloc, replace(bytes, Vec::new(alloc)), fails, random)
}

// An image of zeros with an open gate: the gate, the number of cells, the tick and the words.
fn image(alloc: Global, cells: u32, tick: u64) -> Result<Vec<u8>, Refusal> {
    let mut bytes = vec![in alloc; 1]?;
    bytes.extend_from_slice(&u64::from(cells).to_le_bytes())?;
    bytes.extend_from_slice(&tick.to_le_bytes())?;
    for _ in 0..cells {
        bytes.extend_from_slice(&0u64.to_le_bytes())?;
    }
    Ok(bytes)
}
