ghost use Rattle.std.specs.Prelude.{◌≤◌};
ghost use Rattle.world_actions.specs.declared.world.TheConstants.{CELLS};

use crate::model::PlainModel;
use crate::spoiling::spoil;
use crate::tally::Tally;
use crate::wrong::Wrong;
use capture_core::Capture;
use disk_model::{FourFiles, WorldFile};
use plain_moves::{Asked, PlainAnswer};
use std::alloc::Global;
use trial_kit::{Random, left_by};
use world_actions::Refusal;
use world_core::{Core, Move};

/// The wrong answer that ended a trial.
#[derive(Clone, Copy, Debug)]
pub struct Difference {
    /// The number of the move. The first one has 1.
    pub number: u32,
    /// The move.
    pub asked: Asked,
    /// Its answer.
    pub given: PlainAnswer,
    /// The reason why the answer is wrong.
    pub wrong: Wrong,
}

/// The reason why a trial ended early.
#[derive(Clone, Copy)]
pub enum Stop {
    /// Making the core or bytes for it was refused.
    Refused(Refusal),
    /// An answer was wrong.
    Differs(Difference),
}

impl From<Refusal> for Stop {
    fn from(refusal: Refusal) -> Self {
        Stop::Refused(refusal)
    }
}

/// A core, its model, and the counts of answers.
#[derive(Drop)]
pub struct Trial<C: Capture> {
    alloc: Global,
    cells: u32,
    core: Core<C>,
    model: PlainModel,
    tally: Tally,
}

impl<C: Capture> Trial<C> {
    /// A fresh core, and its model.
    pub fn new(alloc: Global, cells: u32) -> Result<Self, Refusal>
        requires { (1 ≤ cells) × (cells ≤ CELLS) }
    {
        Ok(Trial {
            alloc,
            cells,
            core: Core::fresh(alloc, cells)?,
            model: PlainModel::new(alloc, cells)?,
            tally: Tally::new(),
        })
    }

    /// The counts of answers.
    pub fn tally(&self) -> &Tally {
        &self.tally
    }

    /// The model.
    pub fn model(&self) -> &PlainModel {
        &self.model
    }

    /// How many cells the world has.
    pub fn cells(&self) -> u32 {
        self.cells
    }

    /// Makes a move, and judges its answer. `random` chooses the bytes that a crash leaves. If a
    /// crash may leave them, each cell is read then.
    pub fn ask(&mut self, asked: Asked, random: &mut Random) -> Result<PlainAnswer, Stop> {
        if let Some(plain) = asked.as_move() {
            return self.step(asked, plain);
        }
        let left = self.remains(asked, random)?;
        let given = self.step(asked, Move::Crash(left))?;
        if asked == Asked::Crash {
            for cell in 0..self.cells {
                self.step(Asked::Get(cell), Move::Get(cell))?;
            }
        }
        Ok(given)
    }

    fn step(&mut self, asked: Asked, plain: Move) -> Result<PlainAnswer, Stop> {
        let given = PlainAnswer::of(self.core.step(plain));
        self.tally.count(asked, given);
        let starting = self.core.starting();
        match self.model.follow(asked, given, starting) {
            Ok(()) => Ok(given),
            Err(wrong) => Err(Stop::Differs(Difference {
                number: self.tally.moves(),
                asked,
                given,
                wrong,
            })),
        }
    }

    // The bytes that the crash leaves of the four files.
    fn remains(&self, asked: Asked, random: &mut Random) -> Result<FourFiles<Vec<u8>>, Refusal> {
        let spoiled = match random.below(4) {
            _ if asked == Asked::Crash => None,
            0 => Some(WorldFile::ImageA),
            1 => Some(WorldFile::ImageB),
            2 => Some(WorldFile::LogA),
            _ => Some(WorldFile::LogB),
        };
        let image_a = self.left_of(WorldFile::ImageA, spoiled, random)?;
        let image_b = self.left_of(WorldFile::ImageB, spoiled, random)?;
        let log_a = self.left_of(WorldFile::LogA, spoiled, random)?;
        let log_b = self.left_of(WorldFile::LogB, spoiled, random)?;
        Ok(FourFiles {
            image_a,
            image_b,
            log_a,
            log_b,
        })
    }

    // The bytes that the crash leaves of a file. They are spoiled if this is the file to spoil.
    fn left_of(
        &self,
        name: WorldFile,
        spoiled: Option<WorldFile>,
        random: &mut Random,
    ) -> Result<Vec<u8>, Refusal> {
        let file = self.core.file(name);
        let mut left = left_by(self.alloc, file, random)?;
        if spoiled == Some(name) {
            spoil(&mut left, file, random)?;
        }
        Ok(left)
    }
}
