use action_log::LogAnswer;
use disk_model::FourFiles;
use image_files::ImageAnswer;
use world_actions::{Action, Refusal};

/// The fate of the device call of a move, if it makes one.
#[derive(Clone, Copy, Debug, PartialEq, Eq)]
pub enum Fate {
    /// The device itself decides the call.
    Done,
    /// The call fails.
    Failed,
}

impl Fate {
    ghost use Rattle.std.specs.Prelude.{◌≡◌};
    ghost use Rattle.world_core.specs.Moving.{is_failed};

    /// True if the call fails, whatever the device.
    pub fn is_failed(self) -> bool
        ensures { result ≡ is_failed self }
    {
        match self {
            Fate::Done => false,
            Fate::Failed => true,
        }
    }
}

/// One request to a core.
#[derive(Drop)]
pub enum Move {
    /// An action of the running tick.
    Act(Action),
    /// The word of a cell.
    Get(u32),
    /// The end of the running tick.
    End,
    /// Opens a round, which writes the present words as an image.
    Mark,
    /// A step of the image keeper: a take, or at most one call of a device.
    Image(Fate),
    /// A step of the log keeper: at most one call of a device.
    Log(Fate),
    /// The records before the switch at this tick leave the queue: an image that was opened
    /// has their ticks.
    Cover(u64),
    /// A crash that leaves these bytes of the four files, and the restart.
    Crash(FourFiles<Vec<u8>>),
}

/// The answer to one move.
#[derive(Clone, Copy, Debug, PartialEq, Eq)]
pub enum Answer {
    /// The action was accepted.
    Did,
    /// The word of a cell.
    Word(u64),
    /// The running tick has ended, with this number.
    Ended(u64),
    /// A round of this tick is open.
    Started(u64),
    /// The result of a step of the image keeper.
    Image(ImageAnswer),
    /// The result of a step of the log keeper, or of a cover.
    Log(LogAnswer),
    /// Recovery built the world after `tick`, from the image of the tick `from`.
    Recovered { tick: u64, from: u64 },
    /// Recovery found no image: the world is of zeros at tick 0.
    Blank,
    /// The move was refused, and nothing changed.
    Refused(Refusal),
}
