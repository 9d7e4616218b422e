use std::alloc::{AllocError, AllocFailed};
use thiserror::Error;

/// Why a call was refused. A refused call changes nothing, unless its own comment says otherwise.
#[derive(Clone, Copy, Debug, PartialEq, Eq, Error)]
pub enum Refusal {
    /// An action or a read names a cell that the world doesn't have.
    #[error("there is no such cell: cells are numbered from 0 to the number of cells less 1")]
    BadCell,
    /// A value or an amount is above `LIMIT`, or a difference is further than that from 0.
    #[error("the number is out of range: use at most 999999999999999999")]
    BadValue,
    /// The action would leave a word below 0 or above `LIMIT`.
    #[error("the action would leave a word below 0 or above 999999999999999999")]
    OutOfRange,
    /// The two cells of a transfer or a swap are one.
    #[error("a move or a swap needs two different cells")]
    SameCell,
    /// The running tick has as many actions as a tick may have.
    #[error("the running tick has 256 actions: end it first")]
    TickFull,
    /// A log segment's worth of ticks has ended since the last mark or start.
    #[error("65536 ticks have ended since the last mark or start: mark a checkpoint first")]
    SegmentFull,
    /// The queue to the log writer has no room.
    #[error("the queue to the log is full: let the log write first")]
    QueueFull,
    /// A mark came while the running tick has an action.
    #[error("the running tick has an action: end it before a mark")]
    OpenTick,
    /// A mark came while a round is open.
    #[error("a checkpoint is still being written: let it finish first")]
    Busy,
    /// A mark came while the newest image is of the newest tick.
    #[error("the newest image already has the newest tick: end a tick first")]
    NothingNew,
    /// The image keeper met a failure.
    #[error("images can't be written since the device failed: restart")]
    ImageDown,
    /// The log keeper met a failure.
    #[error("the log can't be written since the device failed: restart")]
    LogDown,
    /// Recovery found neither an open image nor a bad file.
    #[error("there is no image to recover from")]
    NoImage,
    /// An image whose gate is open is of neither format.
    #[error("an image file is damaged")]
    BadImage,
    /// A segment whose gate is open is of neither format, or an action of a log is refused.
    #[error("a log file is damaged")]
    BadLog,
    /// A line isn't of the grammar.
    #[error("the line isn't understood")]
    BadLine,
    /// The system refused an allocation.
    #[error("there is no memory left")]
    NoMemory,
    /// A device, a reader or a writer failed in this call.
    #[error("the device failed")]
    Device,
    /// The start after a recovery has not ended.
    #[error("the start has not ended: let the images and the log finish it first")]
    Starting,
    /// No crash can leave these bytes.
    #[error("a crash can't leave these bytes")]
    Impossible,
    /// The greatest tick number has been reached.
    #[error("the last tick number has been given out")]
    TicksEnded,
    /// A file of a new world may already hold one.
    #[error("a file already holds a world: choose an empty folder")]
    NotEmpty,
    /// No image of this tick, or of a later one, is open.
    #[error("no image of this tick is open yet: let it be written first")]
    Uncovered,
}

impl Refusal {
    ghost use Rattle.std.specs.Prelude.{◌≡◌};
    ghost use Rattle.world_actions.specs.Refusal.{code_of};

    /// Returns the number by which clients, scripts and exit texts know the refusal.
    pub fn code(&self) -> u8
        ensures code { result ≡ code_of self.now }
    {
        match self {
            Refusal::BadCell => 1,
            Refusal::BadValue => 2,
            Refusal::OutOfRange => 3,
            Refusal::SameCell => 4,
            Refusal::TickFull => 5,
            Refusal::SegmentFull => 6,
            Refusal::QueueFull => 7,
            Refusal::OpenTick => 8,
            Refusal::Busy => 9,
            Refusal::NothingNew => 10,
            Refusal::ImageDown => 11,
            Refusal::LogDown => 12,
            Refusal::NoImage => 13,
            Refusal::BadImage => 14,
            Refusal::BadLog => 15,
            Refusal::BadLine => 16,
            Refusal::NoMemory => 17,
            Refusal::Device => 18,
            Refusal::Starting => 19,
            Refusal::Impossible => 20,
            Refusal::TicksEnded => 21,
            Refusal::NotEmpty => 22,
            Refusal::Uncovered => 23,
        }
    }
}

impl From<AllocError> for Refusal {
    ghost use Rattle.std.specs.Prelude.{◌≡◌};
    ghost use Rattle.world_actions.specs.declared.refusal.Refusal.TheVariants.{NoMemory};

    ghost from_gives = { λ _ refusal. refusal ≡ NoMemory };

    fn from(_error: AllocError) -> Self {
        Refusal::NoMemory
    }
}

impl<T: Drop> From<AllocFailed<T>> for Refusal {
    ghost use Rattle.std.specs.Prelude.{◌≡◌};
    ghost use Rattle.world_actions.specs.declared.refusal.Refusal.TheVariants.{NoMemory};

    ghost from_gives = { λ _ refusal. refusal ≡ NoMemory };

    fn from(_error: AllocFailed<T>) -> Self {
        Refusal::NoMemory
    }
}

ghost use Rattle.std.specs.Prelude.{◌≡◌, ◌≤◌};
ghost use Rattle.world_actions.specs.Refusal.{code_of};

/// A law: the codes are numbers from 1 to 23, one for each refusal.
pub fn one_code_each()
    ensures range { (refusal : Refusal) → (1 ≤ code_of refusal) × (code_of refusal ≤ 23) }
    ensures distinct { (a b : Refusal) → code_of a ≡ code_of b → a ≡ b }
{}
