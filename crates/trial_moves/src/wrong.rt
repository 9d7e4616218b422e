use plain_moves::PlainAnswer;
use std::alloc::{AllocError, AllocFailed};
use world_actions::Refusal;

/// A rule that answers have to keep.
#[derive(Clone, Copy, Debug, PartialEq, Eq)]
pub enum Rule {
    /// The core says that its start isn't over exactly while the model does.
    StartsAlike,
    /// A step of an open round does its work, opens the image, or fails.
    OpenRoundGoesOn,
    /// Only a call that fails brings the images down.
    ImagesDownByFailure,
    /// A round takes as many steps as it has to, and no more than it may.
    RoundSteps,
    /// The tick of the open round is opened, by a call that went well.
    OpensItsRound,
    /// The start's log takes 4, 6 or 8 steps.
    StartSteps,
    /// Bytes that a crash may leave are recovered, or are Blank if there was no image.
    Recovers,
    /// A cover's receipt is of the covered tick.
    CoversItsTick,
    /// A crash loses no acknowledged tick.
    KeepsAcknowledged,
    /// After a crash only ended ticks are recovered.
    KeepsEnded,
    /// The world is built from the newest image or from that of the open round.
    FromKnownImage,
}

/// The reason why an answer isn't right, or can't be judged.
#[derive(Clone, Copy, Debug, PartialEq, Eq)]
pub enum Wrong {
    /// This is the right answer.
    Wanted(PlainAnswer),
    /// The answer breaks this rule.
    Breaks(Rule),
    /// There is no memory left.
    NoMemory,
}

impl From<Refusal> for Wrong {
    fn from(_refusal: Refusal) -> Self {
        Wrong::NoMemory
    }
}

impl From<AllocError> for Wrong {
    fn from(_error: AllocError) -> Self {
        Wrong::NoMemory
    }
}

impl<T: Drop> From<AllocFailed<T>> for Wrong {
    fn from(_error: AllocFailed<T>) -> Self {
        Wrong::NoMemory
    }
}

/// Passes if the only right answer was given.
pub fn expect(wanted: PlainAnswer, given: PlainAnswer) -> Result<(), Wrong> {
    if given == wanted {
        Ok(())
    } else {
        Err(Wrong::Wanted(wanted))
    }
}

/// Passes if a rule holds.
pub fn hold(holds: bool, rule: Rule) -> Result<(), Wrong> {
    if holds {
        Ok(())
    } else {
        Err(Wrong::Breaks(rule))
    }
}
