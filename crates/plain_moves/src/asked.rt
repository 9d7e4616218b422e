ghost use Rattle.std.specs.Prelude.{◌≡◌};
ghost use Rattle.plain_moves.specs.Plain.{move_of};

use world_actions::Action;
use world_core::{Fate, Move};

/// A move as the model sees it.
#[derive(Clone, Copy, Debug, PartialEq, Eq)]
pub enum Asked {
    /// An action of the running tick.
    Act(Action),
    /// The word of a cell.
    Get(u32),
    /// The end of the running tick.
    End,
    /// The beginning of a round.
    Mark,
    /// A step of the images.
    Image(Fate),
    /// A step of the log.
    Log(Fate),
    /// A cover of the image of this tick.
    Cover(u64),
    /// A crash that leaves bytes that it may leave.
    Crash,
    /// A crash that leaves bytes that no crash may leave.
    ImpossibleCrash,
}

impl Asked {
    /// The move of the core, or `None` for a crash.
    pub fn as_move(self) -> Option<Move>
        ensures { result ≡ move_of self }
    {
        match self {
            Asked::Act(action) => Some(Move::Act(action)),
            Asked::Get(cell) => Some(Move::Get(cell)),
            Asked::End => Some(Move::End),
            Asked::Mark => Some(Move::Mark),
            Asked::Image(fate) => Some(Move::Image(fate)),
            Asked::Log(fate) => Some(Move::Log(fate)),
            Asked::Cover(tick) => Some(Move::Cover(tick)),
            Asked::Crash | Asked::ImpossibleCrash => None,
        }
    }
}
