//! The rule of the channel of asks, and the facts that each step establishes.
ghost use Rattle.workers.specs.AskOrder.{IsInTurn, sent, taken, numbering_part, taking_part};
ghost use Rattle.workers.specs.AskOrder.{next_numbers, new_session};
ghost use Rattle.workers.specs.declared.ask_rule.AskView.TheVariants.{Begins};

use crate::post::Ask;
use batches::Request;
use crossbeam_channel::protocol::{Lesson, Outcome, Protocol, Split};

/// The knowledge of an end of the channel. No value of this type is made, and a clause reads an
/// array as a list of any length.
pub enum AskView {
    /// No session has begun, and no ask was taken.
    Begins,
    /// This number of sessions has begun.
    Numbers(u64),
    /// The session of the first number sent the second number of asks, the last for these requests.
    Sends(u64, u64, [Request; 0]),
    /// These asks were taken.
    Takes([Ask; 0]),
}

/// The asks that were taken, followed by those in the channel, are those that were sent: each
/// session's once, in its order.
pub struct InTurn;

impl Protocol<Ask, AskView> for InTurn {
    ghost holds = { IsInTurn };

    ghost first = { Begins };
}

pub(crate) struct SendAsk;

impl Outcome<Ask, AskView> for SendAsk {
    ghost then = { sent };
}

impl Lesson<Ask, AskView> for SendAsk {
    ghost fact = { λ v asks. Unit {0} };
}

pub(crate) struct TakeAsk;

impl Outcome<Ask, AskView> for TakeAsk {
    ghost then = { taken };
}

impl Lesson<Ask, AskView> for TakeAsk {
    ghost fact = { λ v asks. Unit {0} };
}

/// Parts the end that begins sessions from the end that takes.
pub(crate) struct PartEnds;

impl Split<AskView> for PartEnds {
    ghost left = { numbering_part };

    ghost right = { taking_part };
}

/// Begins a session, which has the next number.
pub(crate) struct BeginSession;

impl Split<AskView> for BeginSession {
    ghost left = { next_numbers };

    ghost right = { new_session };
}
