ghost use Rattle.std.specs.Prelude.{◌≡◌};
ghost use Rattle.action_log.specs.Steps.{answer_by};

use crate::answer::{LogAnswer, Receipt};

/// The outcome of a step, with more detail than its answer.
#[derive(Clone, Copy, Debug, PartialEq, Eq)]
pub enum Outcome {
    /// Nothing: there is no job, and nothing is queued.
    Idle,
    /// It took a group from the queue, and made its first call.
    TookGroup { failed: bool },
    /// It took a switch from the queue, and made its first call.
    TookSwitch { failed: bool },
    /// A call succeeded that is neither the first one for a queued record nor the
    /// last one of a job.
    Working,
    /// The last call of a switch, or of the start, succeeded: the other segment is now
    /// the current one.
    Switched,
    /// The last call of a group succeeded.
    Acked(Receipt),
    /// A call failed that wasn't the first one for a queued record.
    Failed,
    /// Nothing: a call failed in an earlier step.
    Down,
}

impl Outcome {
    /// Returns the answer of the keeper.
    pub fn answer(self) -> LogAnswer
        ensures { result ≡ answer_by self }
    {
        match self {
            Outcome::Idle => LogAnswer::Idle,
            Outcome::TookGroup { failed } | Outcome::TookSwitch { failed } => if failed {
                LogAnswer::Down
            } else {
                LogAnswer::Working
            },
            Outcome::Working | Outcome::Switched => LogAnswer::Working,
            Outcome::Acked(receipt) => LogAnswer::Acked(receipt),
            Outcome::Failed | Outcome::Down => LogAnswer::Down,
        }
    }
}
