ghost use Rattle.std.specs.Prelude.{◌≡◌, ◌+◌, ◌≤◌, [], length, OnOk, OnErr, IfErr};
ghost use Rattle.world_ticks.specs.declared.tick.TheConstants.{TICK_ACTIONS};
ghost use Rattle.world_ticks.specs.Cells.{Performs};
ghost use Rattle.batches.specs.Answer.{Play, answer_of, answers_of, after_request, writes_by};
ghost use Rattle.batches.specs.Answer.{accepted_of, words_after, PerformsBatch};

use crate::batch::{Batch, Request};
use world_actions::Refusal;
use world_ticks::{Cells, TICK_ACTIONS, Tick, act};

/// The answer to one request of a batch.
#[derive(Clone, Copy, Debug, PartialEq, Eq)]
pub enum Answer {
    /// The action was accepted, and is done.
    Done,
    /// The word of the cell.
    Word(u64),
    /// The request was refused, and changed nothing.
    Refused(Refusal),
}

/// Runs a batch on a store as a tick, into an empty tick. The answers, one to each request, replace
/// the content of `answers`. All memory is taken first: if it is refused, store and tick stay as
/// they are, and there are no answers.
pub fn answer_each<C: Cells>(
    answers: &mut Vec<Answer>,
    c: &mut C,
    t: &mut Tick,
    b: &Batch,
) -> Result<(), Refusal>
    requires { t.old.list ≡ [] }
    ensures answers { OnOk result (answers.new.items ≡ answers_of b.now.list (C.words c.old)) }
    ensures tick { OnOk result (t.new.list ≡ accepted_of b.now.list (C.words c.old)) }
    ensures words { OnOk result (C.words c.new ≡ words_after b.now.list (C.words c.old)) }
    ensures writes { OnOk result (PerformsBatch C.words C.accessed c.old b.now.list c.new) }
    ensures memory { IfErr result (λ refusal. refusal ≡ Refusal.NoMemory) }
    ensures unchanged { OnErr result ((c.new ≡ c.old) × (t.new ≡ t.old)) }
    ensures none { OnErr result (answers.new.items ≡ []) }
{
    let requests = b.requests();
    answers.clear();
    answers.reserve(requests.len())?;
    t.reserve(requests.len().min(TICK_ACTIONS))?;
    for request in requests {
        answers.push_reserved(run_request(c, t, *request));
    }
    Ok(())
}

/// Runs a request on a store as part of a running tick that has room for it.
pub fn run_request<C: Cells>(c: &mut C, t: &mut Tick, request: Request) -> Answer
    requires tick_room { t.old.room ≡ 0 → TICK_ACTIONS ≤ length t.old.list }
    ensures answer { result
        ≡ answer_of (record { words = C.words c.old; accepted = t.old.list }) request }
    ensures after { record { words = C.words c.new; accepted = t.new.list }
        ≡ after_request (record { words = C.words c.old; accepted = t.old.list }) request }
    ensures writes { Performs C.accessed c.old
        (writes_by (record { words = C.words c.old; accepted = t.old.list }) request) c.new }
    ensures tick_room { t.old.room + length t.old.list ≤ t.new.room + length t.new.list }
    ensures one { length t.new.list ≤ length t.old.list + 1 }
{
    match request {
        Request::Act(action) => match act(c, t, action) {
            Ok(()) => Answer::Done,
            Err(refusal) => Answer::Refused(refusal),
        },
        Request::Get(cell) => {
            if (cell as usize) < c.len() {
                Answer::Word(c.read(cell as usize))
            } else {
                Answer::Refused(Refusal::BadCell)
            }
        }
        Request::Bad => Answer::Refused(Refusal::BadLine),
    }
}
