ghost use Rattle.std.specs.Prelude.{◌≡◌, ◌+◌, ◌≤◌, ◌++◌, ◌∷◌, [], ℕ, List, length, vec_capacity};
ghost use Rattle.std.specs.Prelude.{Ok, OnOk, OnErr, IfErr};
ghost use Rattle.world_ticks.specs.declared.tick.TheConstants.{TICK_ACTIONS};
ghost use Rattle.world_ticks.specs.After.{after_actions};
ghost use Rattle.batches.specs.declared.batch.Request.{Request as Asked};
ghost use Rattle.batches.specs.Answer.{text_of, answer, accepted_of, words_after, PerformsBatch};

use crate::batch::Batch;
use crate::requests::{Answer, run_request};
use crate::text::{put, put_answer, put_number};
use world_actions::Refusal;
use world_ticks::{Cells, TICK_ACTIONS, Tick};

/// The bytes of an answer without its replies, at most.
const FRAME_BYTES: usize = 27;

/// The bytes of a reply and the space before it, at most.
const REPLY_BYTES: usize = 22;

/// Runs a batch on a store as the tick of this number, into an empty tick. The line that answers
/// it replaces the content of `text`. All memory is taken first: if it is refused, store and tick
/// stay as they are.
pub fn answer_text<C: Cells>(
    text: &mut Vec<u8>,
    c: &mut C,
    t: &mut Tick,
    b: &Batch,
    number: u64,
) -> Result<(), Refusal>
    requires { t.old.list ≡ [] }
    ensures text { OnOk result (text.new.items ≡ answer b.now.list (C.words c.old) number) }
    ensures tick { OnOk result (t.new.list ≡ accepted_of b.now.list (C.words c.old)) }
    ensures words { OnOk result (C.words c.new ≡ words_after b.now.list (C.words c.old)) }
    ensures writes { OnOk result (PerformsBatch C.words C.accessed c.old b.now.list c.new) }
    ensures memory { IfErr result (λ refusal. refusal ≡ Refusal.NoMemory) }
    ensures unchanged { OnErr result ((c.new ≡ c.old) × (t.new ≡ t.old)) }
{
    let requests = b.requests();
    text.clear();
    text.reserve(FRAME_BYTES + REPLY_BYTES * requests.len())?;
    t.reserve(requests.len().min(TICK_ACTIONS))?;
    put(text, b"tick ");
    put_number(text, number);
    put(text, b":");
    for request in requests {
        put_reply(text, run_request(c, t, *request));
    }
    put(text, b"\n");
    Ok(())
}

/// A law: the accepted actions of a batch are a tick, and lead to the world after the batch.
pub fn answers_are_ticks()
    ensures accepted { (requests : List Asked) (words : List ℕ)
        → after_actions words (accepted_of requests words) ≡ Ok (words_after requests words) }
    ensures few { (requests : List Asked) (words : List ℕ)
        → length (accepted_of requests words) ≤ TICK_ACTIONS }
{}

// Appends a space and the text of an answer, for which there is room.
fn put_reply(text: &mut Vec<u8>, given: Answer)
    requires { length text.old.items + REPLY_BYTES ≤ vec_capacity text.old }
    ensures text { text.new.items ≡ text.old.items ++ (32 ∷ text_of given) }
    ensures few { length text.new.items ≤ length text.old.items + REPLY_BYTES }
    ensures room { vec_capacity text.old ≤ vec_capacity text.new }
{
    put(text, b" ");
    put_answer(text, given);
}
