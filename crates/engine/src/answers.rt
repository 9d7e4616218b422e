ghost use Rattle.std.specs.Prelude.{◌≡◌, ℕ, List, [], OnOk, OnErr, IfErr};
ghost use Rattle.world_ticks.specs.After.{accepted_writes};
ghost use Rattle.world_ticks.specs.Cells.{Performs};
ghost use Rattle.batches.specs.declared.batch.Request.{Request};
ghost use Rattle.batches.specs.Answer.{answer, answers_of, accepted_of, words_after};

use batches::{Answer, Batch, answer_each, answer_text};
use world_actions::Refusal;
use world_ticks::{Cells, Tick};

/// The answers to a batch in some form.
pub trait Answers {
    /// These are the answers to a batch in a world of these words, as the tick of this number.
    ghost reports: { Self → List Request → List ℕ → ℕ → Type 0 };

    /// Runs a batch on a store as the tick of this number, into an empty tick. All
    /// memory is taken first.
    fn answer<C: Cells>(
        &mut self,
        c: &mut C,
        t: &mut Tick,
        b: &Batch,
        number: u64,
    ) -> Result<(), Refusal>
        requires { t.old.list ≡ [] }
        ensures reports { OnOk result (reports self.new b.now.list (C.words c.old) number) }
        ensures tick { OnOk result (t.new.list ≡ accepted_of b.now.list (C.words c.old)) }
        ensures words { OnOk result (C.words c.new ≡ words_after b.now.list (C.words c.old)) }
        ensures writes { OnOk result (Performs C.accessed c.old
            (accepted_writes (C.words c.old) (accepted_of b.now.list (C.words c.old))) c.new) }
        ensures memory { IfErr result (λ refusal. refusal ≡ Refusal.NoMemory) }
        ensures unchanged { OnErr result ((c.new ≡ c.old) × (t.new ≡ t.old)) };
}

// The line that answers the batch.
impl Answers for Vec<u8> {
    ghost reports = { λ text requests words number. text.items ≡ answer requests words number };

    fn answer<C: Cells>(
        &mut self,
        c: &mut C,
        t: &mut Tick,
        b: &Batch,
        number: u64,
    ) -> Result<(), Refusal> {
        answer_text(self, c, t, b, number)
    }
}

// One answer to each request.
impl Answers for Vec<Answer> {
    ghost reports = { λ answers requests words number. answers.items ≡ answers_of requests words };

    fn answer<C: Cells>(
        &mut self,
        c: &mut C,
        t: &mut Tick,
        b: &Batch,
        _number: u64,
    ) -> Result<(), Refusal> {
        answer_each(self, c, t, b)
    }
}
