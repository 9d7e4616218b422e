ghost use Rattle.std.specs.Prelude.{◌≡◌, ℕ, List, Result, Ok, Err, OnOk, IfErr};
ghost use Rattle.world_actions.specs.declared.refusal.Refusal.{Refusal as Reason};
ghost use Rattle.batches.specs.declared.batch.Request.{Request};

use batches::Batch;
use world_actions::Refusal;

/// A world that answers the batches of clients, one after another.
pub trait World {
    /// A batch may lead from the first state to the second with this answer: a line with its
    /// newline, or the reason of its refusal. The relation is the world's own, so the acts of a
    /// session are known in the world's terms.
    ghost runs: { Self → List Request → Result (List ℕ) Reason → Self → Type 0 };

    /// Runs a batch, and replaces the content of `text` with its answer.
    fn batch(&mut self, b: &Batch, text: &mut Vec<u8>) -> Result<(), Refusal>
        ensures answered { OnOk result (runs self.old b.now.list (Ok text.new.items) self.new) }
        ensures refused { IfErr result (λ refusal.
            runs self.old b.now.list (Err refusal) self.new) };
}
