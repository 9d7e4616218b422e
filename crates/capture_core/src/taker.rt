ghost use Rattle.std.specs.Prelude.{◌≡◌, Option, IfSome, IfNone};
ghost use Rattle.capture_core.specs.declared.taker.Taken.{Taken};
ghost use Rattle.capture_core.specs.Taken.{IsTakenWord};

/// The answer of a take for one cell.
#[derive(Clone, Copy, Debug, PartialEq, Eq)]
pub enum Taken {
    /// The cell's word at the mark.
    Word(u64),
    /// The cell wasn't written since the previous mark, so it has the word that it had then.
    Same,
}

/// Hands out the cells of an open round in order.
pub trait Taker {
    /// A take may lead from the first state to the second with this answer. Each taker defines
    /// it, so that its takes are known for its whole state. Callers that know the type of the
    /// taker can use that.
    ghost took: { Self → Option Taken → Self → Type 0 };

    /// Hands out the next cell of the round, or `None` if the round is at its end. It
    /// takes no memory.
    fn take(&mut self) -> Option<Taken>
        ensures took { took self.old result self.new }
        ensures limit { IfSome result IsTakenWord }
        ensures unchanged { IfNone result (self.new ≡ self.old) };
}
