use std::marker::Model;

/// The result of a step of the log keeper.
#[derive(Clone, Copy, Debug, PartialEq, Eq)]
pub enum LogAnswer {
    /// There is nothing to do.
    Idle,
    /// A job continues, or has ended.
    Working,
    /// The ticks up to this one are durable: a group was written, or an open image has them.
    Acked(Receipt),
    /// A call of a device failed, in this step or an earlier one.
    Down,
}

/// The proof that every tick up to this one is durable. The ticks above the current segment's base
/// are in that segment. If a cover gave the receipt, all of them are in the image that its caller
/// knew to be open. Only a keeper of this crate makes one. Contracts see that tick.
#[derive(Clone, Copy, Debug, PartialEq, Eq)]
pub struct Receipt {
    tick: u64,
}

impl Model for Receipt {
    ghost use Rattle.std.specs.Prelude.{ℕ};

    ghost Value = { ℕ };

    ghost view = { λ receipt. receipt.tick };

    ghost inverse = { λ tick. record { tick = tick } };
}

impl Receipt {
    ghost use Rattle.std.specs.Prelude.{◌≡◌};

    pub(crate) fn new(tick: u64) -> Self
        ensures { result ≡ tick }
    {
        Receipt { tick }
    }

    /// Returns the last of these ticks.
    pub fn tick(self) -> u64
        ensures { result ≡ self }
    {
        self.tick
    }
}
