use crate::kinds::{check_add, check_cap, check_set, check_swap, check_transfer};
use crate::refusal::Refusal;

/// A change that a client asks for. The numbers are as the client gave them, in range or not.
#[derive(Clone, Copy, Debug, PartialEq, Eq)]
pub enum Action {
    /// Puts a value into a cell.
    Set { cell: u32, value: u64 },
    /// Adds a difference to a cell's word.
    Add { cell: u32, by: i64 },
    /// Takes an amount from one cell and adds it to another.
    Transfer { from: u32, to: u32, amount: u64 },
    /// Exchanges the words of two cells.
    Swap { a: u32, b: u32 },
    /// Lowers a cell's word to a value if the word is greater.
    Cap { cell: u32, value: u64 },
}

/// The new words of the cells that an accepted action names.
#[derive(Clone, Copy, Debug, PartialEq, Eq)]
pub struct Change {
    /// The new word of the first cell.
    pub first: u64,
    /// The new word of the second cell, if the action names two.
    pub second: Option<u64>,
}

impl Action {
    ghost use Rattle.std.specs.Prelude.{◌≡◌};
    ghost use Rattle.world_actions.specs.Action.{first_cell, second_cell};

    /// Returns the two cells that the action names. If it names one, that cell is returned twice.
    pub fn cells(&self) -> (u32, u32)
        ensures first { result.0 ≡ first_cell self.now }
        ensures second { result.1 ≡ second_cell self.now }
    {
        match *self {
            Action::Set { cell, .. } | Action::Add { cell, .. } | Action::Cap { cell, .. } => {
                (cell, cell)
            }
            Action::Transfer { from, to, .. } => (from, to),
            Action::Swap { a, b } => (a, b),
        }
    }
}

ghost use Rattle.std.specs.Prelude.{◌≡◌, ℕ, List, ◌<◌, OnOk, IfOk, IfSome};
ghost use Rattle.std.specs.Result.{result_err};
ghost use Rattle.world_actions.specs.Action.{first_cell, second_cell};
ghost use Rattle.world_actions.specs.World.{IsWord};
ghost use Rattle.world_actions.specs.Effect.{Shows, refusal_of, writes_of, change_writes};

/// Decides an action from the number of cells and the words of the two cells that it names. The
/// word of a cell that isn't below `len` is 0. The caller, which holds the words, writes the
/// change. It takes no memory.
pub fn check(a: &Action, len: usize, first: u64, second: u64) -> Result<Change, Refusal>
    requires first { IsWord first }
    requires second { IsWord second }
    ensures refuses { (world : List ℕ) → Shows world a.now len first second
        → refusal_of world a.now ≡ result_err result }
    ensures writes { IfOk result (λ change. (world : List ℕ) → Shows world a.now len first second
        → writes_of world a.now ≡ change_writes a.now change) }

    // For callers that write the change.
    ensures inside { OnOk result ((first_cell a.now < len) × (second_cell a.now < len)) }
    ensures limit { IfOk result (λ change. IsWord change.first × IfSome change.second IsWord) }
{
    match *a {
        Action::Set { cell, value } => check_set(cell, value, len),
        Action::Add { cell, by } => check_add(cell, by, len, first),
        Action::Transfer { from, to, amount } => {
            check_transfer(from, to, amount, len, first, second)
        }
        Action::Swap { a, b } => check_swap(a, b, len, first, second),
        Action::Cap { cell, value } => check_cap(cell, value, len, first),
    }
}
