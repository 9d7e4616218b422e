//! The decision on an action of each kind, from the number of cells and the words of
//! the action's cells.
ghost use Rattle.std.specs.Prelude.{◌≡◌, ℕ, List, ◌<◌, length, slice_index, OnOk, IfOk, IfSome};
ghost use Rattle.std.specs.Result.{result_err};
ghost use Rattle.world_actions.specs.declared.action.Action.TheVariants.{Set, Add, Transfer, Swap};
ghost use Rattle.world_actions.specs.declared.action.Action.TheVariants.{Cap};
ghost use Rattle.world_actions.specs.World.{IsWord};
ghost use Rattle.world_actions.specs.Effect.{Shows, refusal_of, writes_of, change_writes};

use crate::action::Change;
use crate::refusal::Refusal;
use crate::world::LIMIT;

/// Decides a `Set`.
pub(crate) fn check_set(cell: u32, value: u64, len: usize) -> Result<Change, Refusal>
    ensures refuses { (world : List ℕ) → length world ≡ len
        → refusal_of world (Set cell value) ≡ result_err result }
    ensures writes { IfOk result (λ change. (world : List ℕ) → length world ≡ len
        → writes_of world (Set cell value) ≡ change_writes (Set cell value) change) }
    ensures inside { OnOk result (cell < len) }
    ensures limit { IfOk result (λ change. IsWord change.first × IfSome change.second IsWord) }
{
    if cell as usize >= len {
        return Err(Refusal::BadCell);
    }
    if value > LIMIT {
        return Err(Refusal::BadValue);
    }
    Ok(Change {
        first: value,
        second: None,
    })
}

/// Decides an `Add`.
pub(crate) fn check_add(cell: u32, by: i64, len: usize, word: u64) -> Result<Change, Refusal>
    requires { IsWord word }
    ensures refuses { (world : List ℕ) → length world ≡ len → slice_index world cell ≡ word
        → refusal_of world (Add cell by) ≡ result_err result }
    ensures writes { IfOk result (λ change. (world : List ℕ) → length world ≡ len
        → slice_index world cell ≡ word
        → writes_of world (Add cell by) ≡ change_writes (Add cell by) change) }
    ensures inside { OnOk result (cell < len) }
    ensures limit { IfOk result (λ change. IsWord change.first × IfSome change.second IsWord) }
{
    if cell as usize >= len {
        return Err(Refusal::BadCell);
    }
    if by < -(LIMIT as i64) || by > LIMIT as i64 {
        return Err(Refusal::BadValue);
    }
    let sum = word as i64 + by;
    if sum < 0 || sum > LIMIT as i64 {
        return Err(Refusal::OutOfRange);
    }
    Ok(Change {
        first: sum as u64,
        second: None,
    })
}

/// Decides a `Transfer`.
pub(crate) fn check_transfer(
    from: u32,
    to: u32,
    amount: u64,
    len: usize,
    first: u64,
    second: u64,
) -> Result<Change, Refusal>
    requires first { IsWord first }
    requires second { IsWord second }
    ensures refuses { (world : List ℕ) → Shows world (Transfer from to amount) len first second
        → refusal_of world (Transfer from to amount) ≡ result_err result }
    ensures writes { IfOk result (λ change. (world : List ℕ)
        → Shows world (Transfer from to amount) len first second
        → writes_of world (Transfer from to amount)
        ≡ change_writes (Transfer from to amount) change) }
    ensures inside { OnOk result ((from < len) × (to < len)) }
    ensures limit { IfOk result (λ change. IsWord change.first × IfSome change.second IsWord) }
{
    if from as usize >= len || to as usize >= len {
        return Err(Refusal::BadCell);
    }
    if amount > LIMIT {
        return Err(Refusal::BadValue);
    }
    if from == to {
        return Err(Refusal::SameCell);
    }
    if first < amount || second + amount > LIMIT {
        return Err(Refusal::OutOfRange);
    }
    Ok(Change {
        first: first - amount,
        second: Some(second + amount),
    })
}

/// Decides a `Swap`.
pub(crate) fn check_swap(
    a: u32,
    b: u32,
    len: usize,
    first: u64,
    second: u64,
) -> Result<Change, Refusal>
    requires first { IsWord first }
    requires second { IsWord second }
    ensures refuses { (world : List ℕ) → Shows world (Swap a b) len first second
        → refusal_of world (Swap a b) ≡ result_err result }
    ensures writes { IfOk result (λ change. (world : List ℕ)
        → Shows world (Swap a b) len first second
        → writes_of world (Swap a b) ≡ change_writes (Swap a b) change) }
    ensures inside { OnOk result ((a < len) × (b < len)) }
    ensures limit { IfOk result (λ change. IsWord change.first × IfSome change.second IsWord) }
{
    if a as usize >= len || b as usize >= len {
        return Err(Refusal::BadCell);
    }
    if a == b {
        return Err(Refusal::SameCell);
    }
    Ok(Change {
        first: second,
        second: Some(first),
    })
}

/// Decides a `Cap`.
pub(crate) fn check_cap(cell: u32, value: u64, len: usize, word: u64) -> Result<Change, Refusal>
    requires { IsWord word }
    ensures refuses { (world : List ℕ) → length world ≡ len
        → refusal_of world (Cap cell value) ≡ result_err result }
    ensures writes { IfOk result (λ change. (world : List ℕ) → length world ≡ len
        → slice_index world cell ≡ word
        → writes_of world (Cap cell value) ≡ change_writes (Cap cell value) change) }
    ensures inside { OnOk result (cell < len) }
    ensures limit { IfOk result (λ change. IsWord change.first × IfSome change.second IsWord) }
{
    if cell as usize >= len {
        return Err(Refusal::BadCell);
    }
    if value > LIMIT {
        return Err(Refusal::BadValue);
    }
    Ok(Change {
        first: word.min(value),
        second: None,
    })
}
