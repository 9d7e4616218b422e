ghost use Rattle.std.specs.Prelude.{◌≡◌, ◌≢◌, ◌+◌, ◌<◌, ◌≤◌, [], ◌∷◌, ◌++◌, length, slice_index};
ghost use Rattle.std.specs.Prelude.{Ok, Err, IsOk, IsErr, OnOk, OnErr, IfOk, IfErr, IfSome};
ghost use Rattle.std.specs.Result.{result_err};
ghost use Rattle.world_actions.specs.Action.{first_cell, second_cell};
ghost use Rattle.world_actions.specs.World.{IsWord};
ghost use Rattle.world_actions.specs.Effect.{refusal_of, writes_of, written, change_writes};
ghost use Rattle.world_ticks.specs.Cells.{Performs};
ghost use Rattle.world_ticks.specs.After.{after_actions, accepted_writes, StopsAt};
ghost use Rattle.world_ticks.specs.Tick.{decision};

use crate::cells::Cells;
use crate::tick::Tick;
use world_actions::{Action, Change, Refusal, check};

/// Does an action on the cells and adds it to the running tick, or refuses it. It refuses with
/// `TickFull` first, then with the refusal of `check`, then with `NoMemory`. The memory for the
/// tick is taken before a cell is written.
pub fn act<C: Cells>(c: &mut C, t: &mut Tick, a: Action) -> Result<(), Refusal>
    ensures done { OnOk result ((decision (C.words c.old) t.old.list a ≡ Ok (C.words c.new))
        × (t.new.list ≡ t.old.list ++ a ∷ [])) }
    ensures writes { OnOk result (Performs C.accessed c.old (writes_of (C.words c.old) a) c.new) }
    ensures room { OnOk result (t.old.room ≤ t.new.room + 1) }
    ensures settled { OnOk result (0 < t.old.room → t.new.room + 1 ≡ t.old.room) }

    ensures refused { IfErr result (λ refusal. refusal ≢ Refusal.NoMemory
        → decision (C.words c.old) t.old.list a ≡ Err refusal) }
    ensures memory { result ≡ Err Refusal.NoMemory
        → (t.old.room ≡ 0) × IsOk (decision (C.words c.old) t.old.list a) }
    ensures unchanged { OnErr result ((C.words c.new ≡ C.words c.old) × (t.new ≡ t.old)
        × Performs C.accessed c.old [] c.new) }
{
    if t.is_full() {
        return Err(Refusal::TickFull);
    }
    let change = decided(c, &a)?;
    t.reserve(1)?;
    put(c, &a, change);
    t.push_reserved(a);
    Ok(())
}

/// Does actions in order. If one is refused, it stops and returns `BadLog`; the actions before that
/// one stay done. It takes no memory.
pub fn replay<C: Cells>(c: &mut C, actions: &[Action]) -> Result<(), Refusal>
    ensures done { OnOk result (after_actions (C.words c.old) actions.now ≡ Ok (C.words c.new)) }
    ensures refused { IfErr result (λ refusal. (refusal ≡ Refusal.BadLog)
        × IsErr (after_actions (C.words c.old) actions.now)
        × StopsAt (C.words c.old) actions.now (C.words c.new)) }
    ensures writes { Performs C.accessed c.old (accepted_writes (C.words c.old) actions.now) c.new }
{
    for a in actions {
        match decided(c, a) {
            Ok(change) => put(c, a, change),
            Err(_) => return Err(Refusal::BadLog),
        }
    }
    Ok(())
}

// Decides an action from the words of its cells. It only reads.
fn decided<C: Cells>(c: &mut C, a: &Action) -> Result<Change, Refusal>
    ensures refuses { refusal_of (C.words c.old) a.now ≡ result_err result }
    ensures writes { IfOk result (λ change. writes_of (C.words c.old) a.now
        ≡ change_writes a.now change) }
    ensures inside { OnOk result ((first_cell a.now < length (C.words c.new))
        × (second_cell a.now < length (C.words c.new))) }
    ensures limit { IfOk result (λ change. IsWord change.first × IfSome change.second IsWord) }
    ensures unchanged { C.words c.new ≡ C.words c.old }
    ensures reads { Performs C.accessed c.old [] c.new }
{
    let (first_cell, second_cell) = a.cells();
    let len = c.len();
    let first = word_or_zero(c, first_cell as usize);
    let second = word_or_zero(c, second_cell as usize);
    check(a, len, first, second)
}

// Returns the word of a cell, or 0 if there is no such cell.
fn word_or_zero<C: Cells>(c: &mut C, i: usize) -> u64
    ensures word { result ≡ slice_index (C.words c.old) i }
    ensures limit { IsWord result }
    ensures unchanged { C.words c.new ≡ C.words c.old }
    ensures reads { Performs C.accessed c.old [] c.new }
{
    if i < c.len() { c.read(i) } else { 0 }
}

// Writes the new words of the cells that an action names.
fn put<C: Cells>(c: &mut C, a: &Action, change: Change)
    requires inside { (first_cell a.now < length (C.words c.old))
        × (second_cell a.now < length (C.words c.old)) }
    requires limit { IsWord change.first × IfSome change.second IsWord }
    ensures words { C.words c.new ≡ written (C.words c.old) (change_writes a.now change) }
    ensures writes { Performs C.accessed c.old (change_writes a.now change) c.new }
{
    let (first_cell, second_cell) = a.cells();
    c.write(first_cell as usize, change.first);
    if let Some(word) = change.second {
        c.write(second_cell as usize, word);
    }
}
