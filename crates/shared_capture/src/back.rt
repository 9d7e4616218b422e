//! The seat that takes.
ghost use Rattle.std.specs.Prelude.{◌≡◌, ◌+◌, ◌<◌, ◌≤◌, [], ◌∷◌, ◌++◌, true, false, vec_len};
ghost use Rattle.std.specs.Prelude.{length, IfSome, IfNone, IsTrue, ◌↔◌, Some};
ghost use Rattle.std.specs.Arc.{arc_value};
ghost use Rattle.capture_core.specs.Taken.{IsTakenWord};
ghost use Rattle.shared_capture.specs.Steps.{back_of};
ghost use Rattle.shared_capture.specs.Seats.{IsBackOf};
ghost use Rattle.shared_capture.specs.States.{BackState, back_state, SameDone, SameRound, IsTaken};
ghost use Rattle.shared_capture.specs.States.{HasNoneLeft, TookBack, FoundNone, FoundRound};

use crate::method::Method;
use crate::steps::{finish, look, mark_for, take_known};
use crate::table::{OwnedTable, TableSeat};
use capture_core::{Taken, Taker};
use std::alloc::Global;
use std::marker::Model;
use std::sync::Arc;

/// The seat that takes the open round. Contracts see its pair and its knowledge.
#[derive(Drop)]
pub struct Back<M: Method> {
    pub(crate) table: Arc<OwnedTable<M>, Global>,
    pub(crate) seat: TableSeat,
    pub(crate) cells: usize,
    /// The tick of the round in work, or 0.
    pub(crate) tick: u64,
    /// The number of its cells that were taken.
    pub(crate) at: usize,
    /// The mark word of the next cell, if it was fetched.
    pub(crate) mark: u64,
    /// The array of the round in work, or of the next one.
    pub(crate) current: bool,
}

impl<M: Method> Model for Back<M> {
    ghost Value = { BackState };

    ghost view = { λ b. back_state b.seat.table_id b.at (back_of b.seat.me.0) };

    ghost invariant = { λ b. IsBackOf M.KIND
        (arc_value b.table).shared.table_id (vec_len (arc_value b.table).shared.key.live)
        b.seat b.cells b.tick b.at b.mark b.current };
}

impl<M: Method> Taker for Back<M> {
    ghost took = { TookBack };

    fn take(&mut self) -> Option<Taken>
        ensures same { SameRound self.old self.new }
        ensures some { IfSome result (λ taken. IsTaken self.old taken self.new) }
        ensures limit { IfSome result IsTakenWord }
        ensures none { IfNone result ((self.new ≡ self.old) × HasNoneLeft self.old) }
        ensures steps { self.new.steps ≤ self.old.steps + 2 }
    {
        if self.tick == 0 || self.at >= self.cells {
            return None;
        }
        let (table, i) = (&self.table.shared, self.at);
        self.mark = mark_for(
            table,
            &mut self.seat,
            self.cells,
            self.current,
            self.mark,
            i,
        );
        let taken = take_known(
            table,
            &mut self.seat,
            self.cells,
            self.current,
            self.mark,
            i,
        );
        self.at += 1;
        Some(taken)
    }
}

impl<M: Method> Back<M> {
    /// Returns the tick of the open round, if one is known, or if a load of the phase finds one.
    pub fn look(&mut self) -> Option<u64>
        ensures same { SameDone self.old self.new }
        ensures known { self.old.working ≡ true
            → (result ≡ Some self.old.now.tick) × (self.new ≡ self.old) }
        ensures found { self.old.working ≡ false
            → IfSome result (λ tick. FoundRound self.old tick self.new)
            × IfNone result (FoundNone self.old self.new) }
        ensures steps { self.new.steps ≤ self.old.steps + 1 }
    {
        if self.tick != 0 {
            return Some(self.tick);
        }
        self.tick = look(&self.table.shared, &mut self.seat);
        if self.tick == 0 {
            None
        } else {
            Some(self.tick)
        }
    }

    /// Ends the round in work, all of whose cells were taken.
    pub fn finish(&mut self)
        requires { (self.old.working ≡ true) × (length self.old.now.taken ≡ self.old.cells) }
        ensures same { (self.new.pair ≡ self.old.pair) × (self.new.cells ≡ self.old.cells)
            × (self.new.loads ≡ self.old.loads) }
        ensures done { self.new.done ≡ self.old.done ++ self.old.now ∷ [] }
        ensures idle { self.new.working ≡ false }
        ensures steps { self.new.steps ≡ self.old.steps + 1 }
    {
        finish(&self.table.shared, &mut self.seat);
        self.tick = 0;
        self.at = 0;
        self.current = !self.current;
    }

    /// True if a round is in work.
    pub(crate) fn is_working(&self) -> bool
        ensures { result ≡ self.now.working }
    {
        self.tick != 0
    }

    /// True if a round is in work and has a cell left.
    pub(crate) fn has_left(&self) -> bool
        ensures { IsTrue result
            ↔ ((self.now.working ≡ true) × (length self.now.now.taken < self.now.cells)) }
    {
        self.tick != 0 && self.at < self.cells
    }
}
