//! The seat that writes and marks.
ghost use Rattle.std.specs.Prelude.{◌≡◌, ◌≢◌, ℕ, List, ◌+◌, ◌<◌, ◌≤◌, true, vec_len, vec_capacity};
ghost use Rattle.std.specs.Prelude.{length, slice_index, slice_set, All, IsOk, IfErr, OnOk};
ghost use Rattle.std.specs.Arc.{arc_value};
ghost use Rattle.world_actions.specs.World.{IsWord};
ghost use Rattle.world_actions.specs.Effect.{Write};
ghost use Rattle.world_ticks.specs.Cells.{Performs};
ghost use Rattle.world_ticks.specs.declared.tick.TheConstants.{TICK_MAX};
ghost use Rattle.packed_marks.specs.Bits.{chunks, marked};
ghost use Rattle.packed_marks.specs.Marks.{IsPacked};
ghost use Rattle.shared_capture.specs.declared.method.Kind.TheVariants.{Zigzag, PingPong};
ghost use Rattle.shared_capture.specs.declared.view.Round.{Round};
ghost use Rattle.shared_capture.specs.Methods.{mark_steps};
ghost use Rattle.shared_capture.specs.Table.{HasCells};
ghost use Rattle.shared_capture.specs.Steps.{front_of};
ghost use Rattle.shared_capture.specs.Seats.{ListsChanges, FitsCells, IsFront, IsFrontOf, SameRest};
ghost use Rattle.shared_capture.specs.States.{FrontState, front_state, HasFlags, KeepsUntouched};
ghost use Rattle.shared_capture.specs.States.{SameRounds, SameWords, accessed_front, marked_rounds};
ghost use Rattle.shared_capture.specs.States.{IsPut, OpensRound, IsRefused};

use crate::method::{Kind, Method};
use crate::steps::{load_phase, store_mark, store_phase, store_value};
use crate::table::{OwnedTable, SharedTable, TableSeat};
use packed_marks::{has_bit, with_bit};
use std::alloc::Global;
use std::marker::Model;
use std::sync::Arc;
use world_actions::Refusal;
use world_ticks::Cells;

/// The seat that writes and marks. Contracts see its pair and its knowledge.
#[derive(Drop)]
pub struct Front<M: Method> {
    pub(crate) table: Arc<OwnedTable<M>, Global>,
    pub(crate) seat: TableSeat,
    pub(crate) live: Vec<u64>,
    /// The mark words of the current row.
    pub(crate) marks: Vec<u64>,
    /// For Zigzag: a bit for each cell, 64 to a word, which names the array that doesn't have the
    /// cell's live word.
    pub(crate) away: Vec<u64>,
    /// For Zigzag: the places of the mark words that the next mark changes.
    pub(crate) changed: Vec<usize>,
    /// The array that is current.
    pub(crate) current: bool,
}

impl<M: Method> Model for Front<M> {
    ghost Value = { FrontState };

    ghost view = { λ f. front_state M.KIND f.seat.table_id (front_of f.seat.me.0) };

    ghost invariant = { λ f. IsFrontOf M.KIND
        (arc_value f.table).shared.table_id (vec_len (arc_value f.table).shared.key.live)
        f.seat f.live.items f.marks.items f.away.items f.current
        × (M.KIND ≡ Zigzag → ListsChanges f.marks.items f.away.items f.changed.items
        × (length f.marks.items ≤ vec_capacity f.changed)) };
}

impl<M: Method> Cells for Front<M> {
    ghost words = { λ front. front.live };

    ghost accessed = { accessed_front };

    fn len(&self) -> usize {
        self.live.len()
    }

    fn read(&mut self, i: usize) -> u64 {
        self.live[i]
    }

    fn write(&mut self, i: usize, v: u64)
        requires inside { i < length self.old.live }
        requires limit { IsWord v }
        ensures live { self.new.live ≡ slice_set self.old.live i v }
        ensures touched { self.new.touched ≡ slice_set self.old.touched i true }
        ensures same { SameRounds self.old self.new }
        ensures steps { self.new.steps ≤ self.old.steps + 2 }
    {
        match M::KIND {
            Kind::Zigzag => self.write_zigzag(i, v),
            Kind::PingPong => self.write_ping_pong(i, v),
        }
    }
}

impl<M: Method> Front<M> {
    /// Opens a round of this tick and of the words as they are now. It refuses if a round is open.
    pub fn mark(&mut self, tick: u64) -> Result<(), Refusal>
        requires tick { (0 < tick) × (tick ≤ TICK_MAX) }
        requires rising { All (λ (r : Round). r.tick < tick) self.old.rounds }
        ensures same { SameWords self.old self.new }
        ensures marked { OnOk result (self.new.rounds ≡ marked_rounds self.old tick) }
        ensures busy { IfErr result (λ refusal. IsRefused self.old refusal self.new) }
        ensures free { self.old.closed ≡ true → IsOk result }
        ensures steps { self.new.steps ≤ self.old.steps + mark_steps M.KIND (length self.old.live) }
        ensures flags { HasFlags self.new }
    {
        self.mark_words(tick)
    }

    /// Marks as `mark` does, except that the tick needn't be a new one.
    #[tactic(auto, using(crate::proofs::Touched::length_touched))]
    pub(crate) fn mark_words(&mut self, tick: u64) -> Result<(), Refusal>
        requires tick { 0 < tick }
        ensures same { SameWords self.old self.new }
        ensures marked { OnOk result (self.new.rounds ≡ marked_rounds self.old tick) }
        ensures busy { IfErr result (λ refusal. IsRefused self.old refusal self.new) }
        ensures free { self.old.closed ≡ true → IsOk result }
        ensures steps { self.new.steps ≤ self.old.steps + mark_steps M.KIND (length self.old.live) }
        ensures cells { length self.new.touched ≡ length self.new.live }
    {
        if load_phase(&self.table.shared, &mut self.seat) != 0 {
            return Err(Refusal::Busy);
        }
        match M::KIND {
            Kind::Zigzag => self.open_zigzag(tick),
            Kind::PingPong => self.open_ping_pong(tick),
        }
        Ok(())
    }
}

// A write and a mark in each method.
impl<M: Method> Front<M> {
    fn write_zigzag(&mut self, i: usize, v: u64)
        requires kind { M.KIND ≡ Zigzag }
        requires inside { i < length self.old.live }
        requires limit { IsWord v }
        ensures put { IsPut self.old (record { cell = i; word = v }) self.new }
        ensures steps { self.new.steps ≡ self.old.steps + 1 }
    {
        let cells = self.live.len();
        let second = has_bit(self.marks[i / 64], i % 64);
        store_value(&self.table.shared, &mut self.seat, cells, second, i, v);
        self.live[i] = v;
        list_change(
            self.marks.as_slice(),
            self.away.as_slice(),
            &mut self.changed,
            i / 64,
        );
        self.away[i / 64] = with_bit(self.away[i / 64], i % 64, !second);
    }

    // Stores the word, and the cell's mark. If the cell was written since the last round was
    // marked, its mark isn't stored again.
    fn write_ping_pong(&mut self, i: usize, v: u64)
        requires kind { M.KIND ≡ PingPong }
        requires inside { i < length self.old.live }
        requires limit { IsWord v }
        ensures { IsPut self.old (record { cell = i; word = v }) self.new }
    {
        let cells = self.live.len();
        let second = self.current;
        if has_bit(self.marks[i / 64], i % 64) {
            store_value(&self.table.shared, &mut self.seat, cells, second, i, v);
            self.live[i] = v;
            return;
        }
        let word = with_bit(self.marks[i / 64], i % 64, true);
        store_value(&self.table.shared, &mut self.seat, cells, second, i, v);
        store_mark(
            &self.table.shared,
            &mut self.seat,
            cells,
            second,
            i / 64,
            word,
        );
        self.live[i] = v;
        self.marks[i / 64] = word;
    }

    fn open_zigzag(&mut self, tick: u64)
        requires kind { M.KIND ≡ Zigzag }
        requires may { (0 < tick) × (self.old.closed ≡ true) }
        ensures opens { OpensRound self.old tick self.new }
        ensures steps { self.new.steps ≤ self.old.steps + chunks (length self.old.live) + 1 }
    {
        turn_marks(
            &self.table.shared,
            &mut self.seat,
            self.live.len(),
            self.current,
            self.away.as_slice(),
            self.changed.as_slice(),
            self.marks.as_mut_slice(),
        );
        self.changed.clear();
        store_phase(&self.table.shared, &mut self.seat, tick);
        self.current = !self.current;
    }

    #[tactic(auto, using(crate::proofs::Touched::length_touched))]
    fn open_ping_pong(&mut self, tick: u64)
        requires kind { M.KIND ≡ PingPong }
        requires may { (0 < tick) × (self.old.closed ≡ true) }
        ensures opens { OpensRound self.old tick self.new }
        ensures steps { self.new.steps ≡ self.old.steps + 1 }
    {
        store_phase(&self.table.shared, &mut self.seat, tick);
        self.marks.fill(0);
        self.current = !self.current;
    }
}

// Lists a mark word that the next mark is to change, unless it is listed already.
fn list_change(marks: &[u64], away: &[u64], changed: &mut Vec<usize>, k: usize)
    requires inside { (k < length marks.now) × (length away.now ≡ length marks.now) }
    requires listed { ListsChanges marks.now away.now changed.old.items }
    requires room { length marks.now ≤ vec_capacity changed.old }
    ensures listed { (word : ℕ) → slice_index marks.now k ≢ word
        → ListsChanges marks.now (slice_set away.now k word) changed.new.items }
    ensures room { vec_capacity changed.old ≤ vec_capacity changed.new }
{
    if marks[k] == away[k] {
        let _ = changed.push(k);
    }
}

// Sets the marks so that the writes of each cell go to the array without its live word. Its
// parameters are the fields of a front that it borrows apart.
fn turn_marks<M: Method>(
    table: &SharedTable<M>,
    seat: &mut TableSeat,
    cells: usize,
    current: bool,
    away: &[u64],
    changed: &[usize],
    marks: &mut [u64],
)
    requires table { HasCells cells table.now.table_id × (vec_len table.now.key.live ≡ cells) }
    requires seat { let f = front_of seat.old.me.0 in
        IsFront table.now.table_id f seat.old × FitsCells cells f × (f.closed ≡ true)
        × (f.current ≡ current) × (f.marks ≡ marks.old) }
    requires away { IsPacked cells away.now }
    requires changed { ListsChanges marks.old away.now changed.now }
    ensures seat { IsFront table.now.table_id (front_of seat.new.me.0) seat.new }
    ensures same { SameRest (front_of seat.old.me.0) (front_of seat.new.me.0) }
    ensures marks { let g = front_of seat.new.me.0 in
        (g.marks ≡ marks.new) × IsPacked cells g.marks
        × ((k : ℕ) → k < chunks cells → slice_index g.marks k ≡ slice_index away.now k) }
    ensures steps { (front_of seat.new.me.0).steps ≤ (front_of seat.old.me.0).steps + chunks cells }
{
    for j in 0..changed.len() {
        let k = changed[j];
        store_mark(table, seat, cells, current, k, away[k]);
        marks[k] = away[k];
    }
}

/// Laws: accesses of a front leave its pair, its rounds and the phase words that it loaded as they
/// were. They also leave the words of the cells that aren't touched.
pub fn accesses_keep()
    ensures rounds { (old new : FrontState) (writes : List Write)
        → Performs accessed_front old writes new
        → SameRounds old new }
    ensures untouched { (old new : FrontState) (writes : List Write)
        → Performs accessed_front old writes new
        → HasFlags old → KeepsUntouched old new }
{}
