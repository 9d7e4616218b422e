//! The single steps of the two seats, each of which loads, stores or swaps one word of the table.
ghost use Rattle.std.specs.Prelude.{◌≡◌, ◌/◌, ◌%◌, ◌<◌, true, false, vec_len, length, slice_get};
ghost use Rattle.std.specs.Prelude.{slice_set, Some};
ghost use Rattle.world_actions.specs.World.{IsWord};
ghost use Rattle.capture_core.specs.Taken.{IsTakenWord};
ghost use Rattle.capture_core.specs.declared.taker.Taken.{Taken};
ghost use Rattle.packed_marks.specs.Bits.{chunks, marked};
ghost use Rattle.packed_marks.specs.Marks.{IsPacked};
ghost use Rattle.shared_capture.specs.declared.method.Kind.TheVariants.{Zigzag};
ghost use Rattle.shared_capture.specs.Methods.{write_side, take_side, is_word};
ghost use Rattle.shared_capture.specs.Table.{HasCells};
ghost use Rattle.shared_capture.specs.Steps.{front_of, back_of, after_write, after_load};
ghost use Rattle.shared_capture.specs.Steps.{after_mark, after_open, after_look, after_fetch};
ghost use Rattle.shared_capture.specs.Steps.{after_take, after_known, after_finish};
ghost use Rattle.shared_capture.specs.Meeting.{Met, after_meet, front_met};
ghost use Rattle.shared_capture.specs.Seats.{FitsCells, IsFront, IsBack, IsPair, IsReady, IsSame};
ghost use Rattle.shared_capture.specs.Seats.{IsFetched};

use crate::method::{Kind, Method};
use crate::table::{SharedTable, TableSeat, cell, mark_word, row_of};
use crate::table_rule::{
    FetchMark, Finish, LoadPhase, LoadValue, Look, Meet, Move, Part, Rejoin, StoreMark, StorePhase,
    StoreValue,
};
use capture_core::Taken;
use packed_marks::has_bit;

pub(crate) fn load_phase<M: Method>(table: &SharedTable<M>, seat: &mut TableSeat) -> u64
    requires table { HasCells (vec_len table.now.key.live) table.now.table_id }
    requires seat { IsFront table.now.table_id (front_of seat.old.me.0) seat.old }
    ensures seat { IsFront table.now.table_id
        (after_load result (front_of seat.old.me.0)) seat.new }
    ensures known { (front_of seat.old.me.0).closed ≡ true → result ≡ 0 }
{
    table.load::<LoadPhase>(seat, 0)
}

pub(crate) fn store_value<M: Method>(
    table: &SharedTable<M>,
    seat: &mut TableSeat,
    cells: usize,
    second: bool,
    i: usize,
    value: u64,
)
    requires table { HasCells cells table.now.table_id × (vec_len table.now.key.live ≡ cells) }
    requires inside { i < cells }
    requires limit { IsWord value }
    requires seat { let f = front_of seat.old.me.0 in
        IsFront table.now.table_id f seat.old × FitsCells cells f
        × (second ≡ write_side M.KIND f.current (marked f.marks i)) }
    ensures { IsFront table.now.table_id
        (after_write i second value (front_of seat.old.me.0)) seat.new }
{
    table.store::<StoreValue>(seat, cell(cells, second, i), value);
}

pub(crate) fn store_mark<M: Method>(
    table: &SharedTable<M>,
    seat: &mut TableSeat,
    cells: usize,
    second: bool,
    k: usize,
    word: u64,
)
    requires table { HasCells cells table.now.table_id × (vec_len table.now.key.live ≡ cells) }
    requires inside { k < chunks cells }
    requires seat { let f = front_of seat.old.me.0 in
        IsFront table.now.table_id f seat.old × FitsCells cells f × (second ≡ f.current)
        × (M.KIND ≡ Zigzag → f.closed ≡ true) }
    requires spare { IsPacked cells (slice_set (front_of seat.old.me.0).marks k word) }
    ensures { IsFront table.now.table_id (after_mark k word (front_of seat.old.me.0)) seat.new }
{
    table.store::<StoreMark>(seat, mark_word(cells, row_of::<M>(second), k), word);
}

pub(crate) fn store_phase<M: Method>(table: &SharedTable<M>, seat: &mut TableSeat, tick: u64)
    requires table { HasCells (vec_len table.now.key.live) table.now.table_id × (0 < tick) }
    requires seat { let f = front_of seat.old.me.0 in
        IsFront table.now.table_id f seat.old × (f.closed ≡ true)
        × IsReady M.KIND (vec_len table.now.key.live) f }
    ensures { IsFront table.now.table_id
        (after_open M.KIND tick (front_of seat.old.me.0)) seat.new }
{
    table.store::<StorePhase<M>>(seat, 0, tick);
}

pub(crate) fn look<M: Method>(table: &SharedTable<M>, seat: &mut TableSeat) -> u64
    requires table { HasCells (vec_len table.now.key.live) table.now.table_id }
    requires seat { let b = back_of seat.old.me.0 in
        IsBack table.now.table_id b seat.old × (b.working ≡ false) }
    ensures { IsBack table.now.table_id (after_look result (back_of seat.old.me.0)) seat.new }
{
    table.load::<Look>(seat, 0)
}

/// Fetches the next mark word of the round in work. For Ping-Pong it leaves 0 in the table.
pub(crate) fn fetch_mark<M: Method>(
    table: &SharedTable<M>,
    seat: &mut TableSeat,
    cells: usize,
    second: bool,
    k: usize,
) -> u64
    requires table { HasCells cells table.now.table_id × (vec_len table.now.key.live ≡ cells) }
    requires inside { k < chunks cells }
    requires seat { let b = back_of seat.old.me.0 in
        IsBack table.now.table_id b seat.old × (b.working ≡ true) × (length b.marks ≡ k)
        × (b.current ≡ second) }
    ensures { IsBack table.now.table_id (after_fetch result (back_of seat.old.me.0)) seat.new }
{
    let word = mark_word(cells, row_of::<M>(second), k);
    match M::KIND {
        Kind::Zigzag => table.load::<FetchMark>(seat, word),
        Kind::PingPong => table.swap::<FetchMark>(seat, word, 0),
    }
}

pub(crate) fn load_value<M: Method>(
    table: &SharedTable<M>,
    seat: &mut TableSeat,
    cells: usize,
    second: bool,
    i: usize,
) -> u64
    requires table { HasCells cells table.now.table_id × (vec_len table.now.key.live ≡ cells) }
    requires inside { i < cells }
    requires seat { let b = back_of seat.old.me.0 in
        IsBack table.now.table_id b seat.old × (b.working ≡ true) × (b.cells ≡ cells) }
    requires known { IsSame M.KIND i (back_of seat.old.me.0) }
    requires word { let b = back_of seat.old.me.0 in
        (i / 64 < length b.marks) × (is_word M.KIND (marked b.marks i) ≡ true)
        × (second ≡ take_side M.KIND b.current (marked b.marks i)) }
    ensures seat { IsBack table.now.table_id
        (after_take i result (back_of seat.old.me.0)) seat.new }
    ensures limit { IsWord result }
{
    table.load::<LoadValue>(seat, cell(cells, second, i))
}

/// Returns the mark word of the next cell of the round in work. `mark` is that word, unless the
/// cell is the first of its word.
pub(crate) fn mark_for<M: Method>(
    table: &SharedTable<M>,
    seat: &mut TableSeat,
    cells: usize,
    second: bool,
    mark: u64,
    i: usize,
) -> u64
    requires table { HasCells cells table.now.table_id × (vec_len table.now.key.live ≡ cells) }
    requires inside { i < cells }
    requires seat { let b = back_of seat.old.me.0 in
        IsBack table.now.table_id b seat.old × (b.working ≡ true) × (b.current ≡ second)
        × (length b.marks ≡ chunks i) }
    requires mark { 0 < i % 64 → slice_get (back_of seat.old.me.0).marks (i / 64) ≡ Some mark }
    ensures seat { IsBack table.now.table_id (back_of seat.new.me.0) seat.new }
    ensures fetched { IsFetched i result (back_of seat.old.me.0) (back_of seat.new.me.0) }
{
    if i % 64 == 0 {
        fetch_mark(table, seat, cells, second, i / 64)
    } else {
        mark
    }
}

/// Takes the next cell of the round in work. `mark` is its mark word.
pub(crate) fn take_known<M: Method>(
    table: &SharedTable<M>,
    seat: &mut TableSeat,
    cells: usize,
    second: bool,
    mark: u64,
    i: usize,
) -> Taken
    requires table { HasCells cells table.now.table_id × (vec_len table.now.key.live ≡ cells) }
    requires inside { i < cells }
    requires seat { let b = back_of seat.old.me.0 in
        IsBack table.now.table_id b seat.old × (b.working ≡ true) × (b.cells ≡ cells)
        × (b.current ≡ second) }
    requires known { IsSame M.KIND i (back_of seat.old.me.0) }
    requires mark { slice_get (back_of seat.old.me.0).marks (i / 64) ≡ Some mark }
    ensures seat { IsBack table.now.table_id
        (after_known i result (back_of seat.old.me.0)) seat.new }
    ensures same { result ≡ Taken.Same
        → is_word M.KIND (marked (back_of seat.old.me.0).marks i) ≡ false }
    ensures limit { IsTakenWord result }
{
    let set = has_bit(mark, i % 64);
    match M::KIND {
        Kind::Zigzag => Taken::Word(load_value(table, seat, cells, !set, i)),
        Kind::PingPong if set => Taken::Word(load_value(table, seat, cells, second, i)),
        Kind::PingPong => Taken::Same,
    }
}

pub(crate) fn finish<M: Method>(table: &SharedTable<M>, seat: &mut TableSeat)
    requires table { HasCells (vec_len table.now.key.live) table.now.table_id }
    requires seat { let b = back_of seat.old.me.0 in
        IsBack table.now.table_id b seat.old × (b.working ≡ true)
        × IsSame M.KIND (vec_len table.now.key.live) b }
    ensures { IsBack table.now.table_id (after_finish (back_of seat.old.me.0)) seat.new }
{
    table.store::<Finish>(seat, 0, 0);
}

/// Parts a seat that knows what front and back know, and returns the back's.
pub(crate) fn part<M: Method>(table: &SharedTable<M>, seat: &mut TableSeat) -> TableSeat
    requires table { HasCells (vec_len table.now.key.live) table.now.table_id }
    requires seat { let v = seat.old.me.0 in
        IsPair table.now.table_id (front_of v) (back_of v) seat.old }
    ensures front { IsFront table.now.table_id (front_of seat.old.me.0) seat.new }
    ensures back { IsBack table.now.table_id (back_of seat.old.me.0) result }
{
    table.split_seat::<Part>(seat)
}

/// Lets the two seats meet, and parts them again. Returns the phase word that they found.
pub(crate) fn meet<M: Method>(
    table: &SharedTable<M>,
    front: &mut TableSeat,
    back: &mut TableSeat,
) -> u64
    requires table { HasCells (vec_len table.now.key.live) table.now.table_id }
    requires front { IsFront table.now.table_id (front_of front.old.me.0) front.old }
    requires back { IsBack table.now.table_id (back_of back.old.me.0) back.old }
    ensures front { IsFront table.now.table_id
        (front_met result (front_of front.old.me.0)) front.new }
    ensures back { IsBack table.now.table_id (after_meet result (back_of back.old.me.0)) back.new }
    ensures met { Met M.KIND result (front_of front.old.me.0)
        (after_meet result (back_of back.old.me.0)) }
{
    let moved = table.split_seat::<Move>(back);
    table.join_seat::<Rejoin>(front, moved);
    let found = table.load::<Meet<M>>(front, 0);
    *back = part(table, front);
    found
}
