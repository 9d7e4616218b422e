//! The table of a pair of seats, and its layout.
ghost use Rattle.std.specs.Prelude.{◌≡◌, ◌<◌, ◌^◌};
ghost use Rattle.packed_marks.specs.Bits.{chunks};
ghost use Rattle.shared_capture.specs.Methods.{row};
ghost use Rattle.shared_capture.specs.Table.{cell_place, mark_place};

use crate::method::{Kind, Method};
use crate::table_rule::Rule;
use crate::view::View;
use atomic_table::{Seat, Shared, Table};
use packed_marks::chunks_of;
use std::alloc::Global;

/// The data from which a table is made: its opening words and marks.
#[derive(Drop)]
pub struct Opening {
    pub(crate) live: Vec<u64>,
    pub(crate) marks: Vec<u64>,
}

pub(crate) type OwnedTable<M> = Table<(), View, Opening, Rule<M>, Global>;

pub(crate) type SharedTable<M> = Shared<(), View, Opening, Rule<M>>;

pub(crate) type TableSeat = Seat<(), View>;

/// Returns the place of a cell's word in one of the two arrays.
pub(crate) fn cell(cells: usize, second: bool, i: usize) -> usize
    requires { (cells < 2 ^ 60) × (i < cells) }
    ensures { result ≡ cell_place cells second i }
{
    if second { 1 + cells + i } else { 1 + i }
}

/// Returns the place of a mark word in one of the two rows.
pub(crate) fn mark_word(cells: usize, second: bool, k: usize) -> usize
    requires { (cells < 2 ^ 60) × (k < chunks cells) }
    ensures { result ≡ mark_place cells second k }
{
    if second {
        1 + cells + cells + chunks_of(cells) + k
    } else {
        1 + cells + cells + k
    }
}

/// Returns the row with the marks of an array.
pub(crate) fn row_of<M: Method>(second: bool) -> bool
    ensures { result ≡ row M.KIND second }
{
    match M::KIND {
        Kind::Zigzag => false,
        Kind::PingPong => second,
    }
}
