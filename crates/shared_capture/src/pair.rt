//! The two seats of one table, and their meeting.
ghost use Rattle.std.specs.Prelude.{◌≡◌, ◌<◌, [], false, length, vec_len, All, IfOk, IfErr};
ghost use Rattle.std.specs.Arc.{arc_value};
ghost use Rattle.world_actions.specs.World.{IsWord};
ghost use Rattle.packed_marks.specs.Bits.{IsFull};
ghost use Rattle.shared_capture.specs.declared.method.Kind.TheVariants.{Zigzag};
ghost use Rattle.shared_capture.specs.Rounds.{Agree};
ghost use Rattle.shared_capture.specs.Table.{HasCells};
ghost use Rattle.shared_capture.specs.Start.{opening_words, opening_pair};
ghost use Rattle.shared_capture.specs.Seats.{IsSeated};
ghost use Rattle.shared_capture.specs.States.{snapshots, IsStart, MetBack, KnowsOpen};

use crate::back::Back;
use crate::front::Front;
use crate::method::{Kind, Method, Pong, Zig};
use crate::steps;
use crate::table::{Opening, OwnedTable, TableSeat};
use atomic_table::Table;
use packed_marks::full_marks;
use std::alloc::{AllocError, Global};
use std::sync::Arc;
use world_actions::Refusal;

/// Makes two seats of the method Zigzag at a new table with these words. The front
/// keeps their list.
pub fn zigzag_pair(alloc: Global, words: Vec<u64>) -> Result<(Front<Zig>, Back<Zig>), Refusal>
    requires { All IsWord words.items }
    ensures ok { IfOk result (λ pair. IsStart words.items pair.0 pair.1) }
    ensures err { IfErr result (λ refusal. refusal ≡ Refusal.NoMemory) }
{
    seat_pair(alloc, words)
}

/// Makes two seats of the method Ping-Pong at a new table with these words. The front
/// keeps their list.
pub fn ping_pong_pair(alloc: Global, words: Vec<u64>) -> Result<(Front<Pong>, Back<Pong>), Refusal>
    requires { All IsWord words.items }
    ensures ok { IfOk result (λ pair. IsStart words.items pair.0 pair.1) }
    ensures err { IfErr result (λ refusal. refusal ≡ Refusal.NoMemory) }
{
    seat_pair(alloc, words)
}

/// Makes two seats of a method at a new table with these words. The front keeps their list.
pub fn seat_pair<M: Method>(alloc: Global, words: Vec<u64>) -> Result<(Front<M>, Back<M>), Refusal>
    requires { All IsWord words.items }
    ensures ok { IfOk result (λ pair. IsStart words.items pair.0 pair.1) }
    ensures err { IfErr result (λ refusal. refusal ≡ Refusal.NoMemory) }
{
    let cells = words.len();
    let marks = full_marks(alloc, cells)?;
    let key = Opening { live: words, marks };
    let away = away_marks::<M>(alloc, &key.marks)?;
    let changed = Vec::with_capacity(alloc, away.len())?;
    let (table, shared, seat, other) = shared_table::<M>(alloc, &key)?;
    let Opening { live, marks } = key;
    Ok((
        Front {
            table,
            seat,
            live,
            marks,
            away,
            changed,
            current: false,
        },
        Back {
            table: shared,
            seat: other,
            cells,
            tick: 0,
            at: 0,
            mark: 0,
            current: false,
        },
    ))
}

type Halves<M> = (
    Arc<OwnedTable<M>, Global>,
    Arc<OwnedTable<M>, Global>,
    TableSeat,
    TableSeat,
);

// Makes a new table, with two owners, and its two seats.
fn shared_table<M: Method>(alloc: Global, key: &Opening) -> Result<Halves<M>, AllocError>
    requires { All IsWord key.now.live.items × IsFull (vec_len key.now.live) key.now.marks.items }
    ensures { IfOk result (λ halves. (arc_value halves.1 ≡ arc_value halves.0)
        × IsSeated (arc_value halves.0).shared.table_id
        (vec_len (arc_value halves.0).shared.key.live)
        (vec_len key.now.live) key.now.live.items key.now.marks.items halves.2 halves.3) }
{
    let (table, mut seat) = new_table::<M>(alloc, key)?;
    let other = steps::part::<M>(&table.shared, &mut seat);
    let Ok(table) = Arc::new(alloc, table) else {
        return Err(AllocError);
    };
    let shared = Arc::try_clone(&table)?;
    Ok((table, shared, seat, other))
}

// Makes a new table, and its one seat, which knows what front and back know.
fn new_table<M: Method>(
    alloc: Global,
    key: &Opening,
) -> Result<(OwnedTable<M>, TableSeat), AllocError>
    requires { All IsWord key.now.live.items × IsFull (vec_len key.now.live) key.now.marks.items }
    ensures { IfOk result (λ made. (made.0.shared.key ≡ key.now)
        × HasCells (vec_len key.now.live) made.0.shared.table_id
        × (made.1.table_id ≡ made.0.shared.table_id)
        × (made.1.me ≡ (opening_pair key.now.live.items key.now.marks.items, []))) }
{
    let all = table_words(alloc, &key.live, &key.marks)?;
    let (table, seat) = Table::of_words(alloc, all.as_slice(), key)?;
    Ok((table, seat))
}

// For Zigzag: makes the bits that name the array of each cell without its live word. At first that
// is the second array.
fn away_marks<M: Method>(alloc: Global, marks: &[u64]) -> Result<Vec<u64>, AllocError>
    ensures { IfOk result (λ away. M.KIND ≡ Zigzag → away.items ≡ marks.now) }
{
    match M::KIND {
        Kind::Zigzag => Vec::from_slice(alloc, marks),
        Kind::PingPong => Ok(Vec::new(alloc)),
    }
}

// Makes the words of a table: the phase, the two arrays, and the two rows of marks.
fn table_words(alloc: Global, words: &[u64], marks: &[u64]) -> Result<Vec<u64>, AllocError>
    requires { IsFull (length words.now) marks.now }
    ensures { IfOk result (λ all. all.items ≡ opening_words words.now marks.now) }
{
    let zeros = Vec::from_elem(alloc, 0u64, marks.len())?;
    let mut all = Vec::with_capacity(alloc, 1 + 2 * (words.len() + marks.len()))?;
    all.push(0)?;
    all.extend_from_slice(words)?;
    all.extend_from_slice(words)?;
    all.extend_from_slice(marks)?;
    all.extend_from_slice(zeros.as_slice())?;
    Ok(all)
}

/// Lets the seats of one pair meet. The taken cells are then known to be those that were marked,
/// and each seat knows if a round is open.
pub fn meet<M: Method>(front: &mut Front<M>, back: &mut Back<M>)
    requires { front.old.pair ≡ back.old.pair }
    ensures rounds { Agree front.new.rounds (snapshots back.new) }
    ensures front { front.new ≡ record front.old { closed = front.new.closed } }
    ensures back { MetBack back.old back.new }
    ensures level { KnowsOpen front.new.closed front.new back.new }
{
    let found = steps::meet(&front.table.shared, &mut front.seat, &mut back.seat);
    back.tick = known_tick(back.tick, found);
}

// Returns the tick of the round in work, or the one that was found if none is in work.
fn known_tick(tick: u64, found: u64) -> u64
    ensures found { tick ≡ 0 → result ≡ found }
    ensures known { 0 < tick → result ≡ tick }
{
    if tick == 0 { found } else { tick }
}
