//! A signal from one thread to another: numbers in one word, each greater than those before it. The
//! checkpointer sends the ticks of open images to the log writer. The log writer sends the mutator
//! a 1 once the log is down.
ghost use Rattle.std.specs.Prelude.{◌≡◌, ◌+◌, ◌<◌, ◌≤◌, ◌++◌, ◌∷◌, [], ℕ, Some, length, slice_get};
ghost use Rattle.std.specs.Prelude.{IfOk, IfErr};
ghost use Rattle.std.specs.Arc.{arc_value};
ghost use Rattle.shared_capture.specs.declared.signal.SignalView.TheVariants.{Spent, Both};
ghost use Rattle.shared_capture.specs.SignalWord.{SignalState, with_number, IsOut, IsIn, IsBoth};
ghost use Rattle.shared_capture.specs.SignalWord.{AreStored, Kept, stored_of, loaded_of};
ghost use Rattle.shared_capture.specs.SignalWord.{stored_next, loaded_next, met, out_part, in_part};
ghost use Rattle.shared_capture.specs.SignalWord.{paired};

use atomic_table::{Join, Play, Seat, Shared, Split, Table, TableRule};
use std::alloc::{AllocError, Global};
use std::marker::Model;
use std::sync::Arc;
use world_actions::Refusal;

/// The knowledge of a seat at the word: the numbers that it stored, those that it loaded, or both.
/// No value of this type is made. Contracts read its arrays as lists of any length.
pub enum SignalView {
    Spent,
    Out([u64; 0]),
    In([u64; 0]),
    Both([u64; 0], [u64; 0]),
}

/// The rule of the word: it is the last number that was stored, or 0. Each loaded number was
/// stored, or is 0.
pub struct SignalRule;

impl TableRule<(), SignalView, ()> for SignalRule {
    ghost holds = { λ _. Kept };

    ghost first = { λ _. Both [] [] };
}

struct Publish;

impl Play<(), SignalView> for Publish {
    ghost then = { stored_next };
}

struct Latest;

impl Play<(), SignalView> for Latest {
    ghost then = { loaded_next };
}

struct Meet;

impl Play<(), SignalView> for Meet {
    ghost then = { met };
}

/// Parts a pair of views.
struct Part;

impl Split<SignalView> for Part {
    ghost left = { out_part };

    ghost right = { in_part };
}

/// Moves a whole view to a new seat.
struct Move;

impl Split<SignalView> for Move {
    ghost left = { λ v. Spent };

    ghost right = { λ v. v };
}

/// Unites two views.
struct Rejoin;

impl Join<SignalView> for Rejoin {
    ghost both = { paired };

    ghost spent = { Spent };
}

type SignalTable = Table<(), SignalView, (), SignalRule, Global>;

type SignalSeat = Seat<(), SignalView>;

/// Stores the numbers: ticks of images that are open, or 1 for a log that is down. Contracts see
/// its pair, and the numbers.
#[derive(Drop)]
pub struct SignalOut {
    table: Arc<SignalTable, Global>,
    seat: SignalSeat,
}

impl Model for SignalOut {
    ghost Value = { SignalState };

    ghost view = { λ c. record { pair = c.seat.table_id; numbers = stored_of c.seat.me.0 } };

    ghost invariant = { λ c.
        IsOut (arc_value c.table).shared.table_id (stored_of c.seat.me.0) c.seat };
}

/// Loads the newest of these numbers. Contracts see its pair, and the numbers that it loaded.
#[derive(Drop)]
pub struct SignalIn {
    table: Arc<SignalTable, Global>,
    seat: SignalSeat,
}

impl Model for SignalIn {
    ghost Value = { SignalState };

    ghost view = { λ c. record { pair = c.seat.table_id; numbers = loaded_of c.seat.me.0 } };

    ghost invariant = { λ c.
        IsIn (arc_value c.table).shared.table_id (loaded_of c.seat.me.0) c.seat };
}

/// Makes two seats at a new word. Nothing was stored in it or loaded from it.
pub fn signal_pair(alloc: Global) -> Result<(SignalOut, SignalIn), AllocError>
    ensures { IfOk result (λ pair. (pair.0.pair ≡ pair.1.pair)
        × (pair.0.numbers ≡ []) × (pair.1.numbers ≡ [])) }
{
    let (table, mut seat) = Table::of_words(alloc, &[0], &())?;
    let other = parted(&table.shared, &mut seat);
    let Ok(table) = Arc::new(alloc, table) else {
        return Err(AllocError);
    };
    let shared = Arc::try_clone(&table)?;
    Ok((
        SignalOut { table, seat },
        SignalIn {
            table: shared,
            seat: other,
        },
    ))
}

/// Makes the two seats of a signal of the ticks of open images.
pub fn cover_pair(alloc: Global) -> Result<(SignalOut, SignalIn), Refusal>
    ensures ok { IfOk result (λ pair. (pair.0.pair ≡ pair.1.pair)
        × (pair.0.numbers ≡ []) × (pair.1.numbers ≡ [])) }
    ensures err { IfErr result (λ refusal. refusal ≡ Refusal.NoMemory) }
{
    Ok(signal_pair(alloc)?)
}

impl SignalOut {
    /// Stores a number, which is greater than those before it. It makes one store and no load.
    pub fn publish(&mut self, next: u64)
        requires some { 1 ≤ next }
        requires newer { (i earlier : ℕ)
            → slice_get self.old.numbers i ≡ Some earlier → earlier < next }
        ensures stored { self.new ≡ with_number self.old next }
        ensures stores { length self.new.numbers ≡ length self.old.numbers + 1 }
    {
        self.table.shared.store::<Publish>(&mut self.seat, 0, next);
    }
}

impl SignalIn {
    /// Returns the number that was stored last, or 0 if none was. It makes one load.
    pub fn latest(&mut self) -> u64
        ensures loaded { self.new ≡ with_number self.old result }
        ensures loads { length self.new.numbers ≡ length self.old.numbers + 1 }
    {
        self.table.shared.load::<Latest>(&mut self.seat, 0)
    }
}

/// Lets the seats of one pair meet. Each loaded number other than 0 is then known to
/// have been stored.
pub fn meet_signal(out: &mut SignalOut, from: &mut SignalIn)
    requires { out.old.pair ≡ from.old.pair }
    ensures same { (out.new ≡ out.old) × (from.new ≡ from.old) }
    ensures stored { AreStored out.new.numbers from.new.numbers }
{
    meet_seats(&out.table.shared, &mut out.seat, &mut from.seat);
}

type SignalWord = Shared<(), SignalView, (), SignalRule>;

// Parts a seat that knows both, and returns the one that loads.
fn parted(word: &SignalWord, seat: &mut SignalSeat) -> SignalSeat
    requires word { word.now.table_id.words ≡ 1 }
    requires seat { IsBoth word.now.table_id (stored_of seat.old.me.0)
        (loaded_of seat.old.me.0) seat.old }
    ensures out { IsOut word.now.table_id (stored_of seat.old.me.0) seat.new }
    ensures from { IsIn word.now.table_id (loaded_of seat.old.me.0) result }
{
    word.split_seat::<Part>(seat)
}

// Lets the two seats meet, and parts them again.
fn meet_seats(word: &SignalWord, out: &mut SignalSeat, from: &mut SignalSeat)
    requires out { IsOut word.now.table_id (stored_of out.old.me.0) out.old }
    requires from { IsIn word.now.table_id (loaded_of from.old.me.0) from.old }
    ensures out { IsOut word.now.table_id (stored_of out.old.me.0) out.new }
    ensures from { IsIn word.now.table_id (loaded_of from.old.me.0) from.new }
    ensures stored { AreStored (stored_of out.old.me.0) (loaded_of from.old.me.0) }
{
    let moved = word.split_seat::<Move>(from);
    word.join_seat::<Rejoin>(out, moved);
    let _ = word.load::<Meet>(out, 0);
    *from = parted(word, out);
}
