//! The two ends of the channel.
ghost use Rattle.std.specs.Prelude.{◌≡◌, ◌++◌, ◌∷◌, [], true, false, List, IfOk, MatchResult};
ghost use Rattle.crossbeam_channel.specs.Claims.{view, IsSeatAt};
ghost use Rattle.crossbeam_channel.specs.Ends.{sends_on, receives_on, ruled_capacity};
ghost use Rattle.workers.specs.declared.item.Item.{Item as Pushed};
ghost use Rattle.workers.specs.declared.item.Item.TheVariants.{Start};
ghost use Rattle.workers.specs.declared.item.View.TheVariants.{Pushes, Pops};
ghost use Rattle.workers.specs.Items.{AreNumbered, Goes, items_end};
ghost use Rattle.workers.specs.Order.{pushed_of, popped_of};
ghost use Rattle.workers.specs.Channel.{IsBegun, AreOneChannel, with_item, with_refusal};

use crate::item::{Item, View};
use crate::item_rule::{All, InOrder, Move, Part, Pop, Push, Whole};
use crate::spins::{Spins, WorkerSpins};
use crossbeam_channel::{Pass, RecvError, RuledReceiver, RuledSender, TryRecvError, bounded_with};
use restart::QUEUE_RECORDS;
use std::alloc::{AllocError, Global};
use std::marker::Model;
use std::sync::Wait;
use std::thread;

#[derive(Drop)]
pub struct SendEnd {
    end: RuledSender<Item, View, InOrder>,
}

#[derive(Drop)]
pub struct ReceiveEnd {
    end: RuledReceiver<Item, View, InOrder>,
}

/// The end that pushes. Contracts see the items that it pushed, and whether a push was refused.
#[derive(Drop)]
pub struct ItemSender {
    end: SendEnd,
    pass: Pass<Item, View>,
    refused: bool,
}

impl Model for ItemSender {
    ghost use Rattle.crossbeam_channel.specs.Claims.{view as seen};
    ghost use Rattle.workers.specs.Order.{pushed_of};
    ghost use Rattle.workers.specs.Channel.{Pushing, IsSender};

    ghost Value = { Pushing };

    ghost view = { λ s. record {
      end = s.end;
      items = pushed_of (seen s.pass);
      refused = s.refused;
    } };

    ghost invariant = { λ s. IsSender s.end s.pass };
}

/// The end that pops. Contracts see the items that it popped.
#[derive(Drop)]
pub struct ItemReceiver {
    end: ReceiveEnd,
    pass: Pass<Item, View>,
    /// How often it spins for an item before it sleeps.
    spins: WorkerSpins,
}

impl Model for ItemReceiver {
    ghost use Rattle.crossbeam_channel.specs.Claims.{view as seen};
    ghost use Rattle.workers.specs.Order.{popped_of};
    ghost use Rattle.workers.specs.Channel.{Popping, IsReceiver};

    ghost Value = { Popping };

    ghost view = { λ r. record { end = r.end; items = popped_of (seen r.pass) } };

    ghost invariant = { λ r. IsReceiver r.end r.pass };
}

/// Makes a channel of 64 items, for a log that begins after the tick of this number. The start is
/// already pushed and popped.
pub fn open<R: Wait>(
    rt: &R,
    alloc: Global,
    tick: u64,
) -> Result<(ItemSender, ItemReceiver), AllocError>
    ensures channel { IfOk result (λ e. AreOneChannel e.1.end e.0.end) }
    ensures pushed { IfOk result (λ e. e.0.items ≡ Start tick ∷ []) }
    ensures popped { IfOk result (λ e. e.1.items ≡ Start tick ∷ []) }
    ensures pushes { IfOk result (λ e. e.0.refused ≡ false) }
    ensures room { IfOk result (λ e. ruled_capacity (sends_on e.0.end.end) ≡ 64) }
{
    let (to, from, mut pass) = bounded_with::<Item, View, InOrder, Global>(alloc, QUEUE_RECORDS)?;
    let mut other = to.another::<Part>(&mut pass);
    if to
        .send_as::<Push, R>(rt, &mut pass, Item::Start(tick))
        .is_err()
    {
        return Err(AllocError);
    }
    let Ok(_start) = from.recv_as::<Pop, R>(rt, &mut other) else {
        return Err(AllocError);
    };
    compare_passes(&to, &mut pass, &mut other);
    Ok((
        ItemSender {
            end: SendEnd { end: to },
            pass,
            refused: false,
        },
        ItemReceiver {
            end: ReceiveEnd { end: from },
            pass: other,
            spins: WorkerSpins::none(),
        },
    ))
}

impl ItemSender {
    /// Pushes the item at the back, and waits while the channel is full. Returns false if the
    /// receiver is gone.
    pub fn push<R: Wait>(&mut self, rt: &R, item: Item) -> bool
        requires goes { Goes (items_end self.old.items) item }
        ensures end { self.new.end ≡ self.old.end }
        ensures pushed { result ≡ true → self.new ≡ with_item self.old item }
        ensures refused { result ≡ false → self.new ≡ with_refusal self.old }
    {
        match self.end.end.send_as::<Push, R>(rt, &mut self.pass, item) {
            Ok(()) => true,
            Err(_) => {
                self.refused = true;
                false
            }
        }
    }
}

impl ItemReceiver {
    /// Spins for items like this from now on.
    pub(crate) fn spin_by(&mut self, spins: Spins)
        ensures { self.new ≡ self.old }
    {
        self.spins = WorkerSpins::by(spins);
    }

    /// Pops the item at the front, and waits while the channel is empty.
    pub fn pop<R: Wait>(&mut self, rt: &R) -> Result<Item, RecvError>
        ensures end { self.new.end ≡ self.old.end }
        ensures popped { MatchResult result (λ x. self.new.items ≡ self.old.items ++ x ∷ [])
            (λ _. self.new ≡ self.old) }
        ensures goes { IfOk result (λ x. Goes (items_end self.old.items) x) }
    {
        for _ in 0..self.spins.count() {
            match self.try_pop(rt) {
                Ok(item) => {
                    self.spins.found();
                    return Ok(item);
                }
                Err(TryRecvError::Disconnected) => return Err(RecvError),
                Err(TryRecvError::Empty) => thread::yield_now(),
            }
            if self.spins.count() == 0 {
                break;
            }
        }
        self.spins.missed();
        self.sleep(rt)
    }

    // Pops the item at the front, and sleeps while the channel is empty.
    fn sleep<R: Wait>(&mut self, rt: &R) -> Result<Item, RecvError>
        ensures end { self.new.end ≡ self.old.end }
        ensures popped { MatchResult result (λ x. self.new.items ≡ self.old.items ++ x ∷ [])
            (λ _. self.new ≡ self.old) }
        ensures goes { IfOk result (λ x. Goes (items_end self.old.items) x) }
    {
        self.end.end.recv_as::<Pop, R>(rt, &mut self.pass)
    }

    /// Pops the item at the front, if there is one.
    pub fn try_pop<R: Wait>(&mut self, rt: &R) -> Result<Item, TryRecvError>
        ensures end { self.new.end ≡ self.old.end }
        ensures popped { MatchResult result (λ x. self.new.items ≡ self.old.items ++ x ∷ [])
            (λ _. self.new ≡ self.old) }
        ensures goes { IfOk result (λ x. Goes (items_end self.old.items) x) }
    {
        self.end.end.try_recv_as::<Pop, R>(rt, &mut self.pass)
    }
}

// The two passes meet and part again.
fn compare_passes(
    end: &RuledSender<Item, View, InOrder>,
    mine: &mut Pass<Item, View>,
    theirs: &mut Pass<Item, View>,
)
    requires at { IsSeatAt (sends_on end.now) mine.old × IsSeatAt (sends_on end.now) theirs.old }
    requires views { (view mine.old ≡ Pushes (pushed_of (view mine.old)))
        × (view theirs.old ≡ Pops (popped_of (view theirs.old))) }
    ensures at { IsSeatAt (sends_on end.now) mine.new × IsSeatAt (sends_on end.now) theirs.new }
    ensures views { (view mine.new ≡ view mine.old) × (view theirs.new ≡ view theirs.old) }
    ensures order { (rest : List Pushed)
        × (popped_of (view theirs.old) ++ rest ≡ pushed_of (view mine.old)) }
{
    let moved = end.another::<Move>(theirs);
    end.absorb::<Whole>(mine, moved);
    end.learn_as::<All>(mine);
    *theirs = end.another::<Part>(mine);
}

/// Lets the two ends meet, once they are in one thread again. Then the popped items are known to be
/// a beginning of the pushed ones, and each item is where it may be.
pub fn compare(to: &mut ItemSender, from: &mut ItemReceiver)
    requires { AreOneChannel from.old.end to.old.end }
    ensures same { (to.new ≡ to.old) × (from.new ≡ from.old) }
    ensures order { (rest : List Pushed) × (from.new.items ++ rest ≡ to.new.items) }
    ensures numbered { AreNumbered to.new.items }
{
    compare_passes(&to.end.end, &mut to.pass, &mut from.pass);
}
