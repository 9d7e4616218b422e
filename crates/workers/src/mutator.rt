//! The worker that runs the batches.
ghost use Rattle.std.specs.Prelude.{◌≡◌, ◌++◌, ◌∷◌, [], ℕ, ◌≤◌, true, false, None, Err, Result};
ghost use Rattle.std.specs.Prelude.{MatchOption};
ghost use Rattle.world_actions.specs.declared.refusal.Refusal.{Refusal};
ghost use Rattle.world_ticks.specs.declared.tick.TheConstants.{TICK_MAX};
ghost use Rattle.shared_capture.specs.States.{HasFlags};
ghost use Rattle.shared_capture.specs.SignalWord.{with_number};
ghost use Rattle.workers.specs.declared.gate.Place.TheVariants.{Tick};
ghost use Rattle.workers.specs.declared.item.Item.TheVariants.{Start};
ghost use Rattle.workers.specs.Gates.{MayGo, MayStick};
ghost use Rattle.workers.specs.Posts.{AskedBatch};
ghost use Rattle.workers.specs.Mutating.{IsLastRound, OpensNone, OwesSwitch, MarksIfDue, IsTaken};
ghost use Rattle.workers.specs.Mutating.{RunsBatch, Plays, Pays, Turns, StopsPlay};

use crate::ask_channel::AskReceiver;
use crate::batch_run::play;
use crate::gate::{Gate, Place, passes};
use crate::item::{Ended, Item, Owed};
use crate::item_channel::ItemSender;
use crate::post::Ask;
use crate::reply_slot::Refused;
use crossbeam_channel::Sender;
use shared_capture::{Front, Method, SignalIn};
use std::alloc::Global;
use std::marker::Model;
use std::snapshot::Snapshot;
use std::sync::Wait;
use world_actions::Refusal;

/// Takes the sessions' batches, runs them on the front, and pushes their ticks and the switches
/// of the rounds that it opens. Contracts see that the pushed items state what the front did.
/// Each answer is that of its batch at its place. A session's batches are taken in its order,
/// none left out, and each is played at most once. Each round has the words after the ticks
/// pushed before its switch.
#[derive(Drop)]
pub struct Mutator<M: Method, G: Gate + Drop> {
    gate: G,
    alloc: Global,
    asks: AskReceiver,
    pub(crate) front: Front<M>,
    pub(crate) to: ItemSender,
    opening: Snapshot<Front<M>>,
    /// Rung after each switch.
    bell: Option<Sender<()>>,
    /// Holds 1 once the log is down.
    pub(crate) heard: SignalIn,
    ended: u64,
    since: u64,
    every: u64,
    /// True while an item is owed. True for good once a push was refused or the gate
    /// holds every batch.
    stopped: bool,
    /// The item of the front's last act, if it isn't pushed yet.
    owed: Option<Owed>,
}

impl<M: Method, G: Gate + Drop> Model for Mutator<M, G> {
    ghost use Rattle.workers.specs.Mutating.{IsLastRound, Playing, IsMutator};

    ghost Value = { Playing };

    ghost use Rattle.workers.specs.PlayingView.{playing_of};

    ghost view = { playing_of };

    ghost invariant = { λ m. IsMutator (playing_of m) };
}

impl<M: Method, G: Gate + Drop> Mutator<M, G> {
    /// A mutator of a world whose start has ended, at this tick. A round is due after every `every`
    /// ticks, and the bell is rung once it is open. It takes each end that it owns as a parameter.
    pub fn new(
        gate: G,
        alloc: Global,
        asks: AskReceiver,
        front: Front<M>,
        to: ItemSender,
        tick: u64,
        every: u32,
        bell: Sender<()>,
        heard: SignalIn,
    ) -> Self
        requires none { front.rounds ≡ [] }
        requires flags { HasFlags front }
        requires start { to.items ≡ Start tick ∷ [] }
        requires pushes { to.refused ≡ false }
        requires numbered { tick ≤ TICK_MAX }
        ensures { result ≡ record {
          asks = asks;
          front = front;
          to = to;
          heard = heard;
          opening = front.live;
          ended = tick;
          since = 0;
          every = every;
          stopped = false;
          owed = None;
        } }
    {
        let opening = Snapshot::of(&front);
        Mutator {
            gate,
            alloc,
            asks,
            front,
            to,
            opening,
            bell: Some(bell),
            heard,
            ended: tick,
            since: 0,
            every: u64::from(every),
            stopped: false,
            owed: None,
        }
    }

    /// How many ticks have ended.
    pub fn ended(&self) -> u64
        ensures { result ≡ self.now.ended }
    {
        self.ended
    }

    /// How many of them have ended since the last mark or start. With 65,536 of them each batch is
    /// refused with 6, until a round opens.
    pub fn since(&self) -> u64
        ensures { result ≡ self.now.since }
    {
        self.since
    }

    /// Waits for the next batch, runs it and pushes its tick. Before and after it, opens a round if
    /// one is due and none is open. A batch that isn't run is answered here, by the refusal that is
    /// returned. Returns `None` if no session is left that could ask.
    pub fn turn<R: Wait>(&mut self, rt: &R) -> Option<Result<(), Refused>>
        ensures { MatchOption result (self.new ≡ self.old) (λ given. (asked : AskedBatch)
            × Turns (MayGo G.answers Tick) (MayStick G.answers Tick)
            self.old asked given self.new) }
    {
        let ask = self.asks.next(rt)?;
        self.mark_if_due(rt);
        let ran = self.owe_tick(rt, ask);
        if ran.is_ok() {
            self.pay(rt);
        }
        self.mark_if_due(rt);
        Some(ran)
    }

    /// Runs the next batch, if there is one, and owes its tick with the answer, or answers
    /// with the refusal.
    pub fn owe_next_tick<R: Wait>(&mut self, rt: &R) -> Option<Result<(), Refused>>
        ensures { MatchOption result (self.new ≡ self.old) (λ given. (asked : AskedBatch)
            × Plays (MayGo G.answers Tick) (MayStick G.answers Tick)
            self.old asked given self.new) }
    {
        let ask = self.asks.try_next(rt)?;
        Some(self.owe_tick(rt, ask))
    }

    /// Opens a round if one is due, and owes its switch. Returns true if it did.
    pub fn owe_due_switch(&mut self) -> bool
        ensures opened { result ≡ true → OwesSwitch self.old self.new }
        ensures none { result ≡ false → OpensNone self.old self.new }
    {
        if self.stopped || self.since == 0 || self.since < self.every {
            return false;
        }
        if self.front.mark(self.ended).is_err() {
            return false;
        }
        self.stopped = true;
        self.owed = Some(Owed::Switch(self.ended));
        true
    }

    // Opens a round if one is due, and pushes its switch directly after.
    fn mark_if_due<R: Wait>(&mut self, rt: &R)
        ensures { MarksIfDue self.old self.new }
    {
        if self.owe_due_switch() {
            self.pay(rt);
        }
    }

    // Runs the batch that was taken last, and owes its tick with the answer, or answers
    // with the refusal.
    fn owe_tick<R: Wait>(&mut self, rt: &R, ask: Ask) -> Result<(), Refused>
        requires { IsTaken self.old ask }
        ensures { RunsBatch (MayGo G.answers Tick) (MayStick G.answers Tick)
            self.old ask result self.new }
    {
        if self.stopped {
            return refuse(rt, ask, Refusal::LogDown);
        }
        if !passes(rt, &mut self.gate, Place::Tick) {
            self.stopped = true;
            return refuse(rt, ask, Refusal::LogDown);
        }
        if hears_down(&mut self.heard) {
            return refuse(rt, ask, Refusal::LogDown);
        }
        let mut ask = ask;
        let buffer = ask.take_buffer(self.alloc);
        let number = self.ended;
        let played = play(
            self.alloc,
            buffer,
            &mut self.front,
            ask.batch(),
            number,
            self.since,
        );
        let (tick, text) = match played {
            Ok(played) => played,
            Err(reason) => return refuse(rt, ask, reason),
        };
        let number = number + 1;
        let answer = ask.wait(number, text);
        self.stopped = true;
        self.owed = Some(Owed::Tick(Ended { tick, answer }));
        Ok(())
    }

    /// Pushes the item that it owes, if it owes one. If the push is refused, the mutator has
    /// stopped for good.
    pub fn pay<R: Wait>(&mut self, rt: &R)
        ensures { Pays self.old self.new }
    {
        let Some(owed) = self.owed.take() else {
            return;
        };
        match owed {
            Owed::Tick(ended) => {
                if self.to.push(rt, Item::Tick(ended)) {
                    self.ended += 1;
                    self.since += 1;
                    self.stopped = false;
                }
            }
            Owed::Switch(number) => {
                if self.to.push(rt, Item::Switch(number)) {
                    self.since = 0;
                    self.stopped = false;
                    ring(rt, &self.bell, &self.front, number);
                }
            }
        }
    }

    /// Reports to the log writer and the checkpointer that no more comes.
    pub fn stop<R: Wait>(&mut self, rt: &R)
        ensures { StopsPlay self.old self.new }
    {
        self.bell = None;
        if !self.to.push(rt, Item::Stop) {
            self.stopped = true;
        }
    }
}

// Rings the bell: the round of this tick is open.
fn ring<R: Wait, M: Method>(rt: &R, bell: &Option<Sender<()>>, _front: &Front<M>, _tick: u64)
    requires { IsLastRound _front.now _tick }
{
    if let Some(bell) = bell {
        let _ = bell.try_send(rt, ());
    }
}

// True if the log writer has reported that the log is down.
fn hears_down(heard: &mut SignalIn) -> bool
    ensures up { result ≡ false → heard.new ≡ with_number heard.old 0 }
    ensures down { result ≡ true
        → (flag : ℕ) × (1 ≤ flag) × (heard.new ≡ with_number heard.old flag) }
{
    heard.latest() != 0
}

// Answers a batch that isn't run.
fn refuse<R: Wait>(rt: &R, ask: Ask, reason: Refusal) -> Result<(), Refused>
    ensures { result ≡ Err (record { session = ask.session; ask = ask.ask; reason = reason }) }
{
    Err(ask.refuse(rt, reason))
}
