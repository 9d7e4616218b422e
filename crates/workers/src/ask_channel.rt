//! The way of the batches from the sessions to the mutator.
ghost use Rattle.std.specs.Prelude.{◌≡◌, ◌+◌, ◌++◌, ◌∷◌, [], IfOk, IfSome, IsNone, MatchOption};
ghost use Rattle.std.specs.Prelude.{MatchResult};
ghost use Rattle.crossbeam_channel.specs.Ends.{sends_on, ruled_capacity};
ghost use Rattle.workers.specs.AskOrder.{AreNumbered};
ghost use Rattle.workers.specs.AskChannel.{AreOneAskChannel, with_ask};

use crate::ask_rule::{AskView, BeginSession, InTurn, PartEnds, TakeAsk};
use crate::asker::Asker;
use crate::post::Ask;
use crate::spins::{Spins, WorkerSpins};
use crossbeam_channel::{Pass, RecvError, RuledReceiver, RuledSender, TryRecvError, bounded_with};
use std::alloc::{AllocError, Global};
use std::marker::Model;
use std::sync::Wait;
use std::thread;

// How many batches may wait for the mutator. A session has one at a time. If there is no room, the
// session sleeps and the mutator has to wake it, which takes longer than a batch.
const ASKS: usize = 1_024;

#[derive(Drop)]
pub struct AskSendEnd {
    pub(crate) end: RuledSender<Ask, AskView, InTurn>,
}

#[derive(Drop)]
pub struct AskReceiveEnd {
    end: RuledReceiver<Ask, AskView, InTurn>,
}

/// The sessions' end of the channel to the mutator. It gives each session its number:
/// 0, 1 and so on.
#[derive(Drop)]
pub struct AskChannel {
    end: AskSendEnd,
    pass: Pass<Ask, AskView>,
    next: u64,
}

impl Model for AskChannel {
    ghost use Rattle.workers.specs.AskChannel.{Numbering, IsNumbering};

    ghost Value = { Numbering };

    ghost view = { λ c. record { end = c.end; next = c.next } };

    ghost invariant = { λ c. IsNumbering c.end c.pass c.next };
}

/// The mutator's end. Contracts see the asks that it took.
#[derive(Drop)]
pub struct AskReceiver {
    end: AskReceiveEnd,
    pass: Pass<Ask, AskView>,
    /// How often it spins for an ask before it sleeps.
    spins: WorkerSpins,
}

impl Model for AskReceiver {
    ghost use Rattle.crossbeam_channel.specs.Claims.{view as seen};
    ghost use Rattle.workers.specs.AskOrder.{taken_of};
    ghost use Rattle.workers.specs.AskChannel.{Taking, IsTaking};

    ghost Value = { Taking };

    ghost view = { λ r. record { end = r.end; taken = taken_of (seen r.pass) } };

    ghost invariant = { λ r. IsTaking r.end r.pass };
}

impl AskChannel {
    /// A channel without a session, and the mutator's end of it.
    pub fn open(alloc: Global) -> Result<(AskChannel, AskReceiver), AllocError>
        ensures channel { IfOk result (λ ends. AreOneAskChannel ends.1.end ends.0.end) }
        ensures none { IfOk result (λ ends. (ends.0.next ≡ 0) × (ends.1.taken ≡ [])) }
        ensures room { IfOk result (λ ends. ruled_capacity (sends_on ends.0.end.end) ≡ 1024) }
    {
        let (to, from, mut pass) = bounded_with::<Ask, AskView, InTurn, Global>(alloc, ASKS)?;
        let other = to.another::<PartEnds>(&mut pass);
        Ok((
            AskChannel {
                end: AskSendEnd { end: to },
                pass,
                next: 0,
            },
            AskReceiver {
                end: AskReceiveEnd { end: from },
                pass: other,
                spins: WorkerSpins::none(),
            },
        ))
    }

    /// The asker of the next session. `None` if there is no memory, or no number of
    /// 64 bits is left.
    pub fn session(&mut self) -> Option<Asker>
        ensures number { IfSome result (λ asker. asker
            ≡ record { session = self.old.next; asked = 0; requests = []; posted = 0 }) }
        ensures counts { IfSome result (λ asker. self.new
            ≡ record self.old { next = self.old.next + 1 }) }
        ensures unchanged { IsNone result → self.new ≡ self.old }
    {
        let next = self.next.checked_add(1)?;
        let Ok(end) = self.end.end.try_clone() else {
            return None;
        };
        let pass = self.end.end.another::<BeginSession>(&mut self.pass);
        let asker = Asker::begin(AskSendEnd { end }, pass, self.next);
        self.next = next;
        Some(asker)
    }
}

impl AskReceiver {
    /// Spins for asks like this from now on.
    pub fn spin_by(&mut self, spins: Spins)
        ensures { self.new ≡ self.old }
    {
        self.spins = WorkerSpins::by(spins);
    }

    /// Waits for the next ask. Returns `None` if no session is left that could ask.
    pub fn next<R: Wait>(&mut self, rt: &R) -> Option<Ask>
        ensures taken { MatchOption result (self.new ≡ self.old)
            (λ ask. self.new ≡ with_ask self.old ask) }
        ensures numbered { IfSome result (λ ask. AreNumbered (self.old.taken ++ ask ∷ [])) }
    {
        for _ in 0..self.spins.count() {
            match self.try_take(rt) {
                Ok(ask) => {
                    self.spins.found();
                    return Some(ask);
                }
                Err(TryRecvError::Disconnected) => return None,
                Err(TryRecvError::Empty) => thread::yield_now(),
            }
            if self.spins.count() == 0 {
                break;
            }
        }
        self.spins.missed();
        self.sleep(rt).ok()
    }

    /// Takes the next ask, if there is one.
    pub fn try_next<R: Wait>(&mut self, rt: &R) -> Option<Ask>
        ensures taken { MatchOption result (self.new ≡ self.old)
            (λ ask. self.new ≡ with_ask self.old ask) }
        ensures numbered { IfSome result (λ ask. AreNumbered (self.old.taken ++ ask ∷ [])) }
    {
        self.try_take(rt).ok()
    }

    // Takes the next ask, and sleeps while there is none.
    fn sleep<R: Wait>(&mut self, rt: &R) -> Result<Ask, RecvError>
        ensures taken { MatchResult result (λ ask. self.new ≡ with_ask self.old ask)
            (λ _. self.new ≡ self.old) }
        ensures numbered { IfOk result (λ ask. AreNumbered (self.old.taken ++ ask ∷ [])) }
    {
        self.end.end.recv_as::<TakeAsk, R>(rt, &mut self.pass)
    }

    // Takes the next ask, or says why there is none.
    fn try_take<R: Wait>(&mut self, rt: &R) -> Result<Ask, TryRecvError>
        ensures taken { MatchResult result (λ ask. self.new ≡ with_ask self.old ask)
            (λ _. self.new ≡ self.old) }
        ensures numbered { IfOk result (λ ask. AreNumbered (self.old.taken ++ ask ∷ [])) }
    {
        self.end.end.try_recv_as::<TakeAsk, R>(rt, &mut self.pass)
    }
}
