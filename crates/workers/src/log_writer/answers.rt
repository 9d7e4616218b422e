//! The answers that wait until their ticks are durable.
ghost use Rattle.std.specs.Prelude.{◌≡◌, ◌+◌, ◌<◌, ◌≤◌, ◌++◌, ◌∷◌, [], length, IfOk, IsTrue, ◌↔◌};
ghost use Rattle.std.specs.Prelude.{List, false};
ghost use Rattle.workers.specs.Posts.{Unposted};
ghost use Rattle.workers.specs.Answering.{AreLater, Posts};
ghost use Rattle.workers.specs.Logging.{IsDurable};

use super::holding::Holding;
use crate::post::Waiting;
use crate::reply_slot::LastPost;
use action_log::Receipt;
use circular_buffer::HeapCircularBuffer;
use disk_model::Disk;
use std::alloc::{AllocError, Global};
use std::marker::Model;
use std::snapshot::Snapshot;
use std::sync::Wait;

// The last tick that was answered, and the last one that a post answered. Only clauses read them.
#[derive(Drop)]
pub struct Given {
    answered: Snapshot<u64>,
    posted: LastPost,
}

impl Given {
    // Answers the next tick by a post.
    fn post<R: Wait, D: Disk + Drop>(
        &mut self,
        rt: &R,
        next: Waiting,
        receipt: Receipt,
        holding: &Holding<'_, D>,
    )
        requires next { next.number ≡ self.old.answered.value + 1 }
        requires durable { next.number ≤ receipt }
        requires held { IsTrue D.honest → IsDurable D.Disk holding.now next.number }
        ensures answered { self.new.answered.value ≡ next.number }
        ensures posted { self.new.posted.tick.value ≡ next.number }
    {
        self.answered = Snapshot::of(&next.number());
        next.post(rt, receipt, holding, &mut self.posted);
    }

    // Answers the next tick by a fault: it is lost.
    fn lose<R: Wait>(&mut self, rt: &R, next: Waiting)
        requires { next.number ≡ self.old.answered.value + 1 }
        ensures answered { self.new.answered.value ≡ next.number }
        ensures posted { self.new.posted ≡ self.old.posted }
    {
        self.answered = Snapshot::of(&next.number());
        next.lose(rt);
    }
}

/// The answers of the ticks that aren't durable yet, oldest first.
#[derive(Drop)]
pub struct Answers {
    waiting: HeapCircularBuffer<Waiting>,
    given: Given,
}

impl Model for Answers {
    ghost use Rattle.workers.specs.Answering.{Answering, AreNext};

    ghost Value = { Answering };

    ghost view = { λ a. record {
      waiting = a.waiting.items;
      room = a.waiting.capacity;
      answered = a.given.answered.value;
      posted = a.given.posted.tick.value;
    } };

    ghost invariant = { λ a. AreNext a.given.answered.value a.waiting.items };
}

impl Answers {
    /// No answer waits, and the ticks up to this one are answered.
    pub(crate) fn new(alloc: Global, room: usize, tick: u64) -> Result<Self, AllocError>
        ensures { IfOk result (λ a. a
            ≡ record { waiting = []; room = room; answered = tick; posted = tick }) }
    {
        Ok(Answers {
            waiting: HeapCircularBuffer::with_capacity(alloc, room)?,
            given: Given {
                answered: Snapshot::of(&tick),
                posted: LastPost::none_since(tick),
            },
        })
    }

    pub(crate) fn is_empty(&self) -> bool
        ensures { IsTrue result ↔ (self.now.waiting ≡ []) }
    {
        self.waiting.is_empty()
    }

    pub(crate) fn len(&self) -> usize
        ensures { result ≡ length self.now.waiting }
    {
        self.waiting.len()
    }

    /// Lets the answer of the next tick wait.
    pub(crate) fn push(&mut self, next: Waiting)
        requires next { next.number ≡ self.old.answered + length self.old.waiting + 1 }
        requires room { length self.old.waiting < self.old.room }
        ensures { self.new ≡ record self.old { waiting = self.old.waiting ++ next ∷ [] } }
    {
        let _ = self.waiting.try_push_back(next);
    }

    /// Posts each answer that the receipt makes durable, oldest first.
    pub(crate) fn post_all<R: Wait, D: Disk + Drop>(
        &mut self,
        rt: &R,
        receipt: Receipt,
        holding: &Holding<'_, D>,
    )
        requires held { IsTrue D.honest → IsDurable D.Disk holding.now receipt }
        ensures posts { Posts receipt self.old self.new }
        ensures others { AreLater receipt self.new.waiting }
    {
        while self.first_is_durable(receipt) {
            if let Some(next) = self.waiting.pop_front() {
                self.given.post(rt, next, receipt, holding);
            }
        }
    }

    /// Loses each answer, oldest first: the log is down.
    pub(crate) fn lose_all<R: Wait>(&mut self, rt: &R)
        ensures { self.new
            ≡ record self.old {
              waiting = [];
              answered = self.old.answered + length self.old.waiting;
            } }
    {
        while let Some(next) = self.waiting.pop_front() {
            self.given.lose(rt, next);
        }
    }

    /// Loses the answer of the next tick while no other waits: the log is down.
    pub(crate) fn lose<R: Wait>(&mut self, rt: &R, next: Waiting)
        requires none { self.old.waiting ≡ [] }
        requires next { next.number ≡ self.old.answered + 1 }
        ensures { self.new ≡ record self.old { answered = next.number } }
    {
        self.given.lose(rt, next);
    }

    fn first_is_durable(&self, receipt: Receipt) -> bool
        ensures first { IsTrue result → (first : Unposted) × (rest : List Unposted)
            × (self.now.waiting ≡ first ∷ rest) × (first.number ≤ receipt) }
        ensures others { result ≡ false → AreLater receipt self.now.waiting }
    {
        match self.waiting.front() {
            Some(first) => first.number() <= receipt.tick(),
            None => false,
        }
    }
}
