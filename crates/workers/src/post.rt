//! A batch on its way: asked for, waiting for its tick to be durable, and posted.
ghost use Rattle.std.specs.Prelude.{◌≡◌, ◌≤◌, ◌↔◌, true, IsTrue};
ghost use Rattle.workers.specs.Posts.{IsAnswer, IsFaultOfAsk, reason_of};
ghost use Rattle.workers.specs.Logging.{IsDurable};

use crate::log_writer::Holding;
use crate::reply_slot::{LastPost, PlayedSender, Refused, ReplySender};
use action_log::Receipt;
use batches::{Batch, Request};
use disk_model::Disk;
use std::alloc::Global;
use std::marker::Model;
use std::mem;
use std::sync::Wait;
use world_actions::Refusal;

/// A batch of a session. Contracts see the session's number, which of its asks this is,
/// and the requests.
#[derive(Drop)]
pub struct SessionBatch {
    session: u64,
    ask: u64,
    batch: Batch,
}

impl Model for SessionBatch {
    ghost use Rattle.workers.specs.Posts.{AskedBatch};

    ghost Value = { AskedBatch };

    ghost view = { λ asked. record {
      session = asked.session;
      ask = asked.ask;
      requests = asked.batch.list;
    } };
}

impl SessionBatch {
    fn batch(&self) -> &Batch
        ensures { result.now.list ≡ self.now.requests }
    {
        &self.batch
    }

    // True if it is the ask of this number of this session, for this batch.
    fn is_ask(&self, session: u64, ask: u64, batch: &Batch) -> bool
        ensures { IsTrue result
            ↔ (self.now ≡ record { session = session; ask = ask; requests = batch.now.list }) }
    {
        if self.session != session || self.ask != ask {
            return false;
        }
        are_same(self.batch.requests(), batch.requests())
    }

    // Why this ask isn't run.
    fn unplayed(&self, reason: Refusal) -> Unplayed
        ensures { result
            ≡ record { session = self.now.session; ask = self.now.ask; reason = reason } }
    {
        Unplayed {
            session: self.session,
            ask: self.ask,
            reason,
        }
    }
}

// True if two batches ask for the same.
fn are_same(xs: &[Request], ys: &[Request]) -> bool
    ensures { IsTrue result ↔ (xs.now ≡ ys.now) }
{
    xs == ys
}

/// A batch of a session. Only it knows where its answer goes, and only an `Asker` makes
/// one, as it sends it.
#[derive(Drop)]
pub struct Ask {
    asked: SessionBatch,
    buffer: Vec<u8>,
    to: ReplySender,
}

impl Model for Ask {
    ghost use Rattle.workers.specs.Posts.{AskedBatch};

    ghost Value = { AskedBatch };

    ghost view = { λ ask. ask.asked };
}

impl Ask {
    /// The ask of this number of a session, for the answer of this batch, which is made in this
    /// buffer and goes to this sender. Batch and buffer come back with the post.
    pub(crate) fn new(
        session: u64,
        ask: u64,
        batch: Batch,
        buffer: Vec<u8>,
        to: ReplySender,
    ) -> Self
        ensures { result ≡ record { session = session; ask = ask; requests = batch.list } }
    {
        let asked = SessionBatch {
            session,
            ask,
            batch,
        };
        Ask { asked, buffer, to }
    }

    pub fn batch(&self) -> &Batch
        ensures { result.now.list ≡ self.now.requests }
    {
        self.asked.batch()
    }

    /// Takes the buffer for its answer. A second call returns an empty one.
    pub(crate) fn take_buffer(&mut self, alloc: Global) -> Vec<u8>
        ensures { self.new ≡ self.old }
    {
        mem::replace(&mut self.buffer, Vec::new(alloc))
    }

    /// Turns the ask into its answer, which waits for the tick of this number.
    pub(crate) fn wait(self, number: u64, text: Vec<u8>) -> Waiting
        requires answers { IsAnswer self text.items number }
        ensures { result ≡ record { number = number; asked = self; text = text.items } }
    {
        Waiting {
            number,
            asked: self.asked,
            text,
            to: self.to.played(),
        }
    }

    /// Reports to its session why it isn't run. No tick is of it, since only an ask has a tick.
    pub fn refuse<R: Wait>(self, rt: &R, reason: Refusal) -> Refused
        ensures { result ≡ record { session = self.session; ask = self.ask; reason = reason } }
    {
        self.to.refuse(rt, self.asked.unplayed(reason))
    }
}

/// The answer of a batch whose tick is durable. Contracts see its tick, its batch, its text, and
/// the number of the receipt that it was made with.
#[derive(Drop)]
pub struct Post {
    tick: u64,
    asked: SessionBatch,
    text: Vec<u8>,
    receipt: Receipt,
}

impl Model for Post {
    ghost use Rattle.workers.specs.Posts.{Posted, IsPost};

    ghost Value = { Posted };

    ghost view = { λ post. record {
      tick = post.tick;
      asked = post.asked;
      text = post.text.items;
      receipt = post.receipt;
    } };

    ghost invariant = { λ post.
        IsPost (record {
          tick = post.tick;
          asked = post.asked;
          text = post.text.items;
          receipt = post.receipt;
        }) };
}

impl Post {
    ghost use Rattle.std.specs.Prelude.{◌≡◌, ◌≤◌, ◌↔◌, IsTrue};

    /// The number of the tick.
    pub fn tick(&self) -> u64
        ensures tick { result ≡ self.now.tick }
        ensures durable { result ≤ self.now.receipt }
    {
        self.tick
    }

    /// True if it answers the ask of this number of this session, which was for this batch.
    pub fn is_for(&self, session: u64, ask: u64, batch: &Batch) -> bool
        ensures { IsTrue result ↔ (self.now.asked
            ≡ record { session = session; ask = ask; requests = batch.now.list }) }
    {
        self.asked.is_ask(session, ask, batch)
    }

    /// The line that answers the batch, with its newline, and the batch.
    pub fn into_answer(self) -> (Vec<u8>, Batch)
        ensures text { result.0.items ≡ self.text }
        ensures batch { result.1.list ≡ self.asked.requests }
        ensures durable { self.tick ≤ self.receipt }
        ensures answers { IsAnswer self.asked self.text self.tick }
    {
        (self.text, self.asked.batch)
    }
}

/// Why an ask isn't run. Only `Ask::refuse` makes one, which uses the ask up. Contracts see the
/// session, which of its asks it was, and the reason.
#[derive(Clone, Copy, Debug, PartialEq, Eq)]
pub struct Unplayed {
    session: u64,
    ask: u64,
    reason: Refusal,
}

impl Unplayed {
    // True if it is of the ask of this number of this session.
    fn is_of(&self, session: u64, ask: u64) -> bool
        ensures { IsTrue result ↔ ((self.now.session ≡ session) × (self.now.ask ≡ ask)) }
    {
        self.session == session && self.ask == ask
    }

    pub fn reason(&self) -> Refusal
        ensures { result ≡ self.now.reason }
    {
        self.reason
    }
}

/// Why an ask has no post.
#[derive(Clone, Copy, Debug, PartialEq, Eq)]
pub enum Fault {
    /// It wasn't run: no tick is of it.
    Unplayed(Unplayed),
    /// It may have been run: the log is down, or no reply came.
    Lost,
}

impl Fault {
    /// True if it may be of the ask of this number of this session.
    pub(crate) fn is_of(&self, session: u64, ask: u64) -> bool
        ensures { IsTrue result ↔ IsFaultOfAsk session ask self.now }
    {
        match self {
            Fault::Unplayed(unplayed) => unplayed.is_of(session, ask),
            Fault::Lost => true,
        }
    }

    /// The reason to print. A lost ask has that of a log that is down.
    pub fn reason(&self) -> Refusal
        ensures { result ≡ reason_of self.now }
    {
        match self {
            Fault::Unplayed(unplayed) => unplayed.reason(),
            Fault::Lost => Refusal::LogDown,
        }
    }
}

/// The reply to a session for a batch.
#[derive(Drop)]
pub enum Reply {
    Post(Post),
    Fault(Fault),
}

/// The answer of a tick that isn't durable yet. Only it knows the session that it goes to.
#[derive(Drop)]
pub struct Waiting {
    number: u64,
    asked: SessionBatch,
    text: Vec<u8>,
    to: PlayedSender,
}

impl Model for Waiting {
    ghost use Rattle.workers.specs.Posts.{Unposted, IsAnswer};

    ghost Value = { Unposted };

    ghost view = { λ answer. record {
      number = answer.number;
      asked = answer.asked;
      text = answer.text.items;
    } };

    ghost invariant = { λ answer. IsAnswer answer.asked answer.text.items answer.number };
}

impl Waiting {
    ghost use Rattle.std.specs.Prelude.{◌≡◌, ◌≤◌};

    /// The number of the tick.
    pub(crate) fn number(&self) -> u64
        ensures { result ≡ self.now.number }
    {
        self.number
    }

    /// Posts it to its session. Its tick is durable in what the log writer holds at that moment.
    pub(crate) fn post<R: Wait, D: Disk + Drop>(
        self,
        rt: &R,
        receipt: Receipt,
        _holding: &Holding<'_, D>,
        last: &mut LastPost,
    )
        requires durable { self.number ≤ receipt }
        requires held { IsTrue D.honest → IsDurable D.Disk _holding.now self.number }
        ensures { last.new.tick.value ≡ self.number }
    {
        let (post, to) = self.into_post(receipt);
        to.post(rt, post, last);
    }

    /// Reports to its session that it is lost: the log is down.
    pub(crate) fn lose<R: Wait>(self, rt: &R) {
        self.to.lose(rt);
    }

    // Turns it into its post, with the sender to its session.
    fn into_post(self, receipt: Receipt) -> (Post, PlayedSender)
        requires durable { self.number ≤ receipt }
        ensures post { result.0 ≡ record {
          tick = self.number;
          asked = self.asked;
          text = self.text;
          receipt = receipt;
        } }
    {
        let post = Post {
            tick: self.number,
            asked: self.asked,
            text: self.text,
            receipt,
        };
        (post, self.to)
    }
}
