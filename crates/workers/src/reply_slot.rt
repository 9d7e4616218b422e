//! The slot for the replies to a session, which come one at a time.
ghost use Rattle.std.specs.Prelude.{◌≡◌, ⊤};

use crate::post::{Fault, Post, Reply, Unplayed};
use std::alloc::{AllocError, Global};
use std::hint::spin_loop;
use std::marker::Model;
use std::snapshot::Snapshot;
use std::sync::atomic::{AtomicU64, Ordering};
use std::sync::{Arc, Mutex, Wait};
use world_actions::Refusal;

/// Nothing has come.
const EMPTY: u64 = 0;

/// Nothing has come, and the session sleeps.
const ASLEEP: u64 = 1;

/// The sender is gone. Its reply is there, if it sent one.
const SENT: u64 = 2;

// A reply, once it has come, and the state of its way.
#[derive(Drop)]
struct Slot {
    state: AtomicU64,
    reply: Mutex<Option<Reply>>,
}

/// The session's end while no reply is on its way. It is empty.
#[derive(Drop)]
pub struct ReplySlot {
    slot: Arc<Slot, Global>,
}

/// The session's end while its sender is out.
#[derive(Drop)]
pub struct AwaitedReply {
    slot: Arc<Slot, Global>,
}

// The other end. If it is dropped unused, the session finds that no reply comes.
struct SendEnd {
    slot: Arc<Slot, Global>,
}

/// The end that goes with an ask. It can say why the ask isn't run, and nothing else.
#[derive(Drop)]
pub struct ReplySender {
    end: SendEnd,
}

/// The end that goes with a batch that was run. It can post its answer, or say that it is lost.
#[derive(Drop)]
pub struct PlayedSender {
    end: SendEnd,
}

/// Shows that a refusal was sent to its session: only `ReplySender::refuse` makes one. Contracts
/// see the refusal.
#[derive(Drop)]
pub struct Refused {
    unplayed: Unplayed,
}

impl Model for Refused {
    ghost use Rattle.workers.specs.declared.post.Unplayed.{Unplayed};

    ghost Value = { Unplayed };

    ghost view = { λ refused. refused.unplayed };
}

impl Refused {
    /// The reason that was sent.
    pub fn reason(&self) -> Refusal
        ensures { result ≡ self.now.reason }
    {
        self.unplayed.reason()
    }
}

/// The tick of the last post, or the one that the ticks began after: only a post raises it. Only
/// clauses read it.
#[derive(Drop)]
pub(crate) struct LastPost {
    tick: Snapshot<u64>,
}

impl LastPost {
    /// No post since this tick.
    pub(crate) fn none_since(tick: u64) -> Self
        ensures { result.tick.value ≡ tick }
    {
        LastPost {
            tick: Snapshot::of(&tick),
        }
    }
}

// Clauses see nothing of an end. The type of a reply carries its promise.
impl Model for ReplySlot {
    ghost Value = { ⊤ };

    ghost view = { λ _. tt };
}

impl Model for AwaitedReply {
    ghost Value = { ⊤ };

    ghost view = { λ _. tt };
}

impl Model for ReplySender {
    ghost Value = { ⊤ };

    ghost view = { λ _. tt };
}

impl Model for PlayedSender {
    ghost Value = { ⊤ };

    ghost view = { λ _. tt };
}

impl ReplySlot {
    /// An empty slot. Only this call takes memory.
    pub fn new(alloc: Global) -> Result<Self, AllocError> {
        let slot = Slot {
            state: AtomicU64::new(EMPTY),
            reply: Mutex::new(None),
        };
        Ok(ReplySlot {
            slot: Arc::new(alloc, slot)?,
        })
    }

    /// Hands out the sender of the next reply. The slot is given back once that reply was awaited,
    /// so there is one sender at a time.
    pub fn ask(self) -> Result<(AwaitedReply, ReplySender), AllocError> {
        let ReplySlot { slot } = self;
        let end = SendEnd {
            slot: Arc::try_clone(&slot)?,
        };
        Ok((AwaitedReply { slot }, ReplySender { end }))
    }
}

impl AwaitedReply {
    /// True if the sender is gone, so that there is no more to wait for.
    pub fn is_sent(&self) -> bool {
        self.slot.state.load(Ordering::SeqCst) == SENT
    }

    /// Spins for the reply up to `spins` times, and then sleeps until the sender is gone. Returns
    /// `None` if the sender was dropped unused, and the slot, which is empty again.
    pub fn wait<R: Wait>(self, rt: &R, spins: u32) -> (Option<Reply>, ReplySlot) {
        if !self.sees_sent(spins) {
            self.sleep(rt);
        }
        let AwaitedReply { slot } = self;
        let reply = slot.reply.lock(rt).take();
        slot.state.store(EMPTY, Ordering::SeqCst);
        (reply, ReplySlot { slot })
    }

    // Checks up to `spins` times if the sender is gone.
    fn sees_sent(&self, spins: u32) -> bool {
        for _ in 0..spins {
            if self.is_sent() {
                return true;
            }
            spin_loop();
        }
        false
    }

    // Sleeps until the sender is gone.
    fn sleep<R: Wait>(&self, rt: &R) {
        let state = &self.slot.state;
        let _ = state.compare_exchange(EMPTY, ASLEEP, Ordering::SeqCst, Ordering::SeqCst);
        for _ in rt.forever() {
            if self.is_sent() {
                return;
            }
            state.park(rt, ASLEEP as u32);
        }
        unreachable!()
    }
}

impl ReplySender {
    /// Reports why the ask isn't run, and wakes its session.
    pub(crate) fn refuse<R: Wait>(self, rt: &R, unplayed: Unplayed) -> Refused
        ensures { result ≡ unplayed }
    {
        self.end.send(rt, Reply::Fault(Fault::Unplayed(unplayed)));
        Refused { unplayed }
    }

    /// The sender of a batch that was run.
    pub(crate) fn played(self) -> PlayedSender {
        PlayedSender { end: self.end }
    }
}

impl PlayedSender {
    /// Posts the answer, and wakes its session.
    pub(crate) fn post<R: Wait>(self, rt: &R, post: Post, last: &mut LastPost)
        ensures { last.new.tick.value ≡ post.tick }
    {
        last.tick = Snapshot::of(&post.tick());
        self.end.send(rt, Reply::Post(post));
    }

    /// Reports that the answer is lost, and wakes its session.
    pub(crate) fn lose<R: Wait>(self, rt: &R) {
        self.end.send(rt, Reply::Fault(Fault::Lost));
    }
}

impl SendEnd {
    // Sends the reply, and wakes its session.
    fn send<R: Wait>(self, rt: &R, reply: Reply) {
        *self.slot.reply.lock(rt) = Some(reply);
    }
}

impl Drop for SendEnd {
    fn drop(self) {
        let SendEnd { slot } = self;
        if slot.state.swap(SENT, Ordering::SeqCst) == ASLEEP {
            slot.state.wake_one();
        }
    }
}
