//! A session's end of the channel to the mutator.
ghost use Rattle.std.specs.Prelude.{◌≡◌, ◌+◌, [], IfOk, IfErr, OnOk, Ok, Err, Some, None};
ghost use Rattle.crossbeam_channel.specs.Claims.{view, IsSeatAt};
ghost use Rattle.crossbeam_channel.specs.Ends.{sends_on};
ghost use Rattle.workers.specs.declared.ask_rule.AskView.TheVariants.{Sends};
ghost use Rattle.workers.specs.Posts.{Posted};
ghost use Rattle.workers.specs.Asking.{IsAsked, IsUnsent, IsNewPost, IsFaultOf};

use crate::ask_channel::AskSendEnd;
use crate::ask_rule::{AskView, SendAsk};
use crate::post::{Ask, Fault, Post, Reply};
use crate::reply_slot::{AwaitedReply, ReplySender, ReplySlot};
use batches::Batch;
use crossbeam_channel::Pass;
use std::marker::Model;
use std::sync::Wait;
use world_actions::Refusal;

/// A session's end of the channel. It numbers the session's asks: 1, 2 and so on.
#[derive(Drop)]
pub struct Asker {
    session: u64,
    asked: u64,
    /// The tick of its last post, or 0.
    posted: u64,
    end: AskSendEnd,
    pass: Pass<Ask, AskView>,
}

impl Model for Asker {
    ghost use Rattle.crossbeam_channel.specs.Claims.{view as seen};
    ghost use Rattle.workers.specs.AskOrder.{last_requests};
    ghost use Rattle.workers.specs.Asking.{AskerState};
    ghost use Rattle.workers.specs.AskChannel.{IsSession};

    ghost Value = { AskerState };

    ghost view = { λ a. record {
      session = a.session;
      asked = a.asked;
      requests = last_requests (seen a.pass);
      posted = a.posted;
    } };

    ghost invariant = { λ a. IsSession a.end a.pass a.session a.asked };
}

impl Asker {
    // A session that has asked for nothing, on this end. The pass is of this session, and no
    // other has its number.
    pub(crate) fn begin(end: AskSendEnd, pass: Pass<Ask, AskView>, session: u64) -> Self
        requires at { IsSeatAt (sends_on end.end) pass }
        requires own { view pass ≡ Sends session 0 [] }
        ensures { result ≡ record { session = session; asked = 0; requests = []; posted = 0 } }
    {
        Asker {
            session,
            asked: 0,
            posted: 0,
            end,
            pass,
        }
    }

    /// Sends this batch to the mutator, and waits for room if there is none. Its answer is made in
    /// this buffer, and its reply goes to this sender. Batch and buffer come back with the post. An
    /// ask that isn't sent leaves its number to the next one.
    pub fn send<R: Wait>(
        &mut self,
        rt: &R,
        batch: Batch,
        buffer: Vec<u8>,
        to: ReplySender,
    ) -> Result<(), Refusal>
        ensures sent { OnOk result (IsAsked self.old batch.list self.new) }
        ensures unsent { IfErr result (λ refusal.
            IsUnsent self.old refusal × (self.new ≡ self.old)) }
    {
        let Some(number) = self.asked.checked_add(1) else {
            return Err(Refusal::TicksEnded);
        };
        let ask = Ask::new(self.session, number, batch, buffer, to);
        match self.end.end.send_as::<SendAsk, R>(rt, &mut self.pass, ask) {
            Ok(()) => {
                self.asked = number;
                Ok(())
            }
            Err(_) => Err(Refusal::LogDown),
        }
    }

    /// Waits for the reply to the last ask, which was for this batch. It spins for the reply
    /// `spins` times before it sleeps. A reply to another ask counts as none.
    pub fn wait<R: Wait>(
        &mut self,
        rt: &R,
        batch: &Batch,
        awaited: AwaitedReply,
        spins: u32,
    ) -> (Result<Post, Fault>, ReplySlot)
        ensures post { IfOk result.0 (λ post. IsNewPost self.old batch.now.list post
            × (self.new ≡ record self.old { posted = post.tick })) }
        ensures fault { IfErr result.0 (λ fault. IsFaultOf self.old fault × (self.new ≡ self.old)) }
    {
        let (reply, slot) = awaited.wait(rt, spins);
        (self.heed(batch, reply), slot)
    }

    // Judges the reply to the last ask, which was for this batch.
    fn heed(&mut self, batch: &Batch, reply: Option<Reply>) -> Result<Post, Fault>
        ensures post { IfOk result (λ post. IsNewPost self.old batch.now.list post
            × (self.new ≡ record self.old { posted = post.tick })) }
        ensures fault { IfErr result (λ fault. IsFaultOf self.old fault × (self.new ≡ self.old)) }
        ensures posted { (post : Posted) → reply ≡ Some (Reply.Post post)
            → IsNewPost self.old batch.now.list post → result ≡ Ok post }
        ensures refused { (fault : Fault) → reply ≡ Some (Reply.Fault fault)
            → IsFaultOf self.old fault → result ≡ Err fault }
        ensures none { reply ≡ None → result ≡ Err Fault.Lost }
    {
        match reply {
            Some(Reply::Post(post)) => self.accept(batch, post),
            Some(Reply::Fault(fault)) if fault.is_of(self.session, self.asked) => Err(fault),
            _ => Err(Fault::Lost),
        }
    }

    // Takes a post, if it is a new one of the last ask.
    fn accept(&mut self, batch: &Batch, post: Post) -> Result<Post, Fault>
        ensures post { IfOk result (λ taken. (taken ≡ post) × IsNewPost self.old batch.now.list post
            × (self.new ≡ record self.old { posted = post.tick })) }
        ensures fault { IfErr result (λ fault. IsFaultOf self.old fault × (self.new ≡ self.old)) }
        ensures new { IsNewPost self.old batch.now.list post → result ≡ Ok post }
    {
        if post.tick() <= self.posted || !post.is_for(self.session, self.asked, batch) {
            return Err(Fault::Lost);
        }
        self.posted = post.tick();
        Ok(post)
    }
}
