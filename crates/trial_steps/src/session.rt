use crate::model::PlainModel;
use batches::Batch;
use std::alloc::Global;
use std::sync::Wait;
use workers::{
    AskChannel, AskReceiver, Asker, AwaitedReply, Fault, Post, Reply, ReplySender, ReplySlot,
};
use world_actions::Refusal;

/// A batch whose answer has not come.
#[derive(Drop)]
struct Pending {
    awaited: AwaitedReply,
    // Which of the session's asks it is.
    ask: u64,
    batch: Batch,
    // If it was run, its tick, and how many items were pushed up to that tick's.
    run: Option<(u64, u64)>,
}

/// The answer that came for a session.
#[derive(Clone, Copy)]
pub enum Answer {
    /// A post of this tick, which was the session's own.
    Post(u64),
    /// The loss of a batch that was run as a tick.
    Lost,
    /// A refusal of a batch that was not run.
    Fault(Refusal),
    /// Another answer, or none, and none can come any more.
    Wrong,
}

/// A session, which asks for one batch at a time.
#[derive(Drop)]
pub struct Session {
    number: u64,
    // It asks no more without its asker.
    asker: Option<Asker>,
    asked: u64,
    pending: Option<Pending>,
}

/// So many sessions on a channel of their own, and the end of it that takes their asks.
pub fn new_sessions(alloc: Global, count: u64) -> Result<(Vec<Session>, AskReceiver), Refusal> {
    let (mut asks, asked) = AskChannel::open(alloc)?;
    let sessions = sessions(alloc, &mut asks, count)?;
    Ok((sessions, asked))
}

/// So many sessions, which begin on this channel as its first ones.
pub fn sessions(alloc: Global, asks: &mut AskChannel, count: u64) -> Result<Vec<Session>, Refusal> {
    let mut sessions = Vec::new(alloc);
    for number in 0..count {
        let asker = asks.session().ok_or(Refusal::NoMemory)?;
        sessions.push(Session::new(number, asker))?;
    }
    Ok(sessions)
}

impl Session {
    /// The session of this number, which has asked for nothing.
    pub fn new(number: u64, asker: Asker) -> Self {
        Session {
            number,
            asker: Some(asker),
            asked: 0,
            pending: None,
        }
    }

    /// Asks no more. The workers end once no session can ask.
    pub fn close(&mut self) {
        self.asker = None;
    }

    /// True if it waits for no answer.
    pub fn is_idle(&self) -> bool {
        self.pending.is_none()
    }

    /// Asks for a batch.
    pub fn ask<R: Wait>(&mut self, rt: &R, alloc: Global, batch: &Batch) -> Result<(), Refusal> {
        let to = self.await_answer(alloc, batch.try_copy(Batch::empty(alloc))?)?;
        let copy = batch.try_copy(Batch::empty(alloc))?;
        let asker = self.asker.as_mut().ok_or(Refusal::LogDown)?;
        asker.send(rt, copy, Vec::new(alloc), to)
    }

    // Waits for the answer of a batch, which is sent to this sender.
    fn await_answer(&mut self, alloc: Global, batch: Batch) -> Result<ReplySender, Refusal> {
        let (awaited, to) = ReplySlot::new(alloc)?.ask()?;
        self.asked = self.asked.saturating_add(1);
        self.pending = Some(Pending {
            awaited,
            ask: self.asked,
            batch,
            run: None,
        });
        Ok(to)
    }

    /// Notes that its batch was run as this tick, and that so many items were pushed
    /// up to the tick's.
    pub fn runs(&mut self, tick: u64, pushed: u64) {
        if let Some(pending) = &mut self.pending {
            pending.run = Some((tick, pushed));
        }
    }

    /// How many items were pushed up to its tick's, or 0 if it waits for no tick.
    pub fn pushed(&self) -> u64 {
        match &self.pending {
            Some(
                Pending {
                    run: Some((_, pushed)),
                    ..
                },
            ) => *pushed,
            _ => 0,
        }
    }

    /// Returns the answer that came for it, if one did.
    pub fn look<R: Wait>(&mut self, rt: &R, model: &PlainModel) -> Option<Answer> {
        if !self.pending.as_ref()?.awaited.is_sent() {
            return None;
        }
        self.wait(rt, model)
    }

    /// Waits for its answer if one is due, and returns it.
    pub fn wait<R: Wait>(&mut self, rt: &R, model: &PlainModel) -> Option<Answer> {
        let Pending {
            awaited,
            ask,
            batch,
            run,
        } = self.pending.take()?;
        let (reply, _slot) = awaited.wait(rt, 0);
        Some(self.judge(ask, &batch, run, reply, model))
    }

    // Judges the reply to this ask, which was for this batch.
    fn judge(
        &self,
        ask: u64,
        batch: &Batch,
        run: Option<(u64, u64)>,
        reply: Option<Reply>,
        model: &PlainModel,
    ) -> Answer {
        match reply {
            Some(Reply::Post(post)) => self.judge_post(ask, batch, run, post, model),
            Some(Reply::Fault(Fault::Unplayed(unplayed))) => Answer::Fault(unplayed.reason()),
            Some(Reply::Fault(Fault::Lost)) if run.is_some() => Answer::Lost,
            Some(Reply::Fault(Fault::Lost)) | None => Answer::Wrong,
        }
    }

    fn judge_post(
        &self,
        ask: u64,
        batch: &Batch,
        run: Option<(u64, u64)>,
        post: Post,
        model: &PlainModel,
    ) -> Answer {
        let tick = post.tick();
        let is_own = post.is_for(self.number, ask, batch);
        let (text, _) = post.into_answer();
        match run {
            Some((own, _)) if is_own && own == tick && model.is_answer(tick, &text) => {
                Answer::Post(tick)
            }
            _ => Answer::Wrong,
        }
    }
}
