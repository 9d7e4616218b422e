ghost use Rattle.std.specs.Prelude.{◌≡◌};

use crate::pulse::Pulse;
use batches::Batch;
use sessions::World;
use std::alloc::Global;
use std::marker::Model;
use std::mem;
use std::snapshot::Snapshot;
use std::sync::{Arc, Wait};
use workers::{Asker, AwaitedReply, Fault, Post, ReplySender, ReplySlot, Spins};
use world_actions::Refusal;

/// The world that the workers run, for one session. Contracts see its asker, its last post
/// and its last fault.
#[derive(Drop)]
pub struct Remote<R: Wait + Copy> {
    rt: R,
    alloc: Global,
    asker: Asker,
    /// The place where its replies come. There is none before its first ask, and after one
    /// that wasn't sent.
    slot: Option<ReplySlot>,
    /// How often it spins for a reply before it sleeps. Without this it sleeps at once.
    spins: Option<Spins>,
    /// The memory for the next batch on its way: that of the last one that came back.
    spare: Batch,
    last: Option<Snapshot<Post>>,
    fault: Option<Fault>,
    /// The counts of the server, if it has any.
    pulse: Option<Arc<Pulse, Global>>,
}

impl<R: Wait + Copy> Model for Remote<R> {
    ghost use Rattle.std.specs.Prelude.{option_map};
    ghost use Rattle.client_service.specs.Remote.{Asking};

    ghost Value = { Asking };

    ghost view = { λ remote. record {
      asker = remote.asker;
      last = option_map (λ post. post.value) remote.last;
      fault = remote.fault;
    } };
}

impl<R: Wait + Copy> Remote<R> {
    ghost use Rattle.std.specs.Prelude.{◌≡◌, None, Some, IfOk, IfErr};
    ghost use Rattle.workers.specs.Posts.{reason_of};
    ghost use Rattle.workers.specs.Asking.{IsNewPost, IsFaultOf};
    ghost use Rattle.client_service.specs.Remote.{HearsPost, HearsFault, IsAnsweredBy};
    ghost use Rattle.client_service.specs.Remote.{IsRefusedFor};

    /// The world of a session, whose batches go to the mutator by this asker.
    pub fn new(rt: R, alloc: Global, asker: Asker) -> Self
        ensures { result ≡ record { asker = asker; last = None; fault = None } }
    {
        Remote {
            rt,
            alloc,
            asker,
            slot: None,
            spins: None,
            spare: Batch::empty(alloc),
            last: None,
            fault: None,
            pulse: None,
        }
    }

    /// Counts its batches from now on.
    pub fn count_for(&mut self, pulse: Option<Arc<Pulse, Global>>)
        ensures { self.new ≡ self.old }
    {
        self.pulse = pulse;
    }

    /// Lets it spin for its replies.
    pub fn spinning(self, spins: Spins) -> Self
        ensures { result ≡ self }
    {
        let mut remote = self;
        remote.spins = Some(spins);
        remote
    }

    // The place of the next reply, and the end that sends it.
    fn reply_place(&mut self) -> Result<(AwaitedReply, ReplySender), Refusal>
        ensures same { self.new ≡ self.old }
        ensures memory { IfErr result (λ refusal. refusal ≡ Refusal.NoMemory) }
    {
        let slot = match self.slot.take() {
            Some(slot) => slot,
            None => ReplySlot::new(self.alloc)?,
        };
        Ok(slot.ask()?)
    }

    // A copy of a batch, in the memory of the last one that came back.
    fn copy(&mut self, b: &Batch) -> Result<Batch, Refusal>
        ensures same { self.new ≡ self.old }
        ensures copied { IfOk result (λ batch. batch.list ≡ b.now.list) }
        ensures memory { IfErr result (λ refusal. refusal ≡ Refusal.NoMemory) }
    {
        let spare = mem::replace(&mut self.spare, Batch::empty(self.alloc));
        Ok(b.try_copy(spare)?)
    }

    // Sends a batch as `ask` does, and counts the batch and its answer.
    fn ask_counted(&mut self, b: &Batch, buffer: Vec<u8>) -> Result<Post, Refusal>
        ensures ok { IfOk result (IsAnsweredBy self.old b.now.list self.new) }
        ensures err { IfErr result (IsRefusedFor self.old b.now.list self.new) }
    {
        if let Some(pulse) = &self.pulse {
            pulse.asked();
        }
        let answer = self.ask(b, buffer);
        if let Some(pulse) = &self.pulse {
            pulse.answered(match &answer {
                Ok(post) => Some(post.tick()),
                Err(_) => None,
            });
        }
        answer
    }

    // Sends a batch with a buffer for its answer, and waits for its post.
    fn ask(&mut self, b: &Batch, buffer: Vec<u8>) -> Result<Post, Refusal>
        ensures ok { IfOk result (IsAnsweredBy self.old b.now.list self.new) }
        ensures err { IfErr result (IsRefusedFor self.old b.now.list self.new) }
    {
        let batch = self.copy(b)?;
        let (awaited, to) = self.reply_place()?;
        self.asker.send(&self.rt, batch, buffer, to)?;
        self.wait(b, awaited)
    }

    // Waits for the post of the last ask, which was for this batch.
    fn wait(&mut self, b: &Batch, awaited: AwaitedReply) -> Result<Post, Refusal>
        ensures ok { IfOk result (HearsPost self.old b.now.list self.new) }
        ensures err { IfErr result (HearsFault self.old self.new) }
    {
        let (answer, slot) = self.reply(b, awaited);
        self.slot = Some(slot);
        match answer {
            Ok(post) => {
                self.last = Some(Snapshot::of(&post));
                Ok(post)
            }
            Err(fault) => Err(self.refused(fault)),
        }
    }

    // The reply to the last ask, which was for this batch, and the slot.
    fn reply(&mut self, b: &Batch, awaited: AwaitedReply) -> (Result<Post, Fault>, ReplySlot)
        ensures ok { IfOk result.0 (λ post. IsNewPost self.old.asker b.now.list post
            × (self.new
            ≡ record self.old { asker = record self.old.asker { posted = post.tick } })) }
        ensures err { IfErr result.0 (λ fault. IsFaultOf self.old.asker fault
            × (self.new ≡ self.old)) }
    {
        match &self.spins {
            Some(spins) => {
                let _counted = spins.enter();
                self.asker.wait(&self.rt, b, awaited, spins.of_session())
            }
            None => self.asker.wait(&self.rt, b, awaited, 0),
        }
    }

    // Notes a fault, and returns its reason.
    fn refused(&mut self, fault: Fault) -> Refusal
        ensures noted { self.new ≡ record self.old { fault = Some fault } }
        ensures reason { result ≡ reason_of fault }
    {
        self.fault = Some(fault);
        fault.reason()
    }
}

impl<R: Wait + Copy> World for Remote<R> {
    ghost use Rattle.client_service.specs.Remote.{IsPosted};

    ghost runs = { IsPosted };

    fn batch(&mut self, b: &Batch, text: &mut Vec<u8>) -> Result<(), Refusal> {
        let buffer = mem::replace(text, Vec::new(self.alloc));
        let post = self.ask_counted(b, buffer)?;
        let (answer, batch) = post.into_answer();
        *text = answer;
        self.spare = batch;
        Ok(())
    }
}
