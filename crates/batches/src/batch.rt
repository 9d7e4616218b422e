ghost use Rattle.std.specs.Prelude.{◌≡◌};

use std::alloc::Global;
use std::marker::Model;
use world_actions::{Action, Refusal};

/// The greatest number of lines of a batch before its `end`.
pub const BATCH_LINES: usize = 1_024;

/// A law: the greatest number of lines of a batch. Clients depend on the number.
pub fn batch_numbers()
    ensures { BATCH_LINES ≡ 1_024 }
{}

/// The request of one line of a batch.
#[derive(Clone, Copy, Debug, PartialEq, Eq)]
pub enum Request {
    /// A change of the world.
    Act(Action),
    /// The word of a cell.
    Get(u32),
    /// Nothing that the grammar knows.
    Bad,
}

/// The lines of a batch before its `end`, as requests. Contracts see the requests, and for how many
/// more there is memory.
#[derive(Drop)]
pub struct Batch {
    requests: Vec<Request>,
}

impl Model for Batch {
    ghost use Rattle.std.specs.Prelude.{◌-◌, ◌≤◌, vec_len, vec_capacity};
    ghost use Rattle.batches.specs.declared.batch.TheConstants.{BATCH_LINES};
    ghost use Rattle.batches.specs.Batch.{Requests};

    ghost Value = { Requests };

    ghost view = { λ batch. record {
      list = batch.requests.items;
      room = vec_capacity batch.requests - vec_len batch.requests;
    } };

    ghost invariant = { λ batch. vec_len batch.requests ≤ BATCH_LINES };
}

impl Batch {
    ghost use Rattle.std.specs.Prelude.{◌≡◌, ◌+◌, ◌≤◌, ◌<◌, ◌↔◌, [], ◌∷◌, ◌++◌, length, IsTrue};
    ghost use Rattle.std.specs.Prelude.{IfOk, IfErr};

    /// A batch with no request, and room for as many as a batch may have.
    pub fn new(alloc: Global) -> Result<Self, Refusal>
        ensures list { IfOk result (λ batch. batch.list ≡ []) }
        ensures room { IfOk result (λ batch. BATCH_LINES ≤ batch.room) }
        ensures memory { IfErr result (λ refusal. refusal ≡ Refusal.NoMemory) }
    {
        Ok(Batch {
            requests: Vec::with_capacity(alloc, BATCH_LINES)?,
        })
    }

    /// The requests in order.
    pub fn requests(&self) -> &[Request]
        ensures list { result.now ≡ self.now.list }
        ensures most { length self.now.list ≤ BATCH_LINES }
    {
        &self.requests
    }

    /// True if the batch takes no more requests.
    pub fn is_full(&self) -> bool
        ensures { IsTrue result ↔ (BATCH_LINES ≤ length self.now.list) }
    {
        self.requests.len() >= BATCH_LINES
    }

    /// A batch with no request and no room. It takes no memory.
    pub fn empty(alloc: Global) -> Self
        ensures { result.list ≡ [] }
    {
        Batch {
            requests: Vec::new(alloc),
        }
    }

    /// Copies the requests to memory of their own: that of this spare batch, if it
    /// has room for them.
    pub fn try_copy(&self, spare: Batch) -> Result<Batch, Refusal>
        ensures list { IfOk result (λ batch. batch.list ≡ self.now.list) }
        ensures memory { IfErr result (λ refusal. refusal ≡ Refusal.NoMemory) }
    {
        let mut requests = spare.requests;
        requests.clear();
        requests.extend_from_slice(&self.requests)?;
        Ok(Batch { requests })
    }

    /// Adds a request for which there is room.
    pub fn push_reserved(&mut self, request: Request)
        requires not_full { length self.old.list < BATCH_LINES }
        requires room { 0 < self.old.room }
        ensures list { self.new.list ≡ self.old.list ++ request ∷ [] }
        ensures room { self.new.room + 1 ≡ self.old.room }
    {
        self.requests.push_reserved(request);
    }

    /// Takes the requests out, and keeps their memory as room.
    pub fn clear(&mut self)
        ensures list { self.new.list ≡ [] }
        ensures room { self.new.room ≡ self.old.room + length self.old.list }
    {
        self.requests.clear();
    }
}
