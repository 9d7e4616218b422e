use std::alloc::Global;
use std::marker::Model;
use world_actions::{Action, Refusal};

/// The greatest number of accepted actions in a tick.
pub const TICK_ACTIONS: usize = 256;

/// The greatest tick number.
pub const TICK_MAX: u64 = 1_000_000_000_000_000_000;

/// The accepted actions of one batch, in order. Contracts see the actions, and the number of
/// further ones for which it has memory.
#[derive(Drop)]
pub struct Tick {
    actions: Vec<Action>,
}

impl Model for Tick {
    ghost use Rattle.std.specs.Prelude.{◌-◌, ◌≤◌, vec_len, vec_capacity};
    ghost use Rattle.world_ticks.specs.declared.tick.TheConstants.{TICK_ACTIONS};
    ghost use Rattle.world_ticks.specs.Tick.{Actions};

    ghost Value = { Actions };

    ghost view = { λ t. record {
      list = t.actions.items;
      room = vec_capacity t.actions - vec_len t.actions;
    } };

    ghost invariant = { λ t. vec_len t.actions ≤ TICK_ACTIONS };
}

impl Tick {
    ghost use Rattle.std.specs.Prelude.{◌≡◌, ◌+◌, ◌≤◌, ◌<◌, ◌↔◌, [], ◌∷◌, ◌++◌, length, IsTrue};
    ghost use Rattle.std.specs.Prelude.{OnOk, OnErr, IfErr};

    /// Makes a tick with no action. It takes no memory.
    pub fn new(alloc: Global) -> Self
        ensures list { result.list ≡ [] }
        ensures room { result.room ≡ 0 }
    {
        Tick {
            actions: Vec::new(alloc),
        }
    }

    /// Returns the actions in order.
    pub fn actions(&self) -> &[Action]
        ensures list { result.now ≡ self.now.list }
        ensures most { length self.now.list ≤ TICK_ACTIONS }
    {
        &self.actions
    }

    /// Whether the tick takes no more actions.
    pub fn is_full(&self) -> bool
        ensures { IsTrue result ↔ (TICK_ACTIONS ≤ length self.now.list) }
    {
        self.actions.len() >= TICK_ACTIONS
    }

    /// Makes room for `more` actions, which then take no memory. It takes none if there is room.
    pub fn reserve(&mut self, more: usize) -> Result<(), Refusal>
        ensures list { self.new.list ≡ self.old.list }
        ensures room { OnOk result (more ≤ self.new.room) }
        ensures grows { self.old.room ≤ self.new.room }
        ensures memory { IfErr result (λ refusal. (refusal ≡ Refusal.NoMemory)
            × (self.old.room < more)) }
        ensures settled { more ≤ self.old.room → self.new ≡ self.old }
        ensures unchanged { OnErr result (self.new ≡ self.old) }
    {
        if more <= self.actions.capacity() - self.actions.len() {
            return Ok(());
        }
        self.actions.reserve(more)?;
        Ok(())
    }

    /// Adds an action for which there is room.
    pub fn push_reserved(&mut self, a: Action)
        requires not_full { length self.old.list < TICK_ACTIONS }
        requires room { 0 < self.old.room }
        ensures list { self.new.list ≡ self.old.list ++ a ∷ [] }
        ensures room { self.new.room + 1 ≡ self.old.room }
    {
        self.actions.push_reserved(a);
    }

    /// Takes the actions out, and keeps their memory as room.
    pub fn clear(&mut self)
        ensures list { self.new.list ≡ [] }
        ensures room { self.new.room ≡ self.old.room + length self.old.list }
    {
        self.actions.clear();
    }
}
