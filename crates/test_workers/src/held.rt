//! A gate that holds a worker while batches are answered.
use std::alloc::Global;
use std::sync::Arc;
use std::sync::atomic::{AtomicU64, Ordering};
use workers::{Gate, Pass, Place};

/// How many batches are answered before a held worker continues.
pub const HELD: u64 = 4;

/// How often a held worker asks, at most.
const TURNS: u64 = 1_000_000;

/// Holds a worker until enough batches are answered, or for good if that takes too many turns.
#[derive(Drop)]
pub struct Held {
    answered: Option<Arc<AtomicU64, Global>>,
    turns: u64,
}

impl Held {
    pub fn nothing() -> Self {
        Held {
            answered: None,
            turns: 0,
        }
    }

    pub fn until(answered: Arc<AtomicU64, Global>) -> Self {
        Held {
            answered: Some(answered),
            turns: 0,
        }
    }
}

impl Gate for Held {
    ghost use Rattle.std.specs.Prelude.{⊤};

    ghost answers = { λ old place pass new. ⊤ };

    fn at(&mut self, place: Place) -> Pass {
        let Some(answered) = &self.answered else {
            return Pass::Go;
        };
        if place != Place::Device || answered.load(Ordering::SeqCst) >= HELD {
            return Pass::Go;
        }
        if self.turns >= TURNS {
            return Pass::Stuck;
        }
        self.turns = self.turns.saturating_add(1);
        Pass::Again
    }
}
