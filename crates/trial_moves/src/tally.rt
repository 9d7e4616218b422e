use crate::kind::{KINDS, kind_of};
use plain_moves::{Asked, PlainAnswer};
use trial_kit::Counts;

/// How many moves were made, and how often each kind of answer came.
#[derive(Drop)]
pub struct Tally {
    moves: u32,
    counts: Counts<KINDS>,
}

impl Tally {
    /// Counts that are all 0.
    pub fn new() -> Self {
        Tally {
            moves: 0,
            counts: Counts::new(),
        }
    }

    /// Counts a move and its answer.
    pub fn count(&mut self, asked: Asked, given: PlainAnswer) {
        self.moves = self.moves.saturating_add(1);
        if let Some(kind) = kind_of(asked, given) {
            self.counts.count(kind as usize);
        }
    }

    /// Adds the counts of another tally.
    pub fn add(&mut self, other: &Tally) {
        self.moves = self.moves.saturating_add(other.moves);
        self.counts.add(&other.counts);
    }

    /// How many moves were counted.
    pub fn moves(&self) -> u32 {
        self.moves
    }

    /// How often each kind came, in the order of `NAMES`.
    pub fn counts(&self) -> &Counts<KINDS> {
        &self.counts
    }
}
