use crate::player::Answered;
use recovery::Recovered;
use std::alloc::{AllocError, Global};

/// The ticks of a run, and the answers to the players.
#[derive(Drop)]
pub struct Ticks {
    // The tick and the words at the beginning of the run.
    base: u64,
    words: Vec<u64>,
    // The moment at which each tick after it was answered, or 0 if it wasn't, and the cell
    // that it changed.
    moments: Vec<u64>,
    cells: Vec<u32>,
}

impl Ticks {
    /// So many ticks after the world `begun`, none of them answered yet.
    pub fn new(alloc: Global, begun: Recovered, count: usize) -> Result<Self, AllocError> {
        Ok(Ticks {
            base: begun.tick,
            words: begun.words,
            moments: vec![in alloc; 0; count]?,
            cells: vec![in alloc; 0; count]?,
        })
    }

    /// Keeps an answer. Returns true if it is of one of the ticks, and the first
    /// answer of that tick.
    pub fn keep(&mut self, answered: Answered) -> bool {
        let at = answered.tick.wrapping_sub(self.base).wrapping_sub(1) as usize;
        let (Some(moment), Some(cell)) = (self.moments.get_mut(at), self.cells.get_mut(at)) else {
            return false;
        };
        if *moment != 0 {
            return false;
        }
        *moment = answered.moment;
        *cell = answered.cell;
        true
    }

    /// The greatest tick that was answered before this moment.
    pub fn answered_before(&self, moment: u64) -> u64 {
        let mut greatest = self.base;
        let mut tick = self.base;
        for at in &self.moments {
            tick = tick.saturating_add(1);
            if *at < moment {
                greatest = tick;
            }
        }
        greatest
    }

    /// True if these are the words after their tick.
    pub fn leads_to(&self, found: &Recovered) -> bool {
        let ticks = found.tick.wrapping_sub(self.base) as usize;
        if found.words.len() != self.words.len() || ticks > self.cells.len() {
            return false;
        }
        for cell in 0..self.words.len() {
            let grown = self.grown(cell, ticks);
            if self.words[cell].saturating_add(grown) != found.words[cell] {
                return false;
            }
        }
        true
    }

    // How much a cell grew in so many ticks.
    fn grown(&self, cell: usize, ticks: usize) -> u64 {
        let mut grown = 0_u64;
        for changed in self.cells.iter().take(ticks) {
            if *changed as usize == cell {
                grown = grown.saturating_add(1);
            }
        }
        grown
    }
}
