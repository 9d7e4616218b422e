use crate::kind::{KINDS, Kind};
use crate::player::{Move, Player};
use crate::wrong::Wrong;
use capture_core::{Capture, PlainCopy, Taken, Taker};
use std::alloc::Global;
use trial_kit::Counts;
use world_actions::LIMIT;
use world_ticks::Cells;

/// How many moves are made over a store, beside those for its cells.
const MOVES: usize = 20_000;

/// How many more are made for each cell.
const CELL_MOVES: usize = 8;

/// The seed of the moves.
const SEED: u64 = 0x9e37_79b9_7f4a_7c15;

/// A number that is no word. An image has it before its first round.
pub const NO_WORD: u64 = u64::MAX;

/// A store beside the plain copy, and the newest image of the store.
#[derive(Drop)]
struct Trial<C: Capture> {
    store: C,
    plain: PlainCopy,
    image: Vec<u64>,
    // How many cells of the round were taken.
    taken: usize,
    counts: Counts<KINDS>,
}

/// Makes one list of moves over a store and over the plain copy. Each take of the store has to
/// represent the word that the plain copy hands out.
pub fn try_store<C: Capture>(alloc: Global, cells: usize) -> Result<Counts<KINDS>, Wrong> {
    let mut trial = Trial::<C>::new(alloc, cells)?;
    let mut player = Player::new(SEED, cells);
    for number in 0..MOVES.saturating_add(cells.saturating_mul(CELL_MOVES)) {
        trial.step(number, &mut player)?;
    }
    Ok(trial.counts)
}

impl<C: Capture> Trial<C> {
    fn new(alloc: Global, cells: usize) -> Result<Self, Wrong> {
        let words = vec![in alloc; 0; cells]?;
        Ok(Trial {
            store: C::build(alloc, &words)?,
            plain: PlainCopy::build(alloc, &words)?,
            image: vec![in alloc; NO_WORD; cells]?,
            taken: 0,
            counts: Counts::new(),
        })
    }

    fn step(&mut self, number: usize, player: &mut Player) -> Result<(), Wrong> {
        let is_open = self.plain.open_round();
        if self.store.open_round() != is_open {
            return Err(Wrong::OpenInOne(number));
        }
        let last = player.last();
        match player.choose(is_open) {
            Move::Write(cell, word) => {
                self.count_write(is_open, cell == last);
                self.write(cell, word);
                Ok(())
            }
            Move::Mark => {
                self.mark();
                Ok(())
            }
            Move::Take => self.take(number),
        }
    }

    fn count_write(&mut self, is_open: bool, is_again: bool) {
        let kind = if is_open {
            Kind::WriteWithin
        } else {
            Kind::WriteBetween
        };
        self.count(kind);
        if is_again {
            self.count(Kind::WriteAgain);
        }
    }

    fn count(&mut self, kind: Kind) {
        self.counts.count(kind as usize);
    }

    fn write(&mut self, cell: usize, word: u64) {
        if cell < self.store.len() && cell < self.plain.len() && word <= LIMIT {
            self.store.write(cell, word);
            self.plain.write(cell, word);
        }
    }

    fn mark(&mut self) {
        if !self.store.open_round() && !self.plain.open_round() {
            self.store.mark();
            self.plain.mark();
            self.taken = 0;
            self.count(Kind::Mark);
        }
    }

    fn take(&mut self, number: usize) -> Result<(), Wrong> {
        let taken = self.store.take();
        let wanted = self.plain.take();
        if self.stands_for(taken) != wanted {
            return Err(Wrong::OtherWord(number, taken, wanted));
        }
        self.taken = self.taken.saturating_add(1);
        Ok(())
    }

    // Puts the word of a take into the image, and returns the word that the take represents.
    fn stands_for(&mut self, taken: Option<Taken>) -> Option<Taken> {
        match taken {
            Some(Taken::Word(word)) => {
                self.count(Kind::Word);
                if let Some(old) = self.image.get_mut(self.taken) {
                    *old = word;
                }
            }
            Some(Taken::Same) => self.count(Kind::Same),
            None => {
                self.count(Kind::End);
                return None;
            }
        }
        Some(Taken::Word(self.image.get(self.taken).copied()?))
    }
}
