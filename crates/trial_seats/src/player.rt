use trial_kit::Random;
use world_actions::LIMIT;

/// A move over a store.
#[derive(Clone, Copy)]
pub enum Move {
    /// Puts a word into a cell.
    Write(usize, u64),
    /// Opens a round.
    Mark,
    /// Takes a cell.
    Take,
}

/// Chooses moves, which are the same for each store of so many cells.
#[derive(Drop)]
pub struct Player {
    random: Random,
    cells: u64,
    last: usize,
}

impl Player {
    /// A player for a store of so many cells.
    pub fn new(seed: u64, cells: usize) -> Self {
        Player {
            random: Random::new(seed),
            cells: cells as u64,
            last: 0,
        }
    }

    /// The cell that was written last.
    pub fn last(&self) -> usize {
        self.last
    }

    /// The next move. `is_open` is true if a round is open. No mark is chosen in a round.
    pub fn choose(&mut self, is_open: bool) -> Move {
        match self.random.below(8) {
            0 | 1 => self.write_any(),
            2 => self.write(self.last),
            3 if !is_open => Move::Mark,
            4 | 5 if !is_open => self.write_any(),
            _ => Move::Take,
        }
    }

    fn write_any(&mut self) -> Move {
        let cell = self.random.below(self.cells) as usize;
        self.write(cell)
    }

    fn write(&mut self, cell: usize) -> Move {
        self.last = cell;
        Move::Write(cell, self.random.below(LIMIT))
    }
}
