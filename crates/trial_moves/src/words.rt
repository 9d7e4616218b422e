//! The model that judges worlds. It does actions by its own code, on purpose.
use std::alloc::Global;
use world_actions::{Action, LIMIT, Refusal};

/// The words of a world, and what actions do to them.
#[derive(Drop)]
pub struct Words {
    words: Vec<u64>,
}

impl Words {
    /// A world of so many zeros.
    pub fn zeros(alloc: Global, cells: u32) -> Result<Self, Refusal> {
        Ok(Words {
            words: vec![in alloc; 0; cells as usize]?,
        })
    }

    /// A copy of the words.
    pub fn copy(&self, alloc: Global) -> Result<Self, Refusal> {
        Ok(Words {
            words: Vec::from_slice(alloc, &self.words)?,
        })
    }

    /// The word of a cell, if there is such a cell.
    pub fn get(&self, cell: u32) -> Result<u64, Refusal> {
        match self.words.get(cell as usize) {
            Some(word) => Ok(*word),
            None => Err(Refusal::BadCell),
        }
    }

    /// Does an action, or says why not.
    pub fn act(&mut self, action: Action) -> Result<(), Refusal> {
        match action {
            Action::Set { cell, value } => self.set(cell, value),
            Action::Add { cell, by } => self.add(cell, by),
            Action::Transfer { from, to, amount } => self.transfer(from, to, amount),
            Action::Swap { a, b } => self.swap(a, b),
            Action::Cap { cell, value } => self.cap(cell, value),
        }
    }

    fn set(&mut self, cell: u32, value: u64) -> Result<(), Refusal> {
        if cell as usize >= self.words.len() {
            return Err(Refusal::BadCell);
        }
        if value > LIMIT {
            return Err(Refusal::BadValue);
        }
        self.put(cell, value);
        Ok(())
    }

    fn add(&mut self, cell: u32, by: i64) -> Result<(), Refusal> {
        let word = self.get(cell)?;
        if by.unsigned_abs() > LIMIT {
            return Err(Refusal::BadValue);
        }
        let sum = if by < 0 {
            lowered(word, by.unsigned_abs())?
        } else {
            raised(word, by.unsigned_abs())?
        };
        self.put(cell, sum);
        Ok(())
    }

    fn transfer(&mut self, from: u32, to: u32, amount: u64) -> Result<(), Refusal> {
        let source = self.get(from)?;
        let target = self.get(to)?;
        if amount > LIMIT {
            return Err(Refusal::BadValue);
        }
        if from == to {
            return Err(Refusal::SameCell);
        }
        let less = lowered(source, amount)?;
        let more = raised(target, amount)?;
        self.put(from, less);
        self.put(to, more);
        Ok(())
    }

    fn swap(&mut self, a: u32, b: u32) -> Result<(), Refusal> {
        let one = self.get(a)?;
        let other = self.get(b)?;
        if a == b {
            return Err(Refusal::SameCell);
        }
        self.put(a, other);
        self.put(b, one);
        Ok(())
    }

    fn cap(&mut self, cell: u32, value: u64) -> Result<(), Refusal> {
        let word = self.get(cell)?;
        if value > LIMIT {
            return Err(Refusal::BadValue);
        }
        if word > value {
            self.put(cell, value);
        }
        Ok(())
    }

    fn put(&mut self, cell: u32, word: u64) {
        if let Some(old) = self.words.get_mut(cell as usize) {
            *old = word;
        }
    }
}

// Subtracts from a word.
fn lowered(word: u64, by: u64) -> Result<u64, Refusal> {
    word.checked_sub(by).ok_or(Refusal::OutOfRange)
}

// Adds to a word, if the sum is no more than a word may be.
fn raised(word: u64, by: u64) -> Result<u64, Refusal> {
    match word.checked_add(by) {
        Some(sum) if sum <= LIMIT => Ok(sum),
        _ => Err(Refusal::OutOfRange),
    }
}
