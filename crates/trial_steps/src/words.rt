//! The model that judges worlds. It does actions by its own code, on purpose.
use std::alloc::Global;
use world_actions::{Action, LIMIT, Refusal};

/// The words of a world, and what an action does to them.
#[derive(Drop)]
pub struct Words {
    words: Vec<u64>,
}

impl Words {
    /// These words.
    pub fn new(words: Vec<u64>) -> Self {
        Words { words }
    }

    /// A copy of the words.
    pub fn try_copy(&self, alloc: Global) -> Result<Self, Refusal> {
        Ok(Words {
            words: Vec::from_slice(alloc, &self.words)?,
        })
    }

    /// True if these are the words.
    pub fn are(&self, words: &[u64]) -> bool {
        self.words.as_slice() == words
    }

    /// The word of a cell.
    pub fn word(&self, cell: u32) -> Result<u64, Refusal> {
        self.words
            .get(cell as usize)
            .copied()
            .ok_or(Refusal::BadCell)
    }

    /// Does an action, or returns the reason why not.
    pub fn act(&mut self, action: Action) -> Result<(), Refusal> {
        match action {
            Action::Set { cell, value } => {
                self.word(cell)?;
                self.put(cell, small(value)?);
            }
            Action::Add { cell, by } => self.put(cell, sum(self.word(cell)?, by)?),
            Action::Transfer { from, to, amount } => self.transfer(from, to, amount)?,
            Action::Swap { a, b } => {
                let (one, other) = self.two(a, b)?;
                differ(a, b)?;
                self.put(a, other);
                self.put(b, one);
            }
            Action::Cap { cell, value } => {
                let word = self.word(cell)?;
                self.put(cell, word.min(small(value)?));
            }
        }
        Ok(())
    }

    fn transfer(&mut self, from: u32, to: u32, amount: u64) -> Result<(), Refusal> {
        let (one, other) = self.two(from, to)?;
        small(amount)?;
        differ(from, to)?;
        let less = one.checked_sub(amount).ok_or(Refusal::OutOfRange)?;
        let more = fitting(other.checked_add(amount))?;
        self.put(from, less);
        self.put(to, more);
        Ok(())
    }

    fn two(&self, a: u32, b: u32) -> Result<(u64, u64), Refusal> {
        Ok((self.word(a)?, self.word(b)?))
    }

    fn put(&mut self, cell: u32, word: u64) {
        if let Some(old) = self.words.get_mut(cell as usize) {
            *old = word;
        }
    }
}

// Returns the number if an action may have it.
fn small(number: u64) -> Result<u64, Refusal> {
    if number > LIMIT {
        return Err(Refusal::BadValue);
    }
    Ok(number)
}

fn differ(a: u32, b: u32) -> Result<(), Refusal> {
    if a == b {
        return Err(Refusal::SameCell);
    }
    Ok(())
}

fn sum(word: u64, by: i64) -> Result<u64, Refusal> {
    let much = small(by.unsigned_abs())?;
    if by < 0 {
        fitting(word.checked_sub(much))
    } else {
        fitting(word.checked_add(much))
    }
}

// Returns the word if a cell may have it.
fn fitting(word: Option<u64>) -> Result<u64, Refusal> {
    match word {
        Some(word) if word <= LIMIT => Ok(word),
        _ => Err(Refusal::OutOfRange),
    }
}
