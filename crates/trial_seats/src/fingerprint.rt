/// A number that represents words. It is a sum of terms, one for each cell, so that a write
/// changes one term.
#[derive(Clone, Copy)]
pub struct Fingerprint {
    sum: u64,
}

impl Fingerprint {
    /// The fingerprint of these words.
    pub fn of(words: &[u64]) -> Self {
        let mut sum = 0u64;
        for (cell, word) in words.iter().enumerate() {
            sum = sum.wrapping_add(term(cell, *word));
        }
        Fingerprint { sum }
    }

    /// Replaces the word of a cell.
    pub fn change(&mut self, cell: usize, old: u64, new: u64) {
        self.sum = self
            .sum
            .wrapping_sub(term(cell, old))
            .wrapping_add(term(cell, new));
    }

    /// The fingerprint of the words and their tick.
    pub fn at(&self, tick: u64) -> u64 {
        scrambled(self.sum.wrapping_add(tick))
    }
}

// The term of a cell with its word.
fn term(cell: usize, word: u64) -> u64 {
    scrambled((cell as u64).wrapping_mul(0x9e37_79b9_7f4a_7c15) ^ word)
}

// A different number for each number: the last steps of the generator SplitMix64.
fn scrambled(number: u64) -> u64 {
    let first = (number ^ (number >> 30)).wrapping_mul(0xbf58_476d_1ce4_e5b9);
    let second = (first ^ (first >> 27)).wrapping_mul(0x94d0_49bb_1331_11eb);
    second ^ (second >> 31)
}
