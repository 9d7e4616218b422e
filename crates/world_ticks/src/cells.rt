ghost use Rattle.std.specs.Prelude.{◌≡◌, ℕ, List, length, ◌<◌, slice_index, slice_set, All};
ghost use Rattle.world_actions.specs.World.{IsWord};
ghost use Rattle.world_ticks.specs.Cells.{Access, Read, Wrote};

/// A store of numbered words, each at most `LIMIT`, read and written one at a time.
pub trait Cells {
    /// The words, in the order of their cells.
    ghost words: { Self → List ℕ };

    /// One access may lead from the first state to the second. Each store defines it. So the effect
    /// of a list of accesses is known for the store's whole state, not only for its words.
    ghost accessed: { Self → Access → Self → Type 0 };

    /// Returns the number of cells.
    fn len(&self) -> usize
        ensures cells { result ≡ length (words self.now) }
        ensures limit { All IsWord (words self.now) };

    /// Returns the word of a cell.
    fn read(&mut self, i: usize) -> u64
        requires { i < length (words self.old) }
        ensures word { result ≡ slice_index (words self.old) i }
        ensures limit { IsWord result }
        ensures unchanged { words self.new ≡ words self.old }
        ensures access { accessed self.old (Read i) self.new };

    /// Puts a word into a cell.
    fn write(&mut self, i: usize, v: u64)
        requires inside { i < length (words self.old) }
        requires limit { IsWord v }
        ensures word { words self.new ≡ slice_set (words self.old) i v }
        ensures access { accessed self.old (Wrote (record { cell = i; word = v })) self.new };
}
