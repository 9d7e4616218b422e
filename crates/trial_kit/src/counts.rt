use std::io;
use std::marker::Model;

/// How often each of `N` things came.
#[derive(Drop)]
pub struct Counts<const N: usize> {
    counts: [u64; N],
}

// Contracts see the counts.
impl<const N: usize> Model for Counts<N> {
    ghost use Rattle.std.specs.Prelude.{◌≡◌, ℕ, List, length};

    ghost Value = { List ℕ };

    ghost view = { λ counts. counts.counts };

    ghost invariant = { λ counts. length counts.counts ≡ N };
}

impl<const N: usize> Counts<N> {
    ghost use Rattle.std.specs.Prelude.{◌≡◌, ℕ, ◌<◌, ◌≤◌, ◌↔◌, IsTrue, IfOk, All, replicate, set};
    ghost use Rattle.std.specs.Prelude.{slice_index};
    ghost use Rattle.trial_kit.specs.Counts.{sum_of};

    /// Counts that are all 0.
    pub fn new() -> Self
        ensures { result ≡ replicate N 0 }
    {
        Counts { counts: [0; N] }
    }

    /// Counts a thing once more, if it is one of them.
    pub fn count(&mut self, thing: usize)
        ensures counted { thing < N
            → self.new ≡ set self.old thing (sum_of (slice_index self.old thing) 1) }
        ensures other { N ≤ thing → self.new ≡ self.old }
    {
        if thing < N {
            self.counts[thing] = self.counts[thing].saturating_add(1);
        }
    }

    /// Adds the counts of another object.
    pub fn add(&mut self, other: &Self)
        ensures { (thing : ℕ) → thing < N
            → slice_index self.new thing
            ≡ sum_of (slice_index self.old thing) (slice_index other.now thing) }
    {
        for thing in 0..N {
            self.counts[thing] = self.counts[thing].saturating_add(other.counts[thing]);
        }
    }

    /// Returns how often a thing came, and 0 if it isn't one of them.
    pub fn of(&self, thing: usize) -> u64
        ensures counted { thing < N → result ≡ slice_index self.now thing }
        ensures other { N ≤ thing → result ≡ 0 }
    {
        self.counts.get(thing).copied().unwrap_or(0)
    }

    /// True if each thing came.
    pub fn each_came(&self) -> bool
        ensures { IsTrue result ↔ All (λ count. 0 < count) self.now }
    {
        self.counts.iter().all(|&count| count > 0)
    }

    /// Prints a line for each thing, its name first. Returns true if each came.
    pub fn report<R: Print>(&self, rt: &R, names: &[&str]) -> io::Result<bool>
        ensures { IfOk result (λ each. IsTrue each ↔ All (λ count. 0 < count) self.now) }
    {
        for (name, count) in names.iter().zip(&self.counts) {
            println!(rt; "{name}: {count}")?;
        }
        Ok(self.each_came())
    }
}
