use crate::percentile::of_thousandths;
use std::marker::Model;

/// The times that batches waited for their answers, in nanoseconds, the shortest first.
#[derive(Drop)]
pub struct Latencies {
    sorted: Vec<u64>,
}

impl Model for Latencies {
    ghost use Rattle.std.specs.Prelude.{ℕ, List};
    ghost use Rattle.std.specs.List.Sorted.{IsNonDecreasing};

    ghost Value = { List ℕ };

    ghost view = { λ latencies. latencies.sorted.items };

    ghost invariant = { λ latencies. IsNonDecreasing latencies.sorted.items };
}

impl Latencies {
    ghost use Rattle.std.specs.Prelude.{◌≡◌, ◌≤◌, ◌<◌, ◌+◌, ◌-◌, ◌*◌, ◌/◌, length, slice_index};
    ghost use Rattle.std.specs.Prelude.{take, drop, All, Contains};
    ghost use Rattle.std.specs.List.Sorted.{IsPermutation};

    /// Sorts the latencies of a list.
    pub fn new(list: Vec<u64>) -> Self
        ensures { IsPermutation list.items result }
    {
        let mut sorted = list;
        sorted.sort_unstable();
        Latencies { sorted }
    }

    /// The latency that so many thousandths of all don't exceed, and 0 if there is none.
    pub fn of_thousandths(&self, thousandths: u32) -> u64
        requires { (1 ≤ thousandths) × (thousandths ≤ 1000) }
        ensures { result ≡ slice_index self.now ((length self.now * thousandths + 999) / 1000 - 1) }
    {
        of_thousandths(&self.sorted, thousandths)
    }

    /// Returns how many latencies don't exceed the bound.
    pub fn up_to(&self, bound: u64) -> usize
        ensures count { result ≤ length self.now }
        ensures below { All (λ latency. latency ≤ bound) (take result self.now) }
        ensures above { All (λ latency. bound < latency) (drop result self.now) }
    {
        self.sorted.partition_point(|latency| *latency <= bound)
    }

    /// Returns the number of latencies.
    pub fn len(&self) -> usize
        ensures { result ≡ length self.now }
    {
        self.sorted.len()
    }

    /// The greatest latency, and 0 if there is none.
    pub fn greatest(&self) -> u64
        ensures greatest { All (λ latency. latency ≤ result) self.now }
        ensures one_of_them { 0 < length self.now → Contains self.now result }
        ensures none { length self.now ≡ 0 → result ≡ 0 }
    {
        self.sorted.last().copied().unwrap_or(0)
    }
}
