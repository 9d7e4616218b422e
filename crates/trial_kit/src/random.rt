use std::marker::Model;

/// A generator of pseudorandom numbers, which are the same in each run.
#[derive(Drop)]
pub struct Random {
    state: u64,
}

// Contracts see the state of the generator, a linear congruential one.
impl Model for Random {
    ghost use Rattle.std.specs.Prelude.{ℕ};

    ghost Value = { ℕ };

    ghost view = { λ random. random.state };
}

impl Random {
    ghost use Rattle.std.specs.Prelude.{◌≡◌, ◌≢◌, ◌/◌, ◌%◌, ◌^◌, ◌<◌, ◌≤◌, ◌↔◌, IsTrue};
    ghost use Rattle.trial_kit.specs.Random.{next_state};

    /// A generator with this seed as its state.
    pub fn new(seed: u64) -> Self
        ensures { result ≡ seed }
    {
        Random { state: seed }
    }

    /// Returns a number below the bound, or 0 if the bound is 0. It comes from the upper bits
    /// of the next state.
    pub fn below(&mut self, bound: u64) -> u64
        ensures state { self.new ≡ next_state self.old }
        ensures number { 0 < bound → result ≡ self.new / 2 ^ 33 % bound }
        ensures none { bound ≡ 0 → result ≡ 0 }
        ensures below { 0 < bound → result < bound }
        ensures most { result ≤ bound }
    {
        self.state = self
            .state
            .wrapping_mul(6_364_136_223_846_793_005)
            .wrapping_add(1_442_695_040_888_963_407);
        (self.state >> 33).checked_rem(bound).unwrap_or(0)
    }

    /// Returns true in `chance` of 100 cases.
    pub fn percent(&mut self, chance: u64) -> bool
        ensures state { self.new ≡ next_state self.old }
        ensures happens { IsTrue result ↔ self.new / 2 ^ 33 % 100 < chance }
    {
        self.below(100) < chance
    }

    /// Returns a byte, often 0 or 1.
    pub fn byte(&mut self) -> u8
        ensures state { self.new ≡ next_state (next_state self.old) }
        ensures often { next_state self.old / 2 ^ 33 % 2 ≡ 0 → result ≡ self.new / 2 ^ 33 % 2 }
        ensures else_any { next_state self.old / 2 ^ 33 % 2 ≢ 0 → result ≡ self.new / 2 ^ 33 % 256 }
    {
        if self.below(2) == 0 {
            self.below(2) as u8
        } else {
            self.below(256) as u8
        }
    }
}
