use trial_kit::Random;
use workers::{Gate, Pass, Place};

/// Holds a worker for a while at one step of five, and now and then for good.
#[derive(Drop)]
pub struct Hold {
    random: Random,
    // Each time it is asked it sticks with a chance of one in so many. If this is 0
    // it never sticks.
    sticks: u64,
    is_stuck: bool,
}

impl Hold {
    /// A gate whose answers have a random seed.
    pub fn new(sticks: u64, random: &mut Random) -> Self {
        Hold {
            random: Random::new(random.below(u64::MAX)),
            sticks,
            is_stuck: false,
        }
    }
}

impl Gate for Hold {
    ghost use Rattle.std.specs.Prelude.{⊤};

    ghost answers = { λ old place pass new. ⊤ };

    fn at(&mut self, _place: Place) -> Pass {
        if self.sticks > 0 && self.random.below(self.sticks) == 0 {
            self.is_stuck = true;
        }
        if self.is_stuck {
            Pass::Stuck
        } else if self.random.percent(20) {
            Pass::Again
        } else {
            Pass::Go
        }
    }
}
