use crate::wanted::Wanted;
use trial_kit::Counts;

/// How many kinds of answers there are.
pub const KINDS: usize = 10;

/// The most replayed ticks that have a kind of their own.
const MOST_TICKS: u64 = 5;

/// The kinds of answers. Worlds have one for each number of replayed ticks.
pub const NAMES: [&str; KINDS] = [
    "recovered, 0 ticks",
    "recovered, 1 tick",
    "recovered, 2 ticks",
    "recovered, 3 ticks",
    "recovered, 4 ticks",
    "recovered, 5 ticks or more",
    "NoImage",
    "BadImage",
    "BadLog, by a segment",
    "BadLog, by the replay",
];

/// Counts of answers.
#[derive(Drop)]
pub struct Tally {
    /// How many answers were right.
    pub right: u32,
    /// How many answers were wrong.
    pub wrong: u32,
    /// How many answers of each kind were required.
    pub wanted: Counts<KINDS>,
}

impl Tally {
    ghost use Rattle.std.specs.Prelude.{◌≡◌, ◌+◌, ◌-◌, ◌^◌, ◌<◌, ◌↔◌, true, false, IsTrue, All};
    ghost use Rattle.std.specs.Prelude.{min};
    ghost use Rattle.trial_damage.specs.Tally.{judged};

    /// Counts that are all 0.
    pub fn new() -> Self
        ensures { judged result ≡ 0 }
    {
        Tally {
            right: 0,
            wrong: 0,
            wanted: Counts::new(),
        }
    }

    /// Counts an answer, and its kind.
    pub fn answer(&mut self, wanted: &Wanted, is_right: bool)
        ensures right { is_right ≡ true → self.new.right ≡ min (self.old.right + 1) (2 ^ 32 - 1) }
        ensures wrong { is_right ≡ false → self.new.wrong ≡ min (self.old.wrong + 1) (2 ^ 32 - 1) }
        ensures one { judged self.old + 1 < 2 ^ 32 → judged self.new ≡ judged self.old + 1 }
    {
        if is_right {
            self.right = self.right.saturating_add(1);
        } else {
            self.wrong = self.wrong.saturating_add(1);
        }
        self.wanted.count(kind_of(wanted));
    }

    /// True if no answer was wrong, and each kind came.
    pub fn passes(&self) -> bool
        ensures { IsTrue result
            ↔ ((self.now.wrong ≡ 0) × All (λ count. 0 < count) self.now.wanted) }
    {
        self.wrong == 0 && self.wanted.each_came()
    }
}

// The place of an answer's kind.
fn kind_of(wanted: &Wanted) -> usize {
    match wanted {
        Wanted::World(world) => world.tick.saturating_sub(world.from).min(MOST_TICKS) as usize,
        Wanted::NoImage => 6,
        Wanted::BadImage => 7,
        Wanted::BadSegment => 8,
        Wanted::BadReplay => 9,
    }
}
