use crate::model::PlainModel;
use crate::weights::Weights;
use plain_moves::Asked;
use trial_kit::Random;
use world_actions::{Action, LIMIT};
use world_core::Fate;

/// The longest stretch of moves that are chosen by one set of weights.
const LONGEST: u64 = 400;

/// Chooses random moves, for a while by one set of weights, and then by another.
#[derive(Drop)]
pub struct Player {
    weights: Weights,
    // How many more moves are chosen by these weights.
    left: u64,
    cells: u32,
}

impl Player {
    /// A player of a world with so many cells.
    pub fn new(cells: u32) -> Self {
        Player {
            weights: Weights::of_play(),
            left: LONGEST,
            cells,
        }
    }

    /// The next move.
    pub fn choose(&mut self, model: &PlainModel, random: &mut Random) -> Asked {
        if self.left == 0 {
            self.left = random.below(LONGEST);
            self.weights = Weights::any(random);
        }
        self.left = self.left.saturating_sub(1);
        let weights = if model.is_down() {
            Weights::of_failure()
        } else if model.is_image_ahead() {
            Weights::of_start_image()
        } else if model.is_starting() {
            Weights::of_start_log()
        } else {
            self.weights
        };
        self.choose_by(weights, model, random)
    }

    fn choose_by(&mut self, weights: Weights, model: &PlainModel, random: &mut Random) -> Asked {
        match weights.draw(random) {
            0 => Asked::Act(self.action(random)),
            1 => Asked::Get(self.cell(random)),
            2 => Asked::End,
            3 => Asked::Mark,
            4 => Asked::Image(fate(random)),
            5 => Asked::Log(fate(random)),
            6 => Asked::Cover(covered(model, random)),
            _ if random.percent(10) => Asked::ImpossibleCrash,
            _ => Asked::Crash,
        }
    }

    fn action(&self, random: &mut Random) -> Action {
        match random.below(5) {
            0 => Action::Set {
                cell: self.cell(random),
                value: amount(random),
            },
            1 => Action::Add {
                cell: self.cell(random),
                by: difference(random),
            },
            2 => Action::Transfer {
                from: self.cell(random),
                to: self.cell(random),
                amount: amount(random),
            },
            3 => Action::Swap {
                a: self.cell(random),
                b: self.cell(random),
            },
            _ => Action::Cap {
                cell: self.cell(random),
                value: amount(random),
            },
        }
    }

    // Chooses a cell, mostly one that the world has.
    fn cell(&self, random: &mut Random) -> u32 {
        match random.below(40) {
            0 => self.cells,
            1 => u32::MAX,
            _ => random.below(u64::from(self.cells)) as u32,
        }
    }
}

// Chooses the tick of a cover: mostly the newest image's, else that of a waiting switch, or one
// that no image has.
fn covered(model: &PlainModel, random: &mut Random) -> u64 {
    let newest = model.newest();
    match random.below(10) {
        0 => newest.saturating_add(random.below(3)),
        1 => u64::MAX,
        2..5 => model.next_switch().unwrap_or(newest),
        _ => newest,
    }
}

// Chooses the fate of a call, which fails now and then.
fn fate(random: &mut Random) -> Fate {
    if random.percent(2) {
        Fate::Failed
    } else {
        Fate::Done
    }
}

// Chooses an amount, mostly a small one, else one near the limit.
fn amount(random: &mut Random) -> u64 {
    match random.below(20) {
        0 => u64::MAX,
        1 => LIMIT.saturating_add(random.below(2)),
        2..4 => LIMIT.saturating_sub(random.below(100)),
        _ => random.below(100),
    }
}

// Chooses a difference of either sign, mostly a small one, else one near a bound.
fn difference(random: &mut Random) -> i64 {
    let size = match random.below(20) {
        0 => return i64::MIN,
        1 => return i64::MAX,
        2 => 1_000_000_000_000_000_000,
        3 => 999_999_999_999_999_999,
        _ => random.below(100) as i64,
    };
    if random.below(2) == 0 { size } else { -size }
}
