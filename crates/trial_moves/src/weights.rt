use trial_kit::Random;

/// How often each kind of move is chosen, of a thousand: actions, reads, ends, marks, steps of the
/// images, steps of the log, covers, and crashes. The rest of the thousand are crashes too.
#[derive(Clone, Copy)]
pub struct Weights {
    of: [u64; 8],
}

impl Weights {
    /// Weights for moves of all kinds.
    pub fn of_play() -> Self {
        Weights {
            of: [380, 60, 140, 40, 200, 130, 20, 30],
        }
    }

    /// Weights while the image of a start is ahead.
    pub fn of_start_image() -> Self {
        Weights {
            of: [20, 20, 20, 20, 860, 40, 10, 10],
        }
    }

    /// Weights while the log's part of a start is ahead.
    pub fn of_start_log() -> Self {
        Weights {
            of: [30, 20, 30, 30, 60, 780, 20, 30],
        }
    }

    /// Weights while a keeper is down, which only a crash ends.
    pub fn of_failure() -> Self {
        Weights {
            of: [150, 50, 120, 120, 140, 140, 20, 120],
        }
    }

    /// Draws one of the sets for a world that has started.
    pub fn any(random: &mut Random) -> Self {
        let of = match random.below(6) {
            // Long ticks.
            0 => [970, 10, 2, 10, 8, 0, 0, 0],
            // The log rests, so its queue gets full.
            1 => [150, 30, 500, 80, 185, 0, 40, 15],
            // Rounds.
            2 => [150, 30, 80, 60, 545, 60, 60, 15],
            // The log keeps up.
            3 => [190, 30, 150, 30, 100, 465, 20, 15],
            // Crashes.
            4 => [200, 30, 150, 50, 250, 220, 30, 70],
            _ => return Weights::of_play(),
        };
        Weights { of }
    }

    /// Draws a kind of move, and returns its place in the list. A place past the last
    /// one is a crash.
    pub fn draw(&self, random: &mut Random) -> u32 {
        let mut rest = random.below(1000);
        let mut kind = 0u32;
        for weight in self.of {
            if rest < weight {
                return kind;
            }
            rest = rest.saturating_sub(weight);
            kind = kind.saturating_add(1);
        }
        kind
    }
}
