ghost use Rattle.std.specs.Prelude.{◌≡◌, ◌+◌, ◌<◌, ◌≤◌, [], All, IfOk, OnOk};
ghost use Rattle.world_ticks.specs.declared.tick.TheConstants.{TICK_MAX};
ghost use Rattle.shared_capture.specs.declared.view.Round.{Round};

use crate::fingerprint::Fingerprint;
use crate::wrong::Wrong;
use shared_capture::{Front, Method};
use std::alloc::Global;
use trial_kit::Random;
use world_actions::LIMIT;
use world_ticks::Cells;

/// How many cells are written before a mark is tried.
const WRITES: u32 = 16;

/// How often a mark is tried, at most.
const TRIES: u64 = 1 << 28;

/// The seed of the cells and words.
const SEED: u64 = 0xd1b5_4a32_d192_ed03;

/// Writes cells of a front, and knows the fingerprint of its words.
#[derive(Drop)]
struct Writer {
    random: Random,
    fingerprint: Fingerprint,
}

/// Writes cells that are all 0 at first, and opens so many rounds, each as soon as it can. Returns
/// the fingerprint of the words at each mark.
pub fn write_rounds<M: Method>(
    alloc: Global,
    mut front: Front<M>,
    zeros: &[u64],
    rounds: u32,
) -> Result<(Front<M>, Vec<u64>), Wrong>
    requires { front.rounds ≡ [] }
    ensures { IfOk result (λ done. done.0.pair ≡ front.pair) }
{
    let mut writer = Writer {
        random: Random::new(SEED),
        fingerprint: Fingerprint::of(zeros),
    };
    let mut marked = Vec::new(alloc);
    for round in 0..rounds {
        let tick = u64::from(round) + 1;
        writer.open_round(&mut front, tick)?;
        marked.push(writer.fingerprint.at(tick))?;
    }
    Ok((front, marked))
}

impl Writer {
    // Writes cells until the round of the tick can be opened.
    fn open_round<M: Method>(&mut self, front: &mut Front<M>, tick: u64) -> Result<(), Wrong>
        requires tick { (0 < tick) × (tick ≤ TICK_MAX) }
        requires rising { All (λ (r : Round). r.tick < tick) front.old.rounds }
        ensures pair { front.new.pair ≡ front.old.pair }
        ensures rising { OnOk result (All (λ (r : Round). r.tick < tick + 1) front.new.rounds) }
    {
        for _ in 0..TRIES {
            self.write_cells(front);
            if front.mark(tick).is_ok() {
                return Ok(());
            }
        }
        Err(Wrong::NotOpened(tick))
    }

    fn write_cells<M: Method>(&mut self, front: &mut Front<M>)
        ensures pair { front.new.pair ≡ front.old.pair }
        ensures rounds { front.new.rounds ≡ front.old.rounds }
    {
        for _ in 0..WRITES {
            self.write_cell(front);
        }
    }

    fn write_cell<M: Method>(&mut self, front: &mut Front<M>)
        ensures pair { front.new.pair ≡ front.old.pair }
        ensures rounds { front.new.rounds ≡ front.old.rounds }
    {
        let cells = front.len();
        let cell = self.random.below(cells as u64) as usize;
        let word = self.random.below(LIMIT);
        if cell < cells {
            self.fingerprint.change(cell, front.read(cell), word);
            front.write(cell, word);
        }
    }
}
