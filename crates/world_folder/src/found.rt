//! The report on a world that was recovered.
ghost use Rattle.std.specs.Prelude.{◌≡◌, Some};
ghost use Rattle.world_folder.specs.Texts.{world_text, recovered_text};

use disk_model::{IMAGE_A, IMAGE_B};
use recovery::{Recovered, Slot};
use std::fmt;

/// A world, by its tick and that of the image from which it was built.
#[derive(Clone, Copy, Debug, PartialEq, Eq)]
pub struct WorldReport {
    pub tick: u64,
    pub from: u64,
}

impl WorldReport {
    pub fn of(found: &Recovered) -> Self
        ensures { result ≡ record { tick = found.now.tick; from = found.now.from } }
    {
        WorldReport {
            tick: found.tick,
            from: found.from,
        }
    }
}

impl fmt::Display for WorldReport {
    ghost output = { λ world. Some (world_text world.tick world.from) };

    fn fmt<W: fmt::Write>(&self, f: &mut fmt::Formatter<W>) -> fmt::Result {
        write!(f, "{} from {}", self.tick, self.from)
    }
}

/// A recovered world, and the slot of its image.
#[derive(Clone, Copy, Debug, PartialEq, Eq)]
pub struct FoundReport {
    pub world: WorldReport,
    pub slot: Slot,
}

impl FoundReport {
    pub fn of(found: &Recovered) -> Self
        ensures world { result.world ≡ record { tick = found.now.tick; from = found.now.from } }
        ensures slot { result.slot ≡ found.now.slot }
    {
        FoundReport {
            world: WorldReport::of(found),
            slot: found.slot,
        }
    }
}

impl fmt::Display for FoundReport {
    ghost output = { λ found. Some (recovered_text found.world.tick found.world.from found.slot) };

    fn fmt<W: fmt::Write>(&self, f: &mut fmt::Formatter<W>) -> fmt::Result {
        let image = match self.slot {
            Slot::A => IMAGE_A,
            Slot::B => IMAGE_B,
        };
        write!(f, "recovered {} in {image}", self.world)
    }
}
