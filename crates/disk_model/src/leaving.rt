ghost use Rattle.std.specs.Prelude.{◌≡◌, ◌<◌, length, get_or, IfOk, IfErr};
ghost use Rattle.disk_model.specs.CrashOutcome.{IsCrashOutcome};
ghost use Rattle.disk_model.specs.Leaving.{left_by, filled};

use crate::model_file::ModelFile;
use std::alloc::Global;
use world_actions::Refusal;

/// A choice among the bytes that a crash may leave of a file.
#[derive(Clone, Copy, Debug, PartialEq, Eq)]
pub enum Leaving {
    /// The durable bytes.
    Lose,
    /// The bytes that reads give.
    Keep,
    /// As many bytes as reads give: this byte at each uncertain place, and the durable
    /// bytes elsewhere.
    Fill(u8),
}

impl ModelFile {
    /// Returns the bytes that a crash of this kind leaves of the file. A crash may
    /// always leave them.
    pub fn left_by(&self, alloc: Global, leaving: Leaving) -> Result<Vec<u8>, Refusal>
        ensures left { IfOk result (λ left. left.items ≡ left_by leaving self.now) }
        ensures allowed { IfOk result (λ left. IsCrashOutcome self.now left.items) }
        ensures memory { IfErr result (λ refusal. refusal ≡ Refusal.NoMemory) }
    {
        match leaving {
            Leaving::Lose => Ok(Vec::from_slice(alloc, self.durable())?),
            Leaving::Keep => Ok(Vec::from_slice(alloc, self.now())?),
            Leaving::Fill(byte) => self.filled(alloc, byte),
        }
    }

    fn filled(&self, alloc: Global, byte: u8) -> Result<Vec<u8>, Refusal>
        ensures filled { IfOk result (λ left. left.items
            ≡ filled byte self.now.durable self.now.unsynced) }
        ensures allowed { IfOk result (λ left. IsCrashOutcome self.now left.items) }
        ensures memory { IfErr result (λ refusal. refusal ≡ Refusal.NoMemory) }
    {
        let mut left = Vec::with_capacity(alloc, self.now().len())?;
        for place in 0..self.now().len() {
            left.push(self.filled_at(place, byte))?;
        }
        Ok(left)
    }

    fn filled_at(&self, place: usize, byte: u8) -> u8
        requires { place < length self.now.content }
        ensures { result ≡ get_or (filled byte self.now.durable self.now.unsynced) place 0 }
    {
        if self.uncertain(place as u64) {
            byte
        } else {
            self.durable()[place]
        }
    }
}
