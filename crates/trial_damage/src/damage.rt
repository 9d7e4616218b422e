use crate::files::Files;
use std::alloc::AllocError;
use trial_kit::Random;

/// The place of the format mark in a file.
const MARK_PLACE: usize = 8;

/// A generator of random changes of files, which are the same in each run.
#[derive(Drop)]
pub struct Damage {
    random: Random,
}

impl Damage {
    /// A generator before its first change.
    pub fn new() -> Self {
        Damage {
            random: Random::new(0x9e37_79b9_7f4a_7c15),
        }
    }

    /// Makes one to four changes in the four files.
    pub fn damage(&mut self, files: &mut Files) -> Result<(), AllocError> {
        for _ in 0..=self.random.below(4) {
            let file = match self.random.below(4) {
                0 => &mut files.image_a,
                1 => &mut files.image_b,
                2 => &mut files.log_a,
                _ => &mut files.log_b,
            };
            self.change(file)?;
        }
        Ok(())
    }

    // Changes a byte of a file or its format mark, takes bytes off its end, or adds a byte there.
    fn change(&mut self, file: &mut Vec<u8>) -> Result<(), AllocError> {
        let len = file.len() as u64;
        match self.random.below(9) {
            0 => file.truncate(self.random.below(len) as usize),
            1..4 => {
                let byte = self.byte();
                file.push(byte)?;
            }
            4 => {
                let mark = (self.random.below(4) as u8) << 4;
                put(file, MARK_PLACE, mark);
            }
            _ => {
                let byte = self.byte();
                put(file, self.random.below(len) as usize, byte);
            }
        }
        Ok(())
    }

    // Returns a byte, often a small one.
    fn byte(&mut self) -> u8 {
        if self.random.below(2) == 0 {
            self.random.below(4) as u8
        } else {
            self.random.below(256) as u8
        }
    }
}

// Replaces the byte at a place, if there is one.
fn put(file: &mut [u8], place: usize, byte: u8) {
    if let Some(old) = file.get_mut(place) {
        *old = byte;
    }
}
