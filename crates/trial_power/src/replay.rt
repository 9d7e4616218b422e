use crate::recorded::{Call, Change};
use disk_model::{Disk, FourFiles, ModelFile};
use recovery::{Recovered, recover};
use std::alloc::Global;
use trial_kit::{Random, left_by};
use world_actions::Refusal;

/// A file of the disk model on which recorded calls are made again, and how many of them were made.
#[derive(Drop)]
pub struct Replay {
    file: ModelFile,
    made: usize,
}

impl Replay {
    /// A file of these bytes.
    pub fn new(alloc: Global, bytes: Vec<u8>) -> Result<Self, Refusal> {
        Ok(Replay {
            file: ModelFile::new(alloc, bytes)?,
            made: 0,
        })
    }

    /// Makes the recorded calls before this moment.
    fn go_on(&mut self, calls: &[Call], moment: u64) -> Result<(), Refusal> {
        for call in calls.iter().skip(self.made) {
            if call.moment >= moment {
                break;
            }
            make(&mut self.file, &call.change)?;
            self.made = self.made.saturating_add(1);
        }
        Ok(())
    }

    /// True if the present bytes aren't the durable ones, so that a crash may leave
    /// more than one thing.
    fn is_uncertain(&self) -> bool {
        self.file.durable() != self.file.now()
    }
}

fn make(file: &mut ModelFile, change: &Change) -> Result<(), Refusal> {
    match change {
        Change::Write { at, bytes } => {
            if *at > file.now().len() as u64 {
                return Err(Refusal::Device);
            }
            file.write_at(*at, bytes)
        }
        Change::Sync => file.sync(),
    }
}

/// The calls of four files.
pub type Calls<'a> = FourFiles<&'a [Call]>;

/// Makes the recorded calls of all files before a moment. Returns true if a file then has bytes
/// that aren't durable, so that a crash may leave more than one thing.
pub fn go_on(
    files: &mut FourFiles<Replay>,
    calls: &Calls<'_>,
    moment: u64,
) -> Result<bool, Refusal> {
    files.image_a.go_on(calls.image_a, moment)?;
    files.image_b.go_on(calls.image_b, moment)?;
    files.log_a.go_on(calls.log_a, moment)?;
    files.log_b.go_on(calls.log_b, moment)?;
    let images = files.image_a.is_uncertain() || files.image_b.is_uncertain();
    Ok(images || files.log_a.is_uncertain() || files.log_b.is_uncertain())
}

/// Cuts the power, chooses bytes that it may leave of each file, and recovers from them.
pub fn cut(
    alloc: Global,
    files: &FourFiles<Replay>,
    random: &mut Random,
) -> Result<Recovered, Refusal> {
    let image_a = left_by(alloc, &files.image_a.file, random)?;
    let image_b = left_by(alloc, &files.image_b.file, random)?;
    let log_a = left_by(alloc, &files.log_a.file, random)?;
    let log_b = left_by(alloc, &files.log_b.file, random)?;
    recover(alloc, &image_a, &image_b, &log_a, &log_b)
}
