ghost use Rattle.std.specs.Prelude.{◌≡◌, min, [], false, ⊤};
ghost use Rattle.std.proofs.lemmas.Bool.{false≢true};
ghost use Rattle.disk_model.specs.Disk.{last_count, min-last_count};

use disk_model::{Disk, FourFiles};
use file_disk::FileDisk;
use std::alloc::{AllocError, Global};
use std::sync::Arc;
use std::sync::atomic::{AtomicU64, Ordering};
use world_actions::Refusal;

/// A counter that gives each call of a file and each answer of a session its moment.
pub type Clock = Arc<AtomicU64, Global>;

/// A change by a call that matters for what a crash leaves.
#[derive(Drop)]
pub enum Change {
    /// It wrote these bytes from this place on.
    Write { at: u64, bytes: Vec<u8> },
    /// It made all written bytes durable.
    Sync,
}

/// A call, and its moment: the beginning of a write, or the end of a sync.
#[derive(Drop)]
pub struct Call {
    pub moment: u64,
    pub change: Change,
}

/// A file of the system, and its calls in order.
#[derive(Drop)]
pub struct Recorded {
    alloc: Global,
    file: FileDisk,
    clock: Clock,
    calls: Vec<Call>,
    is_whole: bool,
}

impl Recorded {
    fn new(alloc: Global, file: FileDisk, clock: &Clock) -> Result<Self, AllocError> {
        Ok(Recorded {
            alloc,
            file,
            clock: clock.clone()?,
            calls: Vec::new(alloc),
            is_whole: true,
        })
    }

    /// The calls in order, if there was memory for all.
    pub fn calls(&self) -> Option<&[Call]> {
        self.is_whole.then_some(self.calls.as_slice())
    }

    fn keep(&mut self, moment: u64, change: Change)
        ensures { self.new.file ≡ self.old.file }
    {
        if self.calls.push(Call { moment, change }).is_err() {
            self.is_whole = false;
        }
    }
}

/// Four files whose calls are recorded with the moments of one clock.
pub fn keep_calls(
    alloc: Global,
    files: FourFiles<FileDisk>,
    clock: &Clock,
) -> Result<FourFiles<Recorded>, AllocError> {
    let FourFiles {
        image_a,
        image_b,
        log_a,
        log_b,
    } = files;
    Ok(FourFiles {
        image_a: Recorded::new(alloc, image_a, clock)?,
        image_b: Recorded::new(alloc, image_b, clock)?,
        log_a: Recorded::new(alloc, log_a, clock)?,
        log_b: Recorded::new(alloc, log_b, clock)?,
    })
}

// Nothing is stated of the bytes of the file, as for the file of the system below.
impl Disk for Recorded {
    ghost content = { λ disk. [] };

    ghost may_leave = { λ disk left. ⊤ };

    ghost honest = { false };

    ghost faults = { λ disk. min disk.file.faults last_count };

    ghost called = { λ old call succeeded new. ⊤ };

    ghost stays = { λ disk is_honest. absurd (false≢true is_honest) };

    ghost are_bytes = { λ disk left is_honest outcome. absurd (false≢true is_honest) };

    ghost keeps_byte = { λ old new call succeeded is_honest. absurd (false≢true is_honest) };

    ghost few_faults = { λ disk. min-last_count disk.file.faults };

    fn len(&mut self) -> Result<u64, Refusal> {
        self.file.len()
    }

    fn read_at(&mut self, at: u64, into: &mut [u8]) -> Result<(), Refusal> {
        self.file.read_at(at, into)
    }

    fn write_at(&mut self, at: u64, bytes: &[u8]) -> Result<(), Refusal> {
        let moment = self.clock.fetch_add(1, Ordering::SeqCst);
        match Vec::from_slice(self.alloc, bytes) {
            Ok(bytes) => self.keep(moment, Change::Write { at, bytes }),
            Err(_) => self.is_whole = false,
        }
        self.file.write_at(at, bytes)
    }

    fn sync(&mut self) -> Result<(), Refusal> {
        self.file.sync()?;
        let moment = self.clock.fetch_add(1, Ordering::SeqCst);
        self.keep(moment, Change::Sync);
        Ok(())
    }
}
