ghost use Rattle.std.specs.Prelude.{◌≡◌, ◌+◌, ℕ, min, true, Option};
ghost use Rattle.disk_model.specs.Disk.{last_count, min-last_count, HasByte};
ghost use Rattle.disk_model.specs.CrashOutcome.{IsCrashOutcome, content_stays, calls_keep_byte};
ghost use Rattle.disk_model.specs.FileState.{Calls};
ghost use Rattle.disk_model.specs.Fused.{CallsThrough, fault_count, keeps_through};

use disk_model::{Disk, Fused, ModelFile};
use std::alloc::Global;
use trial_kit::Random;
use world_actions::Refusal;

/// A file in memory that keeps to the disk model. Random calls of it fail.
#[derive(Drop)]
pub struct Flaky {
    file: Fused<ModelFile>,
    random: Random,
    // How many of a hundred calls fail.
    fails: u64,
    calls: u64,
    failures: u64,
}

impl Flaky {
    /// A file with these bytes, all of them durable. So many of a hundred calls fail.
    pub fn new(
        alloc: Global,
        bytes: Vec<u8>,
        fails: u64,
        random: &mut Random,
    ) -> Result<Self, Refusal> {
        Ok(Flaky {
            file: Fused::new(ModelFile::new(alloc, bytes)?),
            random: Random::new(random.below(u64::MAX)),
            fails,
            calls: 0,
            failures: 0,
        })
    }

    /// The file below.
    pub fn file(&self) -> &ModelFile {
        self.file.inner()
    }

    /// How many calls were made.
    pub fn calls(&self) -> u64 {
        self.calls
    }

    /// True if a call failed.
    pub fn has_failed(&self) -> bool {
        self.failures > 0
    }

    // Counts a call before it is made, and chooses if it fails.
    fn arm(&mut self)
        ensures { self.new.file ≡ record self.old.file { left = self.new.file.left } }
    {
        self.calls = self.calls.saturating_add(1);
        if self.random.percent(self.fails) {
            self.failures = self.failures.saturating_add(1);
            self.file.arm(1);
        }
    }
}

impl Disk for Flaky {
    ghost content = { λ disk. disk.file.inner.content };

    ghost may_leave = { λ disk left. IsCrashOutcome disk.file.inner left };

    ghost honest = { true };

    ghost faults = { λ disk. fault_count (λ file. min file.faults last_count) disk.file };

    ghost called = { λ old call succeeded new. (left : Option ℕ)
        × CallsThrough Calls (record old.file { left = left }) call succeeded new.file };

    ghost stays = { λ disk _. content_stays disk.file.inner };

    ghost are_bytes = { λ disk left _ outcome. outcome.are_bytes };

    ghost keeps_byte = { λ old new call succeeded _ is.
        keeps_through Calls (λ file. HasByte (IsCrashOutcome file)) calls_keep_byte
        (record old.file { left = is.0 }) new.file call succeeded is.1 };

    ghost few_faults = { λ disk.
        min-last_count (min disk.file.inner.faults last_count + disk.file.faults) };

    fn len(&mut self) -> Result<u64, Refusal> {
        self.arm();
        self.file.len()
    }

    fn read_at(&mut self, at: u64, into: &mut [u8]) -> Result<(), Refusal> {
        self.arm();
        self.file.read_at(at, into)
    }

    fn write_at(&mut self, at: u64, bytes: &[u8]) -> Result<(), Refusal> {
        self.arm();
        self.file.write_at(at, bytes)
    }

    fn sync(&mut self) -> Result<(), Refusal> {
        self.arm();
        self.file.sync()
    }
}
