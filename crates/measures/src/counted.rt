ghost use Rattle.std.specs.Prelude.{◌≡◌, ◌≤◌, length};
ghost use Rattle.trial_kit.specs.Counts.{sum_of};
ghost use Rattle.measures.specs.Calls.{no_calls, with_call, both_calls};

use disk_model::{Disk, ModelFile};
use std::alloc::Global;
use std::fmt::{self, Display, Formatter, Write};
use world_actions::Refusal;

/// The calls on a disk: how many, how many of them syncs, and how many bytes they were to
/// write and to read.
#[derive(Clone, Copy)]
pub struct Calls {
    pub made: u64,
    pub syncs: u64,
    pub written: u64,
    pub read: u64,
}

impl Calls {
    /// No calls.
    pub fn none() -> Self
        ensures { result ≡ no_calls }
    {
        Calls {
            made: 0,
            syncs: 0,
            written: 0,
            read: 0,
        }
    }

    /// The sums of the calls on two disks.
    pub fn both(self, other: Calls) -> Self
        ensures { result ≡ both_calls self other }
    {
        Calls {
            made: self.made.saturating_add(other.made),
            syncs: self.syncs.saturating_add(other.syncs),
            written: self.written.saturating_add(other.written),
            read: self.read.saturating_add(other.read),
        }
    }

    // Counts one more call.
    fn count(&mut self)
        ensures { self.new ≡ record self.old { made = sum_of self.old.made 1 } }
    {
        self.made = self.made.saturating_add(1);
    }
}

impl Display for Calls {
    fn fmt<W: Write>(&self, f: &mut Formatter<W>) -> fmt::Result {
        write!(
            f,
            "{} calls, {} of them syncs, {} bytes written and {} read",
            self.made, self.syncs, self.written, self.read
        )
    }
}

/// A disk whose calls are counted.
#[derive(Drop)]
pub struct Counted<D> {
    inner: D,
    calls: Calls,
}

/// A file in memory whose calls are counted.
pub type File = Counted<ModelFile>;

/// An empty file, which has memory for so many bytes.
pub fn empty_file(alloc: Global, bytes: u64) -> Result<File, Refusal> {
    let mut file = ModelFile::new(alloc, Vec::new(alloc))?;
    file.reserve(bytes)?;
    Ok(Counted::new(file))
}

impl<D> Counted<D> {
    /// A disk on which no call is counted yet.
    pub fn new(inner: D) -> Self
        ensures { result ≡ record { inner = inner; calls = no_calls } }
    {
        Counted {
            inner,
            calls: Calls::none(),
        }
    }

    /// The disk below.
    pub fn inner(&self) -> &D
        ensures { result.now ≡ self.now.inner }
    {
        &self.inner
    }

    /// Returns the calls since it was last asked, and begins to count anew.
    pub fn take_calls(&mut self) -> Calls
        ensures reported { result ≡ self.old.calls }
        ensures begins { self.new ≡ record self.old { calls = no_calls } }
    {
        let calls = self.calls;
        self.calls = Calls::none();
        calls
    }
}

// Each call is made on the disk below, and counted.
impl<D: Disk> Disk for Counted<D> {
    ghost content = { λ disk. D.content disk.inner };

    ghost may_leave = { λ disk left. D.may_leave disk.inner left };

    ghost honest = { D.honest };

    ghost faults = { λ disk. D.faults disk.inner };

    ghost called = { λ old call succeeded new. D.called old.inner call succeeded new.inner
        × (new.calls ≡ with_call call old.calls) };

    ghost stays = { λ disk is_honest. D.stays disk.inner is_honest };

    ghost are_bytes = { λ disk left is_honest. D.are_bytes disk.inner left is_honest };

    ghost keeps_byte = { λ old new call succeeded is_honest is.
        D.keeps_byte old.inner new.inner call succeeded is_honest is.0 };

    ghost few_faults = { λ disk. D.few_faults disk.inner };

    fn len(&mut self) -> Result<u64, Refusal> {
        self.calls.count();
        self.inner.len()
    }

    fn read_at(&mut self, at: u64, into: &mut [u8]) -> Result<(), Refusal> {
        self.calls.count();
        self.calls.read = self.calls.read.saturating_add(into.len() as u64);
        self.inner.read_at(at, into)
    }

    fn write_at(&mut self, at: u64, bytes: &[u8]) -> Result<(), Refusal> {
        self.calls.count();
        self.calls.written = self.calls.written.saturating_add(bytes.len() as u64);
        self.inner.write_at(at, bytes)
    }

    fn sync(&mut self) -> Result<(), Refusal> {
        self.calls.count();
        self.calls.syncs = self.calls.syncs.saturating_add(1);
        self.inner.sync()
    }
}
