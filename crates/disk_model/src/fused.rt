ghost use Rattle.std.specs.Prelude.{◌≤◌, ◌↔◌, ◌≡◌, ◌+◌, ◌-◌, Err, IsTrue, Some, None, Result};
ghost use Rattle.std.specs.Prelude.{Option};
ghost use Rattle.disk_model.specs.Disk.{min-last_count, HasByte};
ghost use Rattle.disk_model.specs.Fused.{Fuse, counted_down, IsDue, fault_count, more_faults};
ghost use Rattle.disk_model.specs.Fused.{CallsThrough, keeps_through};

use crate::Disk;
use std::marker::Model;
use world_actions::Refusal;

/// A disk whose calls can be made to fail. Contracts see the disk below, the number of calls that
/// pass before the one that fails, and the number that the fuse failed.
#[derive(Drop)]
pub struct Fused<D> {
    inner: D,
    left: Option<u64>,
    faults: u64,
}

impl<D> Model for Fused<D> {
    ghost use Rattle.disk_model.specs.Fused.{Fuse, fuse_code};

    ghost Value = { Fuse D };

    ghost coded = { fuse_code D.code };

    ghost view = { λ disk. record { inner = disk.inner; left = disk.left; faults = disk.faults } };
}

impl<D> Fused<D> {
    /// Makes a disk that isn't armed.
    pub fn new(inner: D) -> Self
        ensures { result ≡ record { inner = inner; left = None; faults = 0 } }
    {
        Fused {
            inner,
            left: None,
            faults: 0,
        }
    }

    /// Returns the disk below.
    pub fn inner(&self) -> &D
        ensures { result.now ≡ self.now.inner }
    {
        &self.inner
    }

    /// Gives the disk below back.
    pub fn into_inner(self) -> D
        ensures { result ≡ self.inner }
    {
        let Fused {
            inner,
            left: _,
            faults: _,
        } = self;
        inner
    }

    /// Arms the fuse: the k-th call from now fails, and the calls after it pass.
    pub fn arm(&mut self, k: u64)
        requires { 1 ≤ k }
        ensures { self.new ≡ record self.old { left = Some (k - 1) } }
    {
        self.left = Some(k - 1);
    }

    /// Disarms the fuse: every call passes.
    pub fn disarm(&mut self)
        ensures { self.new ≡ record self.old { left = None } }
    {
        self.left = None;
    }

    // Counts a call, and returns true if it is to fail.
    fn burns(&mut self) -> bool
        ensures counts { self.new ≡ record self.old { left = counted_down self.old.left } }
        ensures due { IsTrue result ↔ IsDue self.old }
    {
        match self.left {
            None => false,
            Some(0) => {
                self.disarm();
                true
            }
            Some(more) => {
                self.left = Some(more - 1);
                false
            }
        }
    }

    // Counts a failure of the fuse.
    fn failed<T>(&mut self) -> Result<T, Refusal>
        ensures counts { self.new
            ≡ record self.old { faults = more_faults self.old } }
        ensures err { result ≡ Err Refusal.Device }
    {
        self.faults = self.faults.saturating_add(1);
        Err(Refusal::Device)
    }
}

impl<D: Disk> Disk for Fused<D> {
    ghost content = { λ disk. D.content disk.inner };

    ghost may_leave = { λ disk left. D.may_leave disk.inner left };

    ghost honest = { D.honest };

    ghost faults = { fault_count D.faults };

    ghost called = { CallsThrough D.called };

    ghost stays = { λ disk is_honest. D.stays disk.inner is_honest };

    ghost are_bytes = { λ disk left is_honest. D.are_bytes disk.inner left is_honest };

    ghost keeps_byte = { λ old new call succeeded is_honest.
        keeps_through D.called (λ disk. HasByte (D.may_leave disk))
        (λ old new call succeeded. D.keeps_byte old new call succeeded is_honest)
        old new call succeeded };

    ghost few_faults = { λ disk. min-last_count (D.faults disk.inner + disk.faults) };

    /// The call that is due isn't made below.
    fn len(&mut self) -> Result<u64, Refusal> {
        if self.burns() {
            return self.failed();
        }
        self.inner.len()
    }

    /// The call that is due isn't made below.
    fn read_at(&mut self, at: u64, into: &mut [u8]) -> Result<(), Refusal> {
        if self.burns() {
            return self.failed();
        }
        self.inner.read_at(at, into)
    }

    /// The write that is due is made below, and then reported as failed.
    fn write_at(&mut self, at: u64, bytes: &[u8]) -> Result<(), Refusal> {
        let burns = self.burns();
        self.inner.write_at(at, bytes)?;
        if burns {
            return self.failed();
        }
        Ok(())
    }

    /// The call that is due isn't made below.
    fn sync(&mut self) -> Result<(), Refusal> {
        // A failed sync makes nothing durable.
        if self.burns() {
            return self.failed();
        }
        self.inner.sync()
    }
}
