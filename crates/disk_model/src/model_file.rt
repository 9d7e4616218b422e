ghost use Rattle.std.specs.Prelude.{◌≡◌, ◌+◌, ◌≤◌, ◌<◌, ◌↔◌, true, IsTrue, IsOk, length, take};
ghost use Rattle.std.specs.Prelude.{drop, Err, IfOk, IfErr, OnOk, OnErr, vec_capacity, min, is_ok};
ghost use Rattle.disk_model.specs.Disk.{overwritten, last_count, min-last_count, Torn, Follows};
ghost use Rattle.disk_model.specs.Disk.{Within, Only, counted, IsDeviceFault, Write, Sync};
ghost use Rattle.disk_model.specs.FileState.{IsUncertain, IsSynced, Writes, Syncs, after_fault};
ghost use Rattle.disk_model.specs.FileState.{Calls};
ghost use Rattle.disk_model.specs.FileKept.{IsKept};
ghost use Rattle.disk_model.specs.CrashOutcome.{IsCrashOutcome, content_stays, calls_keep_byte};

use crate::Disk;
use crate::places::{clear_from, copy_from, grow, write_marked};
use std::alloc::Global;
use std::marker::Model;
use world_actions::Refusal;

/// A file in memory that is exactly the disk model. Contracts see the durable bytes, the content
/// that reads give, and the places that lie in unsynced writes.
#[derive(Drop)]
pub struct ModelFile {
    durable: Vec<u8>,
    content: Vec<u8>,
    // For each place of the content, true if it lies in an unsynced write.
    unsynced: Vec<bool>,
    // No place below this one lies in an unsynced write.
    first_unsynced: usize,
    faults: u64,
    ghost kept: { IsKept durable.items content.items unsynced.items first_unsynced
        (vec_capacity durable) },
}

impl Model for ModelFile {
    ghost use Rattle.disk_model.specs.FileState.{FileState};
    ghost use Rattle.disk_model.specs.FileKept.{file_code};

    ghost Value = { FileState };

    ghost coded = { file_code };

    ghost view = { λ file. record {
      durable = file.durable.items;
      content = file.content.items;
      unsynced = file.unsynced.items;
      faults = file.faults;
      in_order = file.kept.in_order;
    } };
}

impl ModelFile {
    /// Makes a file with these bytes, all of them durable. It takes memory for a copy of the bytes,
    /// and for a mark for each.
    pub fn new(alloc: Global, bytes: Vec<u8>) -> Result<Self, Refusal>
        ensures synced { IfOk result (IsSynced bytes.items) }
        ensures leaves { IfOk result (λ file. Only bytes.items (IsCrashOutcome file)) }
        ensures no_faults { IfOk result (λ file. file.faults ≡ 0) }
        ensures memory { IfErr result (λ refusal. refusal ≡ Refusal.NoMemory) }
    {
        let content = Vec::from_slice(alloc, &bytes)?;
        let unsynced = vec![in alloc; false; bytes.len()]?;
        Ok(ModelFile {
            first_unsynced: bytes.len(),
            durable: bytes,
            content,
            unsynced,
            faults: 0,
        })
    }

    /// Takes the memory for a file of this length. Until a crash no write within that
    /// length takes any.
    pub fn reserve(&mut self, len: u64) -> Result<(), Refusal>
        ensures same { self.new ≡ self.old }
        ensures memory { IfErr result (λ refusal. refusal ≡ Refusal.NoMemory) }
    {
        let len = len as usize;
        grow(&mut self.durable, len)?;
        grow(&mut self.content, len)?;
        grow(&mut self.unsynced, len)?;
        Ok(())
    }

    /// Returns the bytes that are durable.
    pub fn durable(&self) -> &[u8]
        ensures { result.now ≡ self.now.durable }
    {
        &self.durable
    }

    /// Returns the bytes that reads give.
    pub fn now(&self) -> &[u8]
        ensures { result.now ≡ self.now.content }
    {
        &self.content
    }

    /// True if a crash may change the byte at a place, or leave none there.
    pub fn uncertain(&self, place: u64) -> bool
        ensures { IsTrue result ↔ IsUncertain self.now place }
    {
        let place = place as usize;
        place >= self.durable.len() || self.unsynced[place]
    }

    /// True if a crash may leave these bytes. It takes no memory.
    pub fn allows(&self, left: &[u8]) -> bool
        ensures { IsTrue result ↔ IsCrashOutcome self.now left.now }
    {
        if left.len() < self.durable.len() || left.len() > self.content.len() {
            return false;
        }
        for i in 0..self.durable.len() {
            if !self.unsynced[i] && left[i] != self.durable[i] {
                return false;
            }
        }
        true
    }

    /// Crashes the file: it then has these bytes, all of them durable. It refuses exactly the bytes
    /// that a crash may not leave, and then hands the file back. It takes no memory.
    pub fn crash(self, left: Vec<u8>) -> Result<ModelFile, (ModelFile, Refusal)>
        ensures allowed { OnOk result (IsCrashOutcome self left.items) }
        ensures synced { IfOk result (IsSynced left.items) }
        ensures leaves { IfOk result (λ file. Only left.items (IsCrashOutcome file)) }
        ensures faults { IfOk result (λ file. file.faults ≡ self.faults) }
        ensures not_allowed { OnErr result (¬ IsCrashOutcome self left.items) }
        ensures impossible { IfErr result (λ refused. refused.1 ≡ Refusal.Impossible) }
        ensures unchanged { IfErr result (λ refused. refused.0 ≡ self) }
    {
        if !self.allows(&left) {
            return Err((self, Refusal::Impossible));
        }
        let ModelFile {
            durable: _,
            mut content,
            mut unsynced,
            first_unsynced: _,
            faults,
        } = self;
        copy_from(&mut content, &left, 0);
        clear_from(&mut unsynced, 0, left.len());
        Ok(ModelFile {
            first_unsynced: left.len(),
            durable: left,
            content,
            unsynced,
            faults,
        })
    }

    // Counts a failure.
    fn failed<T>(&mut self) -> Result<T, Refusal>
        ensures file { self.new ≡ after_fault self.old }
        ensures err { result ≡ Err Refusal.Device }
    {
        self.faults = self.faults.saturating_add(1);
        Err(Refusal::Device)
    }
}

impl Disk for ModelFile {
    ghost content = { λ file. file.content };

    ghost may_leave = { IsCrashOutcome };

    ghost honest = { true };

    ghost faults = { λ file. min file.faults last_count };

    ghost called = { Calls };

    ghost stays = { λ file _. content_stays file };

    ghost are_bytes = { λ file left _ outcome. outcome.are_bytes };

    ghost keeps_byte = { λ old new call succeeded _. calls_keep_byte old new call succeeded };

    ghost few_faults = { λ file. min-last_count file.faults };

    fn len(&mut self) -> Result<u64, Refusal>
        ensures length { IfOk result (λ len. len ≡ length self.old.content) }
        ensures succeeds { IsOk result }
        ensures unchanged { self.new ≡ self.old }
    {
        Ok(self.content.len() as u64)
    }

    fn read_at(&mut self, at: u64, into: &mut [u8]) -> Result<(), Refusal>
        requires { at + length into.old ≤ length self.old.content }
        ensures read { into.new ≡ take (length into.old) (drop at self.old.content) }
        ensures succeeds { IsOk result }
        ensures unchanged { self.new ≡ self.old }
    {
        let at = at as usize;
        into.copy_from_slice(&self.content[at..at + into.len()]);
        Ok(())
    }

    /// It takes memory only if it goes past the end. If that memory is refused, the call fails and
    /// is counted as a fault, and nothing is written.
    fn write_at(&mut self, at: u64, bytes: &[u8]) -> Result<(), Refusal>
        requires { at ≤ length self.old.content }
        ensures writes { OnOk result (Writes at bytes.now self.old self.new) }
        ensures fails { OnErr result (self.new ≡ after_fault self.old) }
        ensures inside_succeeds { at + length bytes.now ≤ length self.old.content → IsOk result }

        // The contract of `Disk`.
        ensures written { OnOk result
            (self.new.content ≡ overwritten self.old.content at bytes.now) }
        ensures torn { OnErr result (Torn at (length bytes.now) self.old.content self.new.content) }
        ensures crash { Follows (Torn at (length bytes.now))
            (IsCrashOutcome self.old) (IsCrashOutcome self.new) }
        ensures faults { min self.new.faults last_count
            ≡ counted (min self.old.faults last_count) result }
        ensures device { IsDeviceFault result }
        ensures called { Calls self.old (Write at bytes.now) (is_ok result) self.new }
    {
        let at = at as usize;
        let (durable, content) = (&mut self.durable, &mut self.content);
        match write_marked(durable, content, &mut self.unsynced, at, bytes) {
            Ok(()) => {
                self.first_unsynced = self.first_unsynced.min(at);
                Ok(())
            }
            Err(_) => self.failed(),
        }
    }

    /// It takes no memory.
    fn sync(&mut self) -> Result<(), Refusal>
        ensures syncs { Syncs self.old self.new }
        ensures succeeds { IsOk result }

        // The contract of `Disk`.
        ensures called { Calls self.old Sync (is_ok result) self.new }
        ensures crash { Within (IsCrashOutcome self.old) (IsCrashOutcome self.new) }
    {
        let from = self.first_unsynced;
        copy_from(&mut self.durable, &self.content, from);
        clear_from(&mut self.unsynced, from, self.content.len());
        self.first_unsynced = self.content.len();
        Ok(())
    }
}
