ghost use Rattle.std.specs.Prelude.{◌≡◌, ◌≢◌, ◌⊎◌, IsTrue, Err, IfOk, IfErr};

use crate::world_file::WorldFile;
use crate::{Disk, read_all};
use std::alloc::Global;
use world_actions::Refusal;

/// The four files of a world, or a value for each.
#[derive(Clone, Copy, Debug, Drop, PartialEq, Eq)]
pub struct FourFiles<T> {
    pub image_a: T,
    pub image_b: T,
    pub log_a: T,
    pub log_b: T,
}

impl<T> FourFiles<T> {
    ghost use Rattle.disk_model.specs.FourFiles.{EachFile, value_of};
    ghost use Rattle.std.specs.Fn.{FnReturnsAt};

    /// The value of this file.
    pub fn get(&self, file: WorldFile) -> &T
        ensures { result.now ≡ value_of file self.now }
    {
        match file {
            WorldFile::ImageA => &self.image_a,
            WorldFile::ImageB => &self.image_b,
            WorldFile::LogA => &self.log_a,
            WorldFile::LogB => &self.log_b,
        }
    }

    /// The results of a function on each value.
    pub fn map_ref<U, F: Fn(&T) -> U>(&self, f: F) -> FourFiles<U>
        requires { F.IsAlwaysCallable f }
        ensures { EachFile self.now result (FnReturnsAt F.Fn f) }
    {
        FourFiles {
            image_a: f(&self.image_a),
            image_b: f(&self.image_b),
            log_a: f(&self.log_a),
            log_b: f(&self.log_b),
        }
    }

    /// The same, of the values themselves.
    pub fn map<U, F: Fn(T) -> U>(self, f: F) -> FourFiles<U>
        requires { F.IsAlwaysCallable f }
        ensures { EachFile self result (F.post f) }
    {
        FourFiles {
            image_a: f(self.image_a),
            image_b: f(self.image_b),
            log_a: f(self.log_a),
            log_b: f(self.log_b),
        }
    }
}

impl<T: Copy> FourFiles<T> {
    ghost use Rattle.disk_model.specs.FourFiles.{each_of, with_value};

    /// Gives this file another value.
    pub fn set(&mut self, file: WorldFile, value: T)
        ensures { self.new ≡ with_value file value self.old }
    {
        match file {
            WorldFile::ImageA => self.image_a = value,
            WorldFile::ImageB => self.image_b = value,
            WorldFile::LogA => self.log_a = value,
            WorldFile::LogB => self.log_b = value,
        }
    }

    /// The same value for each file.
    pub fn each(value: T) -> Self
        ensures { result ≡ each_of value }
    {
        FourFiles {
            image_a: value,
            image_b: value,
            log_a: value,
            log_b: value,
        }
    }
}

impl FourFiles<Vec<u8>> {
    ghost use Rattle.std.specs.Prelude.{◌≡◌, []};
    ghost use Rattle.disk_model.specs.FourFiles.{EachFile};

    /// Four empty files.
    pub fn empty(alloc: Global) -> Self
        ensures { EachFile result result (λ bytes _. bytes.items ≡ []) }
    {
        FourFiles {
            image_a: Vec::new(alloc),
            image_b: Vec::new(alloc),
            log_a: Vec::new(alloc),
            log_b: Vec::new(alloc),
        }
    }
}

impl<D: Disk> FourFiles<D> {
    ghost use Rattle.disk_model.specs.FourFiles.{EachFile, KeepsFile, fault_counts, OneGrew};

    /// Reads all bytes of each file, in order. The first refusal ends it.
    pub fn read_all(&mut self, alloc: Global) -> Result<FourFiles<Vec<u8>>, Refusal>
        ensures bytes { IsTrue D.honest → IfOk result (λ read.
            EachFile self.old read (λ disk bytes. bytes.items ≡ D.content disk)) }
        ensures kept { IsTrue D.honest
            → EachFile self.old self.new (KeepsFile D.Disk) }
        ensures fault { result ≡ Err Refusal.Device
            → OneGrew (fault_counts D.faults self.old) (fault_counts D.faults self.new) }
        ensures no_fault { result ≢ Err Refusal.Device
            → fault_counts D.faults self.new ≡ fault_counts D.faults self.old }
        ensures refused { IfErr result (λ refusal.
            (refusal ≡ Refusal.Device) ⊎ (refusal ≡ Refusal.NoMemory)) }
    {
        Ok(FourFiles {
            image_a: read_all(alloc, &mut self.image_a)?,
            image_b: read_all(alloc, &mut self.image_b)?,
            log_a: read_all(alloc, &mut self.log_a)?,
            log_b: read_all(alloc, &mut self.log_b)?,
        })
    }
}
