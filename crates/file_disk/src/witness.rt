//! A look at a file beside the `FileDisk` that writes it.
use crate::locks::lock;
use std::fs::{File, Metadata};
use std::io;
use std::time::Clock;

/// Another descriptor of a disk's file. It can neither read nor write the file, nor hand it out.
#[derive(Drop)]
pub struct Witness {
    file: File,
}

impl Witness {
    pub(crate) fn of(file: &File) -> io::Result<Self> {
        Ok(Witness {
            file: file.try_clone()?,
        })
    }

    /// The file as the system describes it, whatever names it has by now.
    pub fn metadata(&self) -> io::Result<Metadata> {
        self.file.metadata()
    }

    /// Locks the file for its writer, as `lock` does.
    pub fn lock<R: Clock>(&self, rt: &R) -> io::Result<()> {
        lock(rt, &self.file)
    }
}
