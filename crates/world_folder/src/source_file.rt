//! A file of a world that is only read.
ghost use Rattle.std.specs.Prelude.{◌≡◌, true, take, length, IsTrue, IfOk, OnOk};
ghost use Rattle.disk_model.specs.Disk.{Length};
ghost use Rattle.world_folder.specs.Heads.{head_of, IsHeadAsked};
ghost use Rattle.world_folder.specs.ReadIn.{IsFileRead};

use crate::folders::WorldDisk;
use crate::heads::{IMAGE_HEAD, SEGMENT_HEAD, read_head};
use crate::reading::{explain, read_whole};
use disk_model::{Disk, WorldFile};
use std::alloc::Global;
use std::io;

/// A file that is open only to be read: no call of it writes.
#[derive(Drop)]
pub struct SourceFile<D> {
    disk: D,
}

impl<D: WorldDisk> SourceFile<D> {
    /// A disk of which only reads are left.
    pub fn of(disk: D) -> Self
        ensures { result.disk ≡ disk }
    {
        SourceFile { disk }
    }

    /// Reads all that the format of this file of a world reads.
    pub fn read_whole(&mut self, alloc: Global, file: WorldFile) -> io::Result<Vec<u8>>
        ensures read { IsTrue D.honest
            → IfOk result (λ bytes. IsFileRead file (D.content self.old.disk) bytes.items) }
        ensures kept { IsTrue D.honest
            → IfOk result (λ _. D.content self.new.disk ≡ D.content self.old.disk) }
    {
        let bytes = read_whole(alloc, file, &mut self.disk);
        explain(&mut self.disk, bytes)
    }

    /// Reads the head of this file of a world, by one call after it asked for the length.
    pub fn read_head(&mut self, alloc: Global, file: WorldFile) -> io::Result<Vec<u8>>
        ensures head { IsTrue D.honest
            → IfOk result (λ head. head.items ≡ take (head_of file) (D.content self.old.disk)) }
        ensures asked { IfOk result
            (λ head. IsHeadAsked D.called head.items self.old.disk self.new.disk) }
        ensures kept { IsTrue D.honest
            → IfOk result (λ _. D.content self.new.disk ≡ D.content self.old.disk) }
    {
        let head = read_head(alloc, &mut self.disk, head_of(file));
        explain(&mut self.disk, head)
    }

    /// Asks how long the file is.
    pub fn read_length(&mut self) -> io::Result<u64>
        ensures length { IsTrue D.honest
            → IfOk result (λ size. size ≡ length (D.content self.old.disk)) }
        ensures asked { OnOk result (D.called self.old.disk Length true self.new.disk) }
        ensures kept { IsTrue D.honest
            → IfOk result (λ _. D.content self.new.disk ≡ D.content self.old.disk) }
    {
        let size = self.disk.len();
        explain(&mut self.disk, size)
    }
}

// How many bytes of a file are its head.
fn head_of(file: WorldFile) -> usize
    ensures { result ≡ head_of file }
{
    match file {
        WorldFile::ImageA | WorldFile::ImageB => IMAGE_HEAD,
        WorldFile::LogA | WorldFile::LogB => SEGMENT_HEAD,
    }
}
