use crate::case::{Case, digest, digest_of_bytes, folded};
use action_log::{LogState, read_log};
use disk_model::{Disk, ModelFile};
use image_files::{ImageState, read_image};
use recovery::recover;
use std::alloc::Global;
use world_actions::Refusal;

/// An image of one cell, 3, at tick 0.
pub const IMAGE: [u8; 25] = [
    1, 1, 0, 0, 0, 0, 0, 0, 0, 0, 0, 0, 0, 0, 0, 0, 0, 3, 0, 0, 0, 0, 0, 0, 0,
];

/// A segment of base 0, with a group of the one tick `set 0 5`.
pub const LOG: [u8; 28] = [
    1, 0, 0, 0, 0, 0, 0, 0, 0, 1, 1, 0, 1, 0, 1, 0, 0, 0, 0, 5, 0, 0, 0, 0, 0, 0, 0, 0,
];

/// A case that makes a file in memory.
#[derive(Drop)]
pub struct NewFile {
    alloc: Global,
}

impl Case for NewFile {
    fn name() -> &'static str {
        "ModelFile::new"
    }

    fn refusal() -> Refusal {
        Refusal::NoMemory
    }

    fn set_up(alloc: Global) -> Result<Self, Refusal> {
        Ok(NewFile { alloc })
    }

    fn call(&mut self) -> Result<u64, Refusal> {
        let file = file_of(self.alloc, &IMAGE)?;
        Ok(digest_of_bytes(file.durable()))
    }

    fn seen(&mut self) -> u64 {
        0
    }
}

/// A file of these bytes.
pub fn file_of(alloc: Global, bytes: &[u8]) -> Result<ModelFile, Refusal> {
    ModelFile::new(alloc, Vec::from_slice(alloc, bytes)?)
}

// A number for the durable and the present bytes of a file.
fn seen_of(file: &ModelFile) -> u64 {
    folded(digest_of_bytes(file.durable()), digest_of_bytes(file.now()))
}

/// A case that reserves memory for a longer file.
#[derive(Drop)]
pub struct ReserveFile {
    file: ModelFile,
}

impl Case for ReserveFile {
    fn name() -> &'static str {
        "ModelFile::reserve"
    }

    fn refusal() -> Refusal {
        Refusal::NoMemory
    }

    fn set_up(alloc: Global) -> Result<Self, Refusal> {
        Ok(ReserveFile {
            file: file_of(alloc, &IMAGE)?,
        })
    }

    fn call(&mut self) -> Result<u64, Refusal> {
        self.file.reserve(1_000)?;
        Ok(0)
    }

    fn seen(&mut self) -> u64 {
        seen_of(&self.file)
    }
}

/// A case that writes past the end of a file.
#[derive(Drop)]
pub struct GrowFile {
    file: ModelFile,
}

impl Case for GrowFile {
    fn name() -> &'static str {
        "ModelFile::write_at"
    }

    fn refusal() -> Refusal {
        Refusal::Device
    }

    fn set_up(alloc: Global) -> Result<Self, Refusal> {
        Ok(GrowFile {
            file: file_of(alloc, &IMAGE)?,
        })
    }

    fn call(&mut self) -> Result<u64, Refusal> {
        if self.file.now().len() < 25 {
            return Ok(0);
        }
        self.file.write_at(25, &[7; 100])?;
        Ok(1)
    }

    fn seen(&mut self) -> u64 {
        seen_of(&self.file)
    }
}

/// A case that reads an image.
#[derive(Drop)]
pub struct ReadImage {
    alloc: Global,
}

impl Case for ReadImage {
    fn name() -> &'static str {
        "read_image"
    }

    fn refusal() -> Refusal {
        Refusal::NoMemory
    }

    fn set_up(alloc: Global) -> Result<Self, Refusal> {
        Ok(ReadImage { alloc })
    }

    fn call(&mut self) -> Result<u64, Refusal> {
        match read_image(self.alloc, &IMAGE)? {
            ImageState::Open { tick, words } => Ok(folded(digest(&words), tick)),
            ImageState::Closed => Ok(0),
        }
    }

    fn seen(&mut self) -> u64 {
        0
    }
}

/// A case that reads a segment.
#[derive(Drop)]
pub struct ReadLog {
    alloc: Global,
}

impl Case for ReadLog {
    fn name() -> &'static str {
        "read_log"
    }

    fn refusal() -> Refusal {
        Refusal::NoMemory
    }

    fn set_up(alloc: Global) -> Result<Self, Refusal> {
        Ok(ReadLog { alloc })
    }

    fn call(&mut self) -> Result<u64, Refusal> {
        match read_log(self.alloc, &LOG)? {
            LogState::Open { base, ticks } => Ok(folded(base, ticks.len() as u64)),
            LogState::Closed => Ok(0),
        }
    }

    fn seen(&mut self) -> u64 {
        0
    }
}

/// A case that recovers a world.
#[derive(Drop)]
pub struct Recover {
    alloc: Global,
}

impl Case for Recover {
    fn name() -> &'static str {
        "recover"
    }

    fn refusal() -> Refusal {
        Refusal::NoMemory
    }

    fn set_up(alloc: Global) -> Result<Self, Refusal> {
        Ok(Recover { alloc })
    }

    fn call(&mut self) -> Result<u64, Refusal> {
        let found = recover(self.alloc, &IMAGE, &[], &LOG, &[])?;
        Ok(folded(digest(&found.words), found.tick))
    }

    fn seen(&mut self) -> u64 {
        0
    }
}
