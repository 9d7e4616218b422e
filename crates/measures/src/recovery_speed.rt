use crate::images::image_of;
use crate::measuring::CELLS;
use crate::times::Times;
use anyhow::Error;
use file_format::Format;
use recovery::{Recovered, recover};
use std::alloc::Global;
use std::env::{self, Env};
use std::fs::{self, Files};
use std::path::Path;
use std::time::{Clock, Instant};
use trial_kit::nanoseconds_of;
use world_actions::CELLS as MOST_CELLS;

/// How often each file is read and recovered.
const TURNS: u32 = 31;

/// The name of the file that is read, in the folder of temporary files.
const NAME: &str = "measures.image";

/// Times of recovery, in nanoseconds.
#[derive(Drop)]
pub struct RecoverySpeed {
    /// The times of reading the file of an image of 65,536 cells.
    pub read: Times,
    /// The times of recovering that image.
    pub image: Times,
    /// The times of recovering an image of 1,048,576 cells.
    pub large_image: Times,
    /// The times of recovering the image of 65,536 cells with a full segment.
    pub segment: Times,
    /// How many bytes that segment has.
    pub segment_bytes: u64,
    /// The sum of the recovered ticks and words. It is printed, so that the compiler can't
    /// leave out a recovery.
    pub sum: u64,
}

impl RecoverySpeed {
    /// Lists without a time, for a segment of so many bytes.
    pub fn new(alloc: Global, segment_bytes: u64) -> Self {
        RecoverySpeed {
            read: Times::new(alloc),
            image: Times::new(alloc),
            large_image: Times::new(alloc),
            segment: Times::new(alloc),
            segment_bytes,
            sum: 0,
        }
    }

    /// Times recovery of images, and of this segment.
    pub fn time_all<R: Clock + Files + Env + AllocGlobal>(
        &mut self,
        rt: &R,
        segment: &[u8],
    ) -> Result<(), Error> {
        let image = image_of(rt.alloc(), Format::First, CELLS as u32)?;
        self.time_image(rt, &image)?;
        self.time_segment(rt, &image, segment)?;
        self.time_large_image(rt)
    }

    // Writes the image to a file, and times reading that file and recovering its bytes.
    fn time_image<R: Clock + Files + Env + AllocGlobal>(
        &mut self,
        rt: &R,
        image: &[u8],
    ) -> Result<(), Error> {
        let path = env::temp_dir(rt)?.join(rt.alloc(), NAME)?;
        fs::write(rt, path.as_path(), image)?;
        let timed = self.time_file(rt, path.as_path());
        fs::remove_file(rt, path.as_path())?;
        timed
    }

    fn time_file<R: Clock + Files + AllocGlobal>(
        &mut self,
        rt: &R,
        path: Path<'_>,
    ) -> Result<(), Error> {
        for _ in 0..TURNS {
            let image = self.time_read(rt, path)?;
            let sum = time_recover(rt, rt.alloc(), &mut self.image, &image, &[])?;
            self.sum = self.sum.wrapping_add(sum);
        }
        Ok(())
    }

    fn time_read<R: Clock + Files + AllocGlobal>(
        &mut self,
        rt: &R,
        path: Path<'_>,
    ) -> Result<Vec<u8>, Error> {
        let start = Instant::now(rt)?;
        let image = fs::read(rt, path)?;
        self.read.push(nanoseconds_of(start.elapsed(rt)?))?;
        Ok(image)
    }

    fn time_segment<R: Clock + AllocGlobal>(
        &mut self,
        rt: &R,
        image: &[u8],
        segment: &[u8],
    ) -> Result<(), Error> {
        for _ in 0..TURNS {
            let sum = time_recover(rt, rt.alloc(), &mut self.segment, image, segment)?;
            self.sum = self.sum.wrapping_add(sum);
        }
        Ok(())
    }

    fn time_large_image<R: Clock + AllocGlobal>(&mut self, rt: &R) -> Result<(), Error> {
        let image = image_of(rt.alloc(), Format::Second, MOST_CELLS)?;
        for _ in 0..TURNS {
            let sum = time_recover(rt, rt.alloc(), &mut self.large_image, &image, &[])?;
            self.sum = self.sum.wrapping_add(sum);
        }
        Ok(())
    }
}

// Times recovery from image.a and log.a. Returns a number made of the recovered world.
fn time_recover<R: Clock>(
    rt: &R,
    alloc: Global,
    times: &mut Times,
    image: &[u8],
    log: &[u8],
) -> Result<u64, Error> {
    let start = Instant::now(rt)?;
    let found = recover(alloc, image, &[], log, &[])?;
    times.push(nanoseconds_of(start.elapsed(rt)?))?;
    Ok(number_of(&found))
}

fn number_of(found: &Recovered) -> u64 {
    found
        .words
        .iter()
        .fold(found.tick, |sum, word| sum.wrapping_add(*word))
}
