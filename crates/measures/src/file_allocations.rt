use crate::allocations::report_most;
use crate::counted::{File, empty_file};
use crate::images::image_of;
use crate::logs::Log;
use crate::measuring::CELLS;
use crate::rounds::Rounds;
use action_log::GROUP_TICKS;
use anyhow::Error;
use batches::{Batch, BatchReader, Fed};
use capture_core::Capture;
use disk_model::FourFiles;
use file_format::Format;
use ping_pong::PingPong;
use recovery::recover;
use serial_world::SerialWorld;
use sessions::World;
use std::alloc::Global;
use trial_kit::{count_each, end_stretch};
use world_actions::{CELLS as MOST_CELLS, Refusal};
use world_start::fresh_files;
use zigzag::Zigzag;

/// The bytes of a batch of four lines.
const LINES: &[u8] = b"set 0 5\nadd 0 2\nmove 0 1 3\nget 1\nend\n";

/// More bytes than a file of the served world has.
const FILE_BYTES: u64 = 1000;

/// After how many ticks the served world makes a checkpoint. It has only one here.
const EVERY: u32 = 1000;

/// Makes all steps of a job of each keeper.
pub fn step_keepers<R: Print + AllocGlobal>(rt: &R) -> Result<(), Error> {
    step_log(rt, &mut Log::new(rt.alloc())?)?;
    write_image::<R, Zigzag>(rt, "zigzag")?;
    write_image::<R, PingPong>(rt, "pingpong")
}

fn step_log<R: Print + AllocGlobal>(rt: &R, log: &mut Log) -> Result<(), Error> {
    log.write()?;
    write_group(rt, log)?;
    write_switch(rt, log)
}

fn write_group<R: Print + AllocGlobal>(rt: &R, log: &mut Log) -> Result<(), Error> {
    log.push_group(rt.alloc(), GROUP_TICKS)?;
    count_each(rt.alloc());
    let written = log.write();
    end_stretch(rt.alloc());
    written?;
    report_most(rt, "a group of 32 ticks logged", 0)
}

fn write_switch<R: Print + AllocGlobal>(rt: &R, log: &mut Log) -> Result<(), Error> {
    log.switch()?;
    count_each(rt.alloc());
    let written = log.write();
    end_stretch(rt.alloc());
    written?;
    report_most(rt, "a switch logged", 0)
}

fn write_image<R: Print + AllocGlobal, C: Capture>(rt: &R, method: &str) -> Result<(), Error> {
    let mut rounds = Rounds::<C>::new(rt.alloc(), CELLS as u32)?;
    rounds.begin()?;
    count_each(rt.alloc());
    let written = rounds.write();
    end_stretch(rt.alloc());
    written?;
    print!(rt; "an image written by ")?;
    report_most(rt, method, 0)
}

/// Reads a batch, and serves it.
pub fn run_batch<R: Print + AllocGlobal>(rt: &R) -> Result<(), Error> {
    let mut reader = BatchReader::new(rt.alloc())?;
    read_batch(rt, &mut reader)?;
    let mut served = new_world(rt.alloc())?;
    serve_batch(rt, &mut served, reader.batch())
}

fn read_batch<R: Print + AllocGlobal>(rt: &R, reader: &mut BatchReader) -> Result<(), Error> {
    count_each(rt.alloc());
    let (_, fed) = reader.take(LINES);
    end_stretch(rt.alloc());
    if fed != Fed::Whole {
        return Err(Error::from(Refusal::BadLine));
    }
    report_most(rt, "a batch of four lines read", 0)
}

fn serve_batch<R: Print + AllocGlobal>(
    rt: &R,
    served: &mut SerialWorld<Zigzag, File>,
    batch: &Batch,
) -> Result<(), Error> {
    let mut text = Vec::new(rt.alloc());
    count_each(rt.alloc());
    let answer = served.batch(batch, &mut text);
    end_stretch(rt.alloc());
    answer?;
    report_most(rt, "that batch served", 2)
}

// A world of two cells on new files.
fn new_world(alloc: Global) -> Result<SerialWorld<Zigzag, File>, Refusal> {
    let files = FourFiles {
        image_a: empty_file(alloc, FILE_BYTES)?,
        image_b: empty_file(alloc, FILE_BYTES)?,
        log_a: empty_file(alloc, FILE_BYTES)?,
        log_b: empty_file(alloc, FILE_BYTES)?,
    };
    match fresh_files(alloc, 2, files) {
        Ok(files) => opened(alloc, files),
        Err((_, refusal)) => Err(refusal),
    }
}

fn opened(alloc: Global, files: FourFiles<File>) -> Result<SerialWorld<Zigzag, File>, Refusal> {
    match SerialWorld::open(alloc, files, EVERY) {
        Ok(served) => Ok(served),
        Err((_, refusal)) => Err(refusal),
    }
}

/// Recovers the largest image, by itself and with a full segment.
pub fn recover_files<R: Print + AllocGlobal>(rt: &R) -> Result<(), Error> {
    let image = image_of(rt.alloc(), Format::Second, MOST_CELLS)?;
    recover_one(rt, &image, &[])?;
    report_most(rt, "an image of 1,048,576 cells recovered", 1)?;
    recover_segment(rt, &image, &mut Log::new(rt.alloc())?)
}

fn recover_segment<R: Print + AllocGlobal>(
    rt: &R,
    image: &[u8],
    log: &mut Log,
) -> Result<(), Error> {
    log.write_segment(rt.alloc())?;
    recover_one(rt, image, log.first_segment())?;
    report_most(rt, "the same with a full segment", 1)
}

fn recover_one<R: AllocGlobal>(rt: &R, image: &[u8], log: &[u8]) -> Result<(), Refusal> {
    count_each(rt.alloc());
    let found = recover(rt.alloc(), image, &[], log, &[]);
    end_stretch(rt.alloc());
    found?;
    Ok(())
}
