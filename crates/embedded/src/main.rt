//! A world in its own program: one thread, the four files of a folder, and a client
//! on standard input.
//!
//! The folder is `world`, which `worldd create` makes. Lines are those of docs/FORMATS.md, and each
//! batch is answered once its tick is durable. The status is that of `worldd`.
#![tactic(auto)]

use capture_core::PlainCopy;
use command_line::take_standard_streams;
use file_disk::FileDisk;
use serial_world::SerialWorld;
use sessions::serve_lines;
use std::fs::{File, Files};
use std::io;
use std::time::Clock;
use world_actions::Refusal;
use world_folder::{Ending, Exit, Failure, SystemFolder, blame, failure_of, open_files};

/// The folder of the world.
const FOLDER: &str = "world";

/// An image is written after so many ticks.
const EVERY: u32 = 4096;

fn main(rt: HostRuntime) -> Exit {
    // Before a file of a world: it must not get the descriptor of a standard stream that is closed.
    let null = blame(rt.alloc(), "/dev", "null", take_standard_streams(&rt));
    let _null = match null {
        Ok(null) => null,
        Err(failure) => return Exit::plain(Ending::Failed(failure)),
    };
    Exit::plain(Ending::of_command(play(&rt)))
}

// Opens the world, answers the batches of standard input, and gives the files back at its end.
fn play<R: Input + Print + Eprint + Clock + Files<File = File> + AllocGlobal + Clone + Drop>(
    rt: &R,
) -> Result<(), Failure> {
    let mut folder = SystemFolder::new(rt, FOLDER);
    let files = open_files(&mut folder)?;
    let mut world = match SerialWorld::<PlainCopy, FileDisk>::open(rt.alloc(), files, EVERY) {
        Ok(world) => world,
        Err((files, Refusal::Device)) => return Err(failure_of(&folder, &files)),
        Err((_, refusal)) => return Err(Failure::Refused(refusal)),
    };
    let (mut input, mut output) = (rt.reader(), io::writer(rt));
    match serve_lines(rt.alloc(), &mut input, &mut output, &mut world) {
        Ok(()) => Ok(()),
        Err(refusal) => Err(Failure::Refused(refusal)),
    }
}
