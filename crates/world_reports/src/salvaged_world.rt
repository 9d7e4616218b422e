//! A new world of what can be read of damaged files.
ghost use Rattle.std.specs.Prelude.{◌≡◌, ◌++◌, codes, Some, IsTrue, IfOk, IfErr, OnOk};
ghost use Rattle.world_actions.specs.World.{IsWorld};
ghost use Rattle.world_folder.specs.Ending.{IsDone};
ghost use Rattle.world_reports.specs.Reports.{NamesFailed};
ghost use Rattle.world_reports.specs.SalvagedWorld.{AreBytesOf, NamesLost, AreTakenOf, lost_of};
ghost use Rattle.world_reports.specs.SalvagedWorld.{failed_of, AreFailedNamed, parts_printed};
ghost use Rattle.world_reports.specs.SalvagedWorld.{IsSalvagedOf, IsSalvagedInto, IsMadeOf};
ghost use Rattle.world_reports.specs.SalvagedWorld.{ending_after};
ghost use Rattle.world_reports.specs.Texts.{image_part_text, log_part_text, run_text};
ghost use Rattle.world_reports.specs.Texts.{salvaged_text};
ghost use Rattle.disk_model.specs.FourFiles.{name_of};

use crate::copy::verify;
use crate::count::Counted;
use crate::dropped_files::Dropped;
use crate::new_files::{look_for_room, take_back, write_files};
use crate::two_tries::{TwoTries, is_lost, try_folder};
use crate::warnings::{warn_of, warn_of_failed};
use disk_model::{FourFiles, WorldFile};
use file_format::{CLOSED_GATE, OPEN_GATE};
use image_files::image_body;
use recovery::{Recovered, Slot};
use salvage::{ImagePart, LogPart, Salvaged, salvage};
use std::alloc::{AllocError, Global};
use std::{fmt, io};
use world_actions::Refusal;
use world_folder::{
    Ending, Failure, Finding, Folder, Guard, Source, Unreadable, WorldFault, WorldReport,
    older_finding,
};

/// Makes a world in an empty folder of what can be read of the files of another one, in which
/// nothing is written. It prints what it took of each file, which world the new files hold, and of
/// which files something was dropped. It makes its image, beside closed files. These files are
/// returned, and how the command ends: the world may be older if something was dropped, and is if
/// its guard says so. If it fails, the files that it made are removed, or named.
pub fn salvage_world<F: Source, T: Folder>(
    from: &mut F,
    into: &mut T,
) -> Result<(FourFiles<T::File>, Ending), Failure>
    ensures salvaged { IsTrue F.honest → IsTrue F.File.honest → IsTrue T.honest
        → IsTrue T.File.honest → IfOk result (λ done.
        IsSalvagedInto T.File.Disk (F.path from.old) done.0 done.1
        (F.history from.old) (F.history from.new) (T.history into.old) (T.history into.new)) }
    ensures done { IfOk result (λ done. IsDone done.1) }
{
    let guard = from.read_guard()?;
    look_for_room(from.path(), into)?;
    let read = try_folder(from);
    let mut made = FourFiles::each(false);
    match salvage_read(from, read, into, guard, &mut made) {
        Ok(done) => Ok(done),
        Err(ending) => Err(take_back(into, made, ending)),
    }
}

// Makes a world of what could be read of the files of a folder, and reports it.
fn salvage_read<F: Source, T: Folder>(
    from: &F,
    read: FourFiles<TwoTries>,
    into: &mut T,
    guard: Option<Guard>,
    made: &mut FourFiles<bool>,
) -> Result<(FourFiles<T::File>, Ending), Failure>
    ensures salvaged { IsTrue T.honest → IsTrue T.File.honest → IfOk result (λ done.
        IsMadeOf T.File.Disk guard read done.0 done.1 (T.history into.old) (T.history into.new)) }
    ensures done { IfOk result (λ done. IsDone done.1) }
{
    let lost = lost_of(&read);
    let failed = failed_of(&read);
    let taken = readable_in(from, read, into)?;
    let salvaged = salvaged_of(into.alloc(), &taken)?;
    let dropped = Dropped::of(&lost, &taken, &salvaged);
    print_parts(into, &salvaged)?;
    let bytes = bytes_of(into.alloc(), &salvaged.found)?;
    let files = write_files(into, &bytes, Slot::A, made)?;
    let reported = verify(into, &salvaged.found)?;
    warn_of_each(from, &failed, into)?;
    let older = older_finding(guard, salvaged.found.tick);
    warn_of(into, older)?;
    into.print(SalvagedInto(reported))?;
    into.print(dropped)?;
    Ok((files, ending_after(older, dropped)))
}

// How a command ends that dropped this of a world that is older than its guard, or isn't.
fn ending_after(older: Option<Finding>, dropped: Dropped) -> Ending
    ensures ends { result ≡ ending_after older dropped.0 }
    ensures done { IsDone result }
{
    match older {
        Some(_) => Ending::MayBeOlder,
        None => dropped.ending(),
    }
}

// Which files can't be read.
fn lost_of(read: &FourFiles<TwoTries>) -> FourFiles<bool>
    ensures { result ≡ lost_of read.now }
{
    read.map_ref(|file| file.value.is_err())
}

// The errors of the first tries of files that a second try could read.
fn failed_of(read: &FourFiles<TwoTries>) -> FourFiles<Option<io::Error>>
    ensures { result ≡ failed_of read.now }
{
    read.map_ref(|file| file.failed_once())
}

// Names on standard error each file that only a second try could read.
fn warn_of_each<F: Source, T: Folder>(
    from: &F,
    failed: &FourFiles<Option<io::Error>>,
    into: &mut T,
) -> Result<(), Failure>
    ensures named { IsTrue T.honest
        → OnOk result (AreFailedNamed failed.now (T.history into.old) (T.history into.new)) }
{
    warn_of_one(from, WorldFile::ImageA, failed.image_a, into)?;
    warn_of_one(from, WorldFile::ImageB, failed.image_b, into)?;
    warn_of_one(from, WorldFile::LogA, failed.log_a, into)?;
    warn_of_one(from, WorldFile::LogB, failed.log_b, into)
}

fn warn_of_one<F: Source, T: Folder>(
    from: &F,
    file: WorldFile,
    failed: Option<io::Error>,
    into: &mut T,
) -> Result<(), Failure>
    ensures named { IsTrue T.honest
        → OnOk result (NamesFailed failed (T.history into.old) (T.history into.new)) }
{
    let Some(error) = failed else {
        return Ok(());
    };
    let path = from.path_of(file.name())?;
    warn_of_failed(into, Some(Unreadable { path, error }))?;
    Ok(())
}

// The bytes of the files of a folder that can be read. A file that was lost has none, and is named.
fn readable_in<F: Source, T: Folder>(
    from: &F,
    read: FourFiles<TwoTries>,
    into: &mut T,
) -> Result<FourFiles<Vec<u8>>, Failure>
    ensures taken { IsTrue T.honest
        → IfOk result (λ files. AreTakenOf read files (T.history into.old) (T.history into.new)) }
{
    Ok(FourFiles {
        image_a: readable(from, WorldFile::ImageA, read.image_a, into)?,
        image_b: readable(from, WorldFile::ImageB, read.image_b, into)?,
        log_a: readable(from, WorldFile::LogA, read.log_a, into)?,
        log_b: readable(from, WorldFile::LogB, read.log_b, into)?,
    })
}

fn readable<F: Source, T: Folder>(
    from: &F,
    file: WorldFile,
    read: TwoTries,
    into: &mut T,
) -> Result<Vec<u8>, Failure>
    ensures bytes { IfOk result (AreBytesOf read.value) }
    ensures named { IsTrue T.honest
        → OnOk result (NamesLost read.value (T.history into.old) (T.history into.new)) }
{
    match read.value {
        Err(error) if is_lost(&error) => {
            into.print(LostLine(file, error))?;
            Ok(Vec::new(from.alloc()))
        }
        value => from.blame(file.name(), value),
    }
}

// The line on a file that was lost.
#[derive(Clone, Copy)]
struct LostLine(WorldFile, io::Error);

impl fmt::Display for LostLine {
    fn fmt<W: fmt::Write>(&self, f: &mut fmt::Formatter<W>) -> fmt::Result {
        write!(f, "{}: lost: {}", self.0.name(), self.1)
    }
}

fn salvaged_of(alloc: Global, files: &FourFiles<Vec<u8>>) -> Result<Salvaged, Failure>
    ensures salvaged { IfOk result (IsSalvagedOf files.now) }
    ensures world { IfOk result (λ salvaged. IsWorld salvaged.found.words.items) }
{
    match salvage(
        alloc,
        &files.image_a,
        &files.image_b,
        &files.log_a,
        &files.log_b,
    ) {
        Ok(salvaged) => Ok(salvaged),
        Err(Refusal::NoImage) => Err(Failure::NoWorld(WorldFault::NoImage)),
        Err(refusal) => Err(Failure::Refused(refusal)),
    }
}

// Prints what is taken of each file.
fn print_parts<T: Folder>(into: &mut T, salvaged: &Salvaged) -> Result<(), Failure>
    ensures printed { IsTrue T.honest
        → OnOk result (T.history into.new ≡ parts_printed salvaged.now (T.history into.old)) }
{
    let tick = salvaged.found.tick;
    into.print(ImageLine(WorldFile::ImageA, salvaged.image_a))?;
    into.print(ImageLine(WorldFile::ImageB, salvaged.image_b))?;
    into.print(LogLine(WorldFile::LogA, salvaged.log_a, tick))?;
    into.print(LogLine(WorldFile::LogB, salvaged.log_b, tick))?;
    Ok(())
}

// The line on what is taken of an image.
#[derive(Clone, Copy)]
struct ImageLine(WorldFile, ImagePart);

impl fmt::Display for ImageLine {
    ghost output = { λ line. Some (name_of line.0 ++ codes ": " ++ image_part_text line.1) };

    fn fmt<W: fmt::Write>(&self, f: &mut fmt::Formatter<W>) -> fmt::Result {
        write!(f, "{}: ", self.0.name())?;
        match self.1 {
            ImagePart::Closed => f.write_str("closed"),
            ImagePart::Whole { tick } => write!(f, "whole, tick {tick}"),
            ImagePart::Dropped => f.write_str("damaged, nothing is taken"),
        }
    }
}

// The line on what is taken of a log, of a world up to a tick.
#[derive(Clone, Copy)]
struct LogLine(WorldFile, LogPart, u64);

impl fmt::Display for LogLine {
    ghost output = { λ line. Some (name_of line.0 ++ codes ": " ++ log_part_text line.1 line.2) };

    fn fmt<W: fmt::Write>(&self, f: &mut fmt::Formatter<W>) -> fmt::Result {
        let LogLine(file, part, to) = *self;
        write!(f, "{}: ", file.name())?;
        match part {
            LogPart::Closed => f.write_str("closed"),
            LogPart::Dropped => f.write_str("damaged, nothing is taken"),
            LogPart::Whole { base, ticks } => write!(f, "whole, {}", Run(base, ticks, to)),
            LogPart::Cut { at, base, ticks } => {
                write!(f, "damaged from byte {at} on, {}", Run(base, ticks, to))
            }
        }
    }
}

// The ticks of a log after one of them, and how many they are, of a world up to a tick.
#[derive(Clone, Copy)]
struct Run(u64, usize, u64);

impl fmt::Display for Run {
    ghost output = { λ run. Some (run_text run.0 run.1 run.2) };

    fn fmt<W: fmt::Write>(&self, f: &mut fmt::Formatter<W>) -> fmt::Result {
        let Run(base, ticks, to) = *self;
        let ticks = Counted(ticks, "tick");
        if base > to {
            write!(
                f,
                "{ticks} after tick {base}, which is lost: nothing is taken"
            )
        } else {
            write!(f, "{ticks} after tick {base}")
        }
    }
}

// The report on a world that was salvaged.
#[derive(Clone, Copy)]
struct SalvagedInto(WorldReport);

impl fmt::Display for SalvagedInto {
    ghost output = { λ report. Some (salvaged_text report.0.tick report.0.from) };

    fn fmt<W: fmt::Write>(&self, f: &mut fmt::Formatter<W>) -> fmt::Result {
        write!(f, "salvaged {}", self.0)
    }
}

// The bytes of the files of a world: its image, beside closed files.
fn bytes_of(alloc: Global, world: &Recovered) -> Result<FourFiles<Vec<u8>>, AllocError>
    requires { IsWorld world.now.words.items }
{
    let mut image_a = vec![in alloc; OPEN_GATE]?;
    let body = image_body(alloc, world.tick, &world.words)?;
    image_a.extend_from_slice(&body)?;
    Ok(FourFiles {
        image_a,
        image_b: vec![in alloc; CLOSED_GATE]?,
        log_a: vec![in alloc; CLOSED_GATE]?,
        log_b: vec![in alloc; CLOSED_GATE]?,
    })
}
