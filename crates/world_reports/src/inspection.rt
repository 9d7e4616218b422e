ghost use Rattle.std.specs.Prelude.{◌≡◌, Some, IsTrue, IfOk, IfErr, OnOk, string_bytes};
ghost use Rattle.disk_model.specs.FourFiles.{value_of};
ghost use Rattle.world_folder.specs.Ending.{IsDone};
ghost use Rattle.world_reports.specs.Inspection.{IsLineOf, IsFileReport, IsInspected, words_text};
ghost use Rattle.world_reports.specs.Inspection.{AreFilesReported, file_line_text, words_printed};
ghost use Rattle.world_reports.specs.Reports.{IsGuardRead};

use crate::copy::{Seen, found_in, look_at_folder};
use crate::count::Counted;
use crate::file_reports::{FileReport, report_image, report_log};
use crate::warnings::{warn_of, warn_of_failed};
use disk_model::{FourFiles, WorldFile};
use recovery::Recovered;
use std::alloc::{AllocError, Global};
use std::{fmt, io};
use world_folder::{Ending, Failure, FoundReport, OnLoss, Reading, Source, checks_in};

/// Prints how each file of a folder reads, and then which world they hold, with its words if they
/// are asked for. On standard error it names what was lost. A server may write the world meanwhile.
/// This writes nothing into the folder. It returns how the command ends.
pub fn inspect<F: Source>(
    folder: &mut F,
    with_words: bool,
    on_loss: OnLoss,
) -> Result<Ending, Failure>
    ensures reported { IsTrue F.honest → IsTrue F.File.honest → IfOk result (λ ending.
        IsGuardRead on_loss (λ checks. IsInspected with_words checks ending)
        (F.history folder.old) (F.history folder.new)) }
    ensures done { IfOk result IsDone }
{
    let checks = checks_in(folder, on_loss)?;
    let seen = look_at_folder(folder, Reading::Synced)?;
    print_files(folder, &seen)?;
    let (_, found) = found_in(folder, seen.files, checks)?;
    warn_of_failed(folder, seen.failed)?;
    warn_of(folder, found.finding)?;
    folder.print(FoundReport::of(&found.world))?;
    print_words(folder, &found.world, with_words)?;
    Ok(Ending::of_finding(found.finding))
}

// Prints the words of a world, if they are asked for.
fn print_words<F: Source>(
    folder: &mut F,
    found: &Recovered,
    with_words: bool,
) -> Result<(), Failure>
    ensures printed { IsTrue F.honest
        → OnOk result
        (F.history folder.new
        ≡ words_printed with_words found.now.words.items (F.history folder.old)) }
{
    if with_words {
        let line = line_of(folder.alloc(), &found.words)?;
        folder.print(line)?;
    }
    Ok(())
}

// Prints how each file reads.
fn print_files<F: Source>(folder: &mut F, seen: &Seen) -> Result<(), Failure>
    ensures printed { IsTrue F.honest
        → OnOk result (AreFilesReported seen.now (F.history folder.old) (F.history folder.new)) }
{
    let alloc = folder.alloc();
    let lines = FourFiles {
        image_a: file_line(alloc, WorldFile::ImageA, seen)?,
        image_b: file_line(alloc, WorldFile::ImageB, seen)?,
        log_a: file_line(alloc, WorldFile::LogA, seen)?,
        log_b: file_line(alloc, WorldFile::LogB, seen)?,
    };
    folder.print(lines.image_a)?;
    folder.print(lines.image_b)?;
    folder.print(lines.log_a)?;
    folder.print(lines.log_b)?;
    Ok(())
}

// The line on a file: its name, how it reads, if it can be read, and how long it is.
#[derive(Clone, Copy)]
struct FileLine {
    file: WorldFile,
    reported: io::Result<FileReport>,
    length: u64,
}

fn file_line(alloc: Global, file: WorldFile, seen: &Seen) -> Result<FileLine, AllocError>
    ensures { IfOk result
        (IsLineOf file (value_of file seen.now.files) (value_of file seen.now.lengths)) }
{
    let reported = match seen.files.get(file) {
        Ok(bytes) => Ok(reported_of(alloc, file, bytes)?),
        Err(error) => Err(*error),
    };
    Ok(FileLine {
        file,
        reported,
        length: *seen.lengths.get(file),
    })
}

fn reported_of(alloc: Global, file: WorldFile, bytes: &[u8]) -> Result<FileReport, AllocError>
    ensures { IfOk result (IsFileReport file bytes.now) }
{
    match file {
        WorldFile::ImageA | WorldFile::ImageB => report_image(alloc, bytes),
        WorldFile::LogA | WorldFile::LogB => Ok(report_log(bytes)),
    }
}

impl fmt::Display for FileLine {
    ghost output = { λ line. file_line_text line };

    fn fmt<W: fmt::Write>(&self, f: &mut fmt::Formatter<W>) -> fmt::Result {
        let name = self.file.name();
        let length = Counted(self.length as usize, "byte");
        match self.reported {
            Ok(reported) => write!(f, "{name}: {reported}, {length}"),
            Err(error) => write!(f, "{name}: unreadable: {error}"),
        }
    }
}

// All words, one space between.
fn line_of(alloc: Global, words: &[u64]) -> Result<String, AllocError>
    ensures { IfOk result (λ line. string_bytes line ≡ words_text words.now) }
{
    let mut line = String::new(alloc);
    let Some((first, rest)) = words.split_first() else {
        return Ok(line);
    };
    write!(line, "{first}")?;
    for word in rest {
        write!(line, " {word}")?;
    }
    Ok(line)
}
