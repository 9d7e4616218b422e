ghost use Rattle.std.specs.Prelude.{◌≡◌, ℕ, List, IsTrue, Err, IfOk, IfErr, OnOk};
ghost use Rattle.disk_model.specs.FourFiles.{EachFile, KeepsFile, fault_counts};
ghost use Rattle.action_log.specs.declared.format.TheConstants.{SEGMENT_BYTES_MAX};
ghost use Rattle.file_readers.specs.declared.image.TheConstants.{IMAGE_BYTES_MAX};
ghost use Rattle.file_readers.specs.Asking.{FilesOnlyAsked};
ghost use Rattle.file_readers.specs.Reading.{AreFilesRead};
ghost use Rattle.engine.specs.Runs.{SomeGrew};
ghost use Rattle.world_start.specs.Fresh.{AreClosed};
ghost use Rattle.world_start.specs.Opening.{HasFaulted};
ghost use Rattle.world_folder.specs.NewWorld.{AreFirst, count_of, IsFirstOpen, ReportsUnmade};
ghost use Rattle.world_folder.specs.NewWorld.{IsMadeOf, IsUnmade, AsksOthers, OthersStay};

use crate::failure::{Failure, Occupied};
use crate::opening::path_of;
use disk_model::{Disk, FourFiles, IMAGE_A, IMAGE_B, LOG_A, LOG_B};
use file_readers::read_files;
use image_files::write_words;
use std::alloc::Global;
use std::fmt;
use world_actions::Refusal;
use world_start::{are_closed, fresh_files, is_closed_image, is_closed_segment};

/// The words of a world that is to be made.
#[derive(Clone, Copy)]
pub enum FirstWords<'a> {
    /// So many zeros.
    Zeros(u32),
    /// These words.
    Listed(&'a [u64]),
}

/// Shows that the files of a world were made, of so many cells: only `make_in` gives one.
#[derive(Clone, Copy, Debug, PartialEq, Eq)]
pub struct Made {
    cells: u32,
}

impl Made {
    fn of(words: FirstWords<'_>) -> Self
        requires { AreFirst words }
        ensures { result.cells ≡ count_of words.entry }
    {
        match words {
            FirstWords::Zeros(cells) => Made { cells },
            FirstWords::Listed(words) => Made {
                cells: words.len() as u32,
            },
        }
    }

    /// How many cells the world has.
    pub fn cells(&self) -> u32
        ensures { result ≡ self.now.cells }
    {
        self.cells
    }
}

impl fmt::Display for Made {
    ghost use Rattle.std.specs.Prelude.{Some};
    ghost use Rattle.world_folder.specs.Texts.{created_text};

    ghost output = { λ made. Some (created_text made.cells) };

    fn fmt<W: fmt::Write>(&self, f: &mut fmt::Formatter<W>) -> fmt::Result {
        write!(f, "created {}", self.cells)
    }
}

/// Makes the files of a world of these words at tick 0, of the four files of a folder. If one of
/// them isn't closed, it only reads them, and names the first such file. A refusal gives the files
/// back. A fault of a device names no file.
pub fn make_in<D: Disk>(
    alloc: Global,
    folder: &str,
    words: FirstWords<'_>,
    files: FourFiles<D>,
) -> Result<(FourFiles<D>, Made), (FourFiles<D>, Failure)>
    requires { AreFirst words }
    ensures made { IsTrue D.honest → IfOk result (λ made.
        IsMadeOf D.Disk words.entry files made.0) }
    ensures cells { IfOk result (λ made. made.1.cells ≡ count_of words.entry) }
    ensures unmade { IsTrue D.honest → IfErr result (λ unmade.
        IsUnmade D.Disk folder.now files words.entry unmade.1 unmade.0) }
    ensures asked { IfOk result (λ made. AsksOthers D.called words.entry files made.0) }
    ensures unmade_asked { IfErr result (λ unmade. AsksOthers D.called words.entry files unmade.0) }
    ensures device { IfErr result (λ unmade. unmade.1 ≡ Failure.Refused Refusal.Device
        → SomeGrew (fault_counts D.faults files) (fault_counts D.faults unmade.0)) }
{
    let mut files = files;
    let bytes = match closed_bytes(alloc, folder, &mut files) {
        Ok(bytes) => bytes,
        Err(failure) => return Err((files, failure)),
    };
    match write_first(alloc, words, bytes, files) {
        Ok(files) => Ok((files, Made::of(words))),
        Err((files, refusal)) => Err((files, Failure::Refused(refusal))),
    }
}

// Writes the first words into files that hold no world, of which these bytes were read. Zeros are
// written by the start of a fresh world, others as an image beside closed logs, which a server
// begins.
fn write_first<D: Disk>(
    alloc: Global,
    words: FirstWords<'_>,
    bytes: FourFiles<Vec<u8>>,
    files: FourFiles<D>,
) -> Result<FourFiles<D>, (FourFiles<D>, Refusal)>
    requires first { AreFirst words }
    requires read { IsTrue D.honest → AreFilesRead D.content files bytes.image_a.items
        bytes.image_b.items bytes.log_a.items bytes.log_b.items }
    requires closed { AreClosed bytes.image_a.items bytes.image_b.items bytes.log_a.items
        bytes.log_b.items }
    ensures made { IsTrue D.honest → IfOk result (λ made. IsMadeOf D.Disk words.entry files made) }
    ensures unmade { IsTrue D.honest → IfErr result (λ unmade. (folder : List ℕ)
        → IsUnmade D.Disk folder files words.entry (Failure.Refused unmade.1) unmade.0) }
    ensures others { IfOk result (λ made. OthersStay words.entry files made) }
    ensures unmade_others { IfErr result (λ unmade. OthersStay words.entry files unmade.0) }
    ensures device { IfErr result (λ unmade. HasFaulted D.faults files unmade.0 unmade.1) }
{
    match words {
        FirstWords::Zeros(cells) => {
            drop(bytes);
            fresh_files(alloc, cells, files)
        }
        FirstWords::Listed(words) => {
            let mut files = files;
            match write_words(alloc, words, &bytes.image_a, &mut files.image_a) {
                Ok(()) => Ok(files),
                Err(refusal) => Err((files, refusal)),
            }
        }
    }
}

// Reads four files, and returns their bytes. If one of the files isn't closed, it fails, and names
// the first such file.
fn closed_bytes<D: Disk>(
    alloc: Global,
    folder: &str,
    files: &mut FourFiles<D>,
) -> Result<FourFiles<Vec<u8>>, Failure>
    ensures read { IsTrue D.honest → IfOk result (λ read. AreFilesRead D.content files.old
        read.image_a.items read.image_b.items read.log_a.items read.log_b.items) }
    ensures closed { IfOk result (λ read. AreClosed
        read.image_a.items read.image_b.items read.log_a.items read.log_b.items) }
    ensures reported { IsTrue D.honest
        → IfErr result (ReportsUnmade D.content folder.now files.old) }
    ensures asked { FilesOnlyAsked D.called IMAGE_BYTES_MAX IMAGE_BYTES_MAX
        SEGMENT_BYTES_MAX SEGMENT_BYTES_MAX
        files.old files.new }
    ensures kept { IsTrue D.honest
        → EachFile files.old files.new (KeepsFile D.Disk) }
    ensures device { result ≡ Err (Failure.Refused Refusal.Device)
        → SomeGrew (fault_counts D.faults files.old) (fault_counts D.faults files.new) }
    ensures no_fault { OnOk result
        (fault_counts D.faults files.new ≡ fault_counts D.faults files.old) }
{
    let bytes = match read_files(alloc, files) {
        Ok(bytes) => bytes,
        Err(refusal) => return Err(Failure::Refused(refusal)),
    };
    if are_closed(alloc, &bytes) {
        return Ok(bytes);
    }
    let path = path_of(alloc, folder, first_open(alloc, &bytes))?;
    Err(Failure::Occupied(Occupied { path }))
}

// The name of the first file that isn't closed, of four of which one isn't.
fn first_open(alloc: Global, bytes: &FourFiles<Vec<u8>>) -> &'static str
    ensures { ¬ AreClosed bytes.now.image_a.items bytes.now.image_b.items
        bytes.now.log_a.items bytes.now.log_b.items
        → IsFirstOpen bytes.now.image_a.items bytes.now.image_b.items
        bytes.now.log_a.items bytes.now.log_b.items
        result.now }
{
    if !is_closed_image(alloc, &bytes.image_a) {
        return IMAGE_A;
    }
    if !is_closed_image(alloc, &bytes.image_b) {
        return IMAGE_B;
    }
    if !is_closed_segment(&bytes.log_a) {
        return LOG_A;
    }
    LOG_B
}
