//! Attempts to copy the files of a world between two looks at their heads.
ghost use Rattle.std.specs.Prelude.{◌≡◌, ◌∷◌, true, false, length, IsTrue, IfOk, IfErr, OnOk};
ghost use Rattle.disk_model.specs.Disk.{Length};
ghost use Rattle.disk_model.specs.FourFiles.{EachFile, mapped};
ghost use Rattle.world_folder.specs.Ending.{NamesFile};
ghost use Rattle.world_folder.specs.Fault.{AreRead};
ghost use Rattle.world_folder.specs.Heads.{IsHeadAsked, summary_of};
ghost use Rattle.world_folder.specs.History.{Read};
ghost use Rattle.world_reports.specs.Attempt.{AreHeadsAsked, AreLookedAlike, IfCopied};
ghost use Rattle.world_reports.specs.Attempt.{IsBetweenLooks, contents_of};
ghost use Rattle.world_reports.specs.Copy.{AreParts, IsCopied, IsCopyOf, IsCutShort, IsPart};
ghost use Rattle.world_reports.specs.Copy.{IsReadWhole, reads};

use crate::copy::Seen;
use action_log::{SEGMENT_BYTES_MAX, extent_of};
use disk_model::{FourFiles, WorldFile};
use std::io;
use world_folder::{Failure, Reading, Source, SourceFile, Summary, summary_of};

/// How often a copy is begun anew.
const TRIES: u32 = 1_000;

/// After how many looks at no open image there is none. A server that opens one closes the other
/// only afterwards.
const BLANKS: u32 = 20;

/// The result of an attempt, or of all.
#[derive(Drop)]
pub enum Attempt {
    Copied(Seen),
    /// No image was open.
    NoImage,
    /// An image or a segment was begun anew meanwhile, or a segment became longer.
    Unsteady,
}

/// Copies the files of a folder, opened so. It takes no lock, and a server may write them
/// meanwhile.
pub fn copy_files<F: Source>(folder: &mut F, how: Reading) -> Result<Attempt, Failure>
    ensures copied { IsTrue F.honest → IsTrue F.File.honest → IfOk result (λ attempt.
        IfCopied attempt (IsCopied (F.history folder.old) (F.history folder.new))) }
{
    let mut files = open_each(folder, how)?;
    copy_from(folder, &mut files)
}

// Tries to copy the files, again and again.
fn copy_from<F: Source>(
    folder: &F,
    files: &mut FourFiles<SourceFile<F::File>>,
) -> Result<Attempt, Failure>
    ensures copied { IsTrue F.File.honest → IfOk result (λ attempt.
        IfCopied attempt (IsCopyOf (contents_of F.File.content files.old))) }
{
    let mut blanks = 0;
    for number in 1..=TRIES {
        match try_copy(folder, files, number)? {
            Attempt::Unsteady => {}
            Attempt::NoImage => blanks += 1,
            copied => return Ok(copied),
        }
        if blanks == BLANKS {
            return Ok(Attempt::NoImage);
        }
        folder.pause();
    }
    Ok(Attempt::Unsteady)
}

fn open_each<F: Source>(
    folder: &mut F,
    how: Reading,
) -> Result<FourFiles<SourceFile<F::File>>, Failure>
    ensures opened { IsTrue F.honest
        → IfOk result (λ files. F.history folder.new ≡ reads
        (contents_of F.File.content files) (F.history folder.old)) }
{
    Ok(FourFiles {
        image_a: open_one(folder, WorldFile::ImageA, how)?,
        image_b: open_one(folder, WorldFile::ImageB, how)?,
        log_a: open_one(folder, WorldFile::LogA, how)?,
        log_b: open_one(folder, WorldFile::LogB, how)?,
    })
}

fn open_one<F: Source>(
    folder: &mut F,
    file: WorldFile,
    how: Reading,
) -> Result<SourceFile<F::File>, Failure>
    ensures opened { IsTrue F.honest → IfOk result (λ opened.
        F.history folder.new ≡ Read file (F.File.content opened.disk) ∷ F.history folder.old) }
    ensures named { IfErr result (NamesFile (F.path folder.old) file) }
{
    let opened = folder.open_to_read(file, how);
    folder.blame(file.name(), opened)
}

// Copies images and the log between two looks at all heads. The copied files are looked at too.
// The lengths are asked for after the bytes.
fn try_copy<F: Source>(
    folder: &F,
    files: &mut FourFiles<SourceFile<F::File>>,
    number: u32,
) -> Result<Attempt, Failure>
    ensures copied { IsTrue F.File.honest → IfOk result (λ attempt.
        IfCopied attempt (IsCopyOf (contents_of F.File.content files.old))) }
    ensures looked { IfOk result (λ attempt.
        IfCopied attempt (IsBetweenLooks F.File.called files.old files.new)) }
    ensures kept { IsTrue F.File.honest
        → OnOk result (contents_of F.File.content files.new
        ≡ contents_of F.File.content files.old) }
{
    let before = read_each(folder, files, false)?;
    if summary_of(&before).newest.is_none() {
        return Ok(Attempt::NoImage);
    }
    let bytes = read_each(folder, files, true)?;
    let lengths = lengths_of(folder, files)?;
    let after = read_each(folder, files, false)?;
    if !is_steady(&before, &bytes, &lengths, &after) {
        return Ok(Attempt::Unsteady);
    }
    Ok(Attempt::Copied(Seen {
        files: read_of(bytes),
        lengths,
        tries: number,
        failed: None,
    }))
}

// The files, as each is read without an error.
fn read_of(files: FourFiles<Vec<u8>>) -> FourFiles<io::Result<Vec<u8>>>
    ensures { AreRead result files }
{
    files.map(|bytes| Ok(bytes))
}

// True if three looks are alike, neither image was written anew, and no segment became longer.
fn is_steady(
    before: &FourFiles<Vec<u8>>,
    bytes: &FourFiles<Vec<u8>>,
    lengths: &FourFiles<u64>,
    after: &FourFiles<Vec<u8>>,
) -> bool
    ensures { result ≡ true → AreLookedAlike before.now bytes.now lengths.now after.now }
{
    if !are_alike(summary_of(before), summary_of(bytes), summary_of(after))
        || is_cut_short(&bytes.log_a, lengths.log_a)
        || is_cut_short(&bytes.log_b, lengths.log_b)
    {
        return false;
    }
    same_images(before, after)
}

// True if a segment's groups go on at the end of these bytes, and its file has more. The file
// became longer while it was read: a gate that was read may have been opened later than its body's
// place was known.
fn is_cut_short(bytes: &[u8], length: u64) -> bool
    ensures cut { result ≡ true → IsCutShort bytes.now length }
    ensures whole { result ≡ false → IsReadWhole bytes.now length }
{
    match extent_of(bytes) {
        Some(extent) if !extent.ended => {
            (bytes.len() as u64) < length.min(SEGMENT_BYTES_MAX as u64)
        }
        _ => false,
    }
}

// True if both images had the same heads. No round has the tick of an earlier one, so neither image
// was written anew.
fn same_images(before: &FourFiles<Vec<u8>>, after: &FourFiles<Vec<u8>>) -> bool
    ensures { result ≡ true → (before.now.image_a.items ≡ after.now.image_a.items)
        × (before.now.image_b.items ≡ after.now.image_b.items) }
{
    before.image_a == after.image_a && before.image_b == after.image_b
}

fn are_alike(before: Summary, within: Summary, after: Summary) -> bool
    ensures { result ≡ true → (before ≡ within) × (after ≡ within) }
{
    before == within && after == within
}

// Each file, or its head.
fn read_each<F: Source>(
    folder: &F,
    files: &mut FourFiles<SourceFile<F::File>>,
    whole: bool,
) -> Result<FourFiles<Vec<u8>>, Failure>
    ensures parts { IsTrue F.File.honest → IfOk result
        (AreParts whole (contents_of F.File.content files.old)) }
    ensures asked { whole ≡ false → IfOk result (λ heads.
        AreHeadsAsked F.File.called heads files.old files.new) }
    ensures kept { IsTrue F.File.honest
        → OnOk result (contents_of F.File.content files.new
        ≡ contents_of F.File.content files.old) }
{
    Ok(FourFiles {
        image_a: read_one(folder, WorldFile::ImageA, &mut files.image_a, whole)?,
        image_b: read_one(folder, WorldFile::ImageB, &mut files.image_b, whole)?,
        log_a: read_one(folder, WorldFile::LogA, &mut files.log_a, whole)?,
        log_b: read_one(folder, WorldFile::LogB, &mut files.log_b, whole)?,
    })
}

fn read_one<F: Source>(
    folder: &F,
    file: WorldFile,
    from: &mut SourceFile<F::File>,
    whole: bool,
) -> Result<Vec<u8>, Failure>
    ensures part { IsTrue F.File.honest → IfOk result (λ bytes.
        IsPart file whole (F.File.content from.old.disk) bytes.items) }
    ensures asked { whole ≡ false → IfOk result (λ head.
        IsHeadAsked F.File.called head.items from.old.disk from.new.disk) }
    ensures kept { IsTrue F.File.honest
        → OnOk result (F.File.content from.new.disk ≡ F.File.content from.old.disk) }
    ensures named { IfErr result (NamesFile (F.path folder.now) file) }
{
    let bytes = if whole {
        from.read_whole(folder.alloc(), file)
    } else {
        from.read_head(folder.alloc(), file)
    };
    folder.blame(file.name(), bytes)
}

// How long each file is.
fn lengths_of<F: Source>(
    folder: &F,
    files: &mut FourFiles<SourceFile<F::File>>,
) -> Result<FourFiles<u64>, Failure>
    ensures lengths { IsTrue F.File.honest → IfOk result (λ lengths.
        lengths ≡ mapped length (contents_of F.File.content files.old)) }
    ensures asked { OnOk result
        (EachFile files.old files.new (λ old new. F.File.called old.disk Length true new.disk)) }
    ensures kept { IsTrue F.File.honest
        → OnOk result (contents_of F.File.content files.new
        ≡ contents_of F.File.content files.old) }
{
    Ok(FourFiles {
        image_a: length_of(folder, WorldFile::ImageA, &mut files.image_a)?,
        image_b: length_of(folder, WorldFile::ImageB, &mut files.image_b)?,
        log_a: length_of(folder, WorldFile::LogA, &mut files.log_a)?,
        log_b: length_of(folder, WorldFile::LogB, &mut files.log_b)?,
    })
}

fn length_of<F: Source>(
    folder: &F,
    file: WorldFile,
    from: &mut SourceFile<F::File>,
) -> Result<u64, Failure>
    ensures length { IsTrue F.File.honest
        → IfOk result (λ size. size ≡ length (F.File.content from.old.disk)) }
    ensures asked { OnOk result (F.File.called from.old.disk Length true from.new.disk) }
    ensures kept { IsTrue F.File.honest
        → OnOk result (F.File.content from.new.disk ≡ F.File.content from.old.disk) }
    ensures named { IfErr result (NamesFile (F.path folder.now) file) }
{
    let size = from.read_length();
    folder.blame(file.name(), size)
}
