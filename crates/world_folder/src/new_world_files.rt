//! The four files in which a world is to be made, of those that are there and of new ones.
ghost use Rattle.std.specs.IoError.{error_kind};
ghost use Rattle.std.specs.Prelude.{◌≡◌, ◌≢◌, ◌↔◌, ◌≤◌, IsTrue, Ok, Err, None, Some, IfOk, IfErr};
ghost use Rattle.std.specs.Prelude.{OnOk, OnErr, IfSome, IfNone, IsSome, IsErrAnd, true};
ghost use Rattle.disk_model.specs.FourFiles.{EachFile, KeepsFile, mapped};
ghost use Rattle.world_folder.specs.NewWorldFiles.{IsOccupied, IsOpenFile, IsOpenThere};
ghost use Rattle.world_folder.specs.NewWorldFiles.{IsFirstThere, NoneIsOpen, ReportsOpen};
ghost use Rattle.world_folder.specs.NewWorldFiles.{KeepsThere, IsKept, IsUnwritten};
ghost use Rattle.world_folder.specs.NewWorldFiles.{AreMadeIfAbsent, AreCompleted, AreThere};
ghost use Rattle.world_folder.specs.NewWorldFiles.{IsMadeIfAbsent};
ghost use Rattle.disk_model.specs.FourFiles.{with_value};
ghost use Rattle.world_folder.specs.Ending.{NamesFile};
ghost use Rattle.world_folder.specs.History.{Made, IsTakenInPart};

use crate::failure::{Failure, Occupied};
use crate::folders::Folder;
use crate::heads::{IMAGE_HEAD, SEGMENT_HEAD};
use crate::own_file::take_own;
use disk_model::{Disk, FourFiles, IMAGE_A, IMAGE_B, LOG_A, LOG_B, WorldFile};
use file_disk::WRITTEN;
use file_format::OPEN_GATE;
use std::io::{self, ErrorKind};
use world_actions::Refusal;

// Looks at the files of a folder that are there. If one is open, no world is made there, and the
// first such file is named. An open file may hold an image or ticks, whatever the others are.
fn look_for_world<F: Folder>(
    folder: &F,
    present: &mut FourFiles<Option<F::File>>,
) -> Result<(), Failure>
    ensures none { IsTrue F.File.honest → OnOk result (NoneIsOpen F.File.content present.old) }
    ensures reported { IsTrue F.File.honest
        → IfErr result (ReportsOpen F.File.content (F.path folder.now) present.old) }
    ensures kept { IsTrue F.File.honest
        → EachFile present.old present.new (KeepsThere F.File.Disk) }
{
    match first_open(present) {
        Ok(None) => Ok(()),
        Ok(Some(name)) => {
            let path = folder.path_of(name)?;
            Err(Failure::Occupied(Occupied { path }))
        }
        Err(refusal) => Err(Failure::Refused(refusal)),
    }
}

// The name of the first file that is there and open.
fn first_open<D: Disk>(present: &mut FourFiles<Option<D>>) -> Result<Option<&'static str>, Refusal>
    ensures none { IsTrue D.honest
        → IfOk result (λ found. IfNone found (NoneIsOpen D.content present.old)) }
    ensures first { IsTrue D.honest → IfOk result (λ found.
        IfSome found (λ name. IsFirstThere D.content present.old name.now)) }
    ensures kept { IsTrue D.honest
        → EachFile present.old present.new (KeepsThere D.Disk) }
    ensures device { IfErr result (λ refusal. refusal ≡ Refusal.Device) }
{
    if is_open(&mut present.image_a, IMAGE_HEAD)? {
        return Ok(Some(IMAGE_A));
    }
    if is_open(&mut present.image_b, IMAGE_HEAD)? {
        return Ok(Some(IMAGE_B));
    }
    if is_open(&mut present.log_a, SEGMENT_HEAD)? {
        return Ok(Some(LOG_A));
    }
    if is_open(&mut present.log_b, SEGMENT_HEAD)? {
        return Ok(Some(LOG_B));
    }
    Ok(None)
}

fn is_open<D: Disk>(file: &mut Option<D>, header: usize) -> Result<bool, Refusal>
    requires { 1 ≤ header }
    ensures open { IsTrue D.honest
        → IfOk result (λ yes. IsTrue yes ↔ IsOpenThere D.content header file.old) }
    ensures kept { IsTrue D.honest → KeepsThere D.Disk file.old file.new }
    ensures device { IfErr result (λ refusal. refusal ≡ Refusal.Device) }
{
    match file {
        None => Ok(false),
        Some(disk) => has_open_gate(disk, header),
    }
}

// True if the gate of a file is open, and the file has room for a header. It reads one byte.
fn has_open_gate<D: Disk>(disk: &mut D, header: usize) -> Result<bool, Refusal>
    requires { 1 ≤ header }
    ensures open { IsTrue D.honest
        → IfOk result (λ yes. IsTrue yes ↔ IsOpenFile header (D.content disk.old)) }
    ensures kept { IsTrue D.honest → KeepsFile D.Disk disk.old disk.new }
    ensures device { IfErr result (λ refusal. refusal ≡ Refusal.Device) }
{
    if disk.len()? < header as u64 {
        return Ok(false);
    }
    let mut gate = [0];
    disk.read_at(0, &mut gate)?;
    Ok(gate[0] == OPEN_GATE)
}

// Makes those files of a folder that aren't there.
fn make_absent<F: Folder>(
    folder: &mut F,
    files: &mut FourFiles<Option<F::File>>,
    made: &mut FourFiles<bool>,
) -> Result<(), Failure>
    ensures made { IsTrue F.honest
        → AreMadeIfAbsent files.old files.new (F.history folder.old) (F.history folder.new) }
    ensures kept { IsTrue F.honest → IsTrue F.File.honest
        → EachFile files.old files.new (IsKept F.File.Disk) }
    ensures all { OnOk result (AreThere files.new) }
    ensures other { IfErr result (λ failure. ¬ IsOccupied failure) }
{
    make_if_absent(folder, WorldFile::ImageA, &mut files.image_a, made)?;
    make_if_absent(folder, WorldFile::ImageB, &mut files.image_b, made)?;
    make_if_absent(folder, WorldFile::LogA, &mut files.log_a, made)?;
    make_if_absent(folder, WorldFile::LogB, &mut files.log_b, made)
}

fn make_if_absent<F: Folder>(
    folder: &mut F,
    file: WorldFile,
    there: &mut Option<F::File>,
    made: &mut FourFiles<bool>,
) -> Result<(), Failure>
    ensures acts { IsTrue F.honest → IsMadeIfAbsent file there.old there.new
        (F.history folder.old) (F.history folder.new) }
    ensures kept { IsTrue F.honest → IsTrue F.File.honest
        → IsKept F.File.Disk there.old there.new }
    ensures there { IfSome there.old (λ _. result ≡ Ok tt) }
    ensures none_made { IfSome there.old (λ _. made.new ≡ made.old) }
    ensures made { IfNone there.old (OnOk result (made.new ≡ with_value file true made.old)) }
    ensures some { OnOk result (IsSome there.new) }
    ensures other { IfErr result (λ failure. ¬ IsOccupied failure) }
{
    if there.is_none() {
        *there = Some(make_empty(folder, file, made)?);
    }
    Ok(())
}

// Makes an empty file that only its owner may read and write, and locks it if it is image.a.
fn make_empty<F: Folder>(
    folder: &mut F,
    file: WorldFile,
    made: &mut FourFiles<bool>,
) -> Result<F::File, Failure>
    ensures made_whole { IsTrue F.honest → IfOk result (λ disk. IsMadeIfAbsent file None (Some disk)
        (F.history folder.old) (F.history folder.new)) }
    ensures made_part { IsTrue F.honest → OnErr result
        (IsTakenInPart file (Made file) (F.history folder.old) (F.history folder.new)) }
    ensures unwritten { IsTrue F.honest → IsTrue F.File.honest
        → IfOk result (IsUnwritten F.File.Disk) }
    ensures made { OnOk result (made.new ≡ with_value file true made.old) }
    ensures other { IfErr result (λ failure. ¬ IsOccupied failure) }
    ensures named { IfErr result (NamesFile (F.path folder.old) file) }
{
    let handle = made_alone(folder.make(file));
    let handle = folder.blame(file.name(), handle)?;
    made.set(file, true);
    let disk = take_own(folder, file, handle);
    folder.blame(file.name(), disk)
}

// Returns the answer to the making of a file that wasn't there before. If it is there now, another
// program has begun to make a world meanwhile.
fn made_alone<T>(answer: io::Result<T>) -> io::Result<T>
    ensures ok { IfOk answer (λ value. result ≡ Ok value) }
    ensures meanwhile { IfErr answer (λ error. error_kind error ≡ ErrorKind.AlreadyExists
        → IsErrAnd result (λ other. error_kind other ≡ ErrorKind.Other)) }
    ensures other { IfErr answer (λ error. error_kind error ≢ ErrorKind.AlreadyExists
        → result ≡ Err error) }
{
    match answer {
        Err(error) if error.kind() == ErrorKind::AlreadyExists => Err(io::Error::other(WRITTEN)),
        answer => answer,
    }
}

/// Makes those of the four files that aren't there, in which a world is to be made. If one that is
/// there is open, no file is made, and none is changed.
pub fn complete<F: Folder>(
    folder: &mut F,
    files: &mut FourFiles<Option<F::File>>,
    made: &mut FourFiles<bool>,
) -> Result<(), Failure>
    ensures completed { IsTrue F.honest → IsTrue F.File.honest → AreCompleted F.File.Disk
        files.old files.new (F.history folder.old) (F.history folder.new) }
    ensures all { OnOk result (AreThere files.new) }
    ensures none_made { IfErr result (λ failure. IsOccupied failure → made.new ≡ made.old) }
    ensures no_act { IfErr result (λ failure. IsOccupied failure → folder.new ≡ folder.old) }
    ensures none_open { IsTrue F.File.honest
        → OnOk result (NoneIsOpen F.File.content files.old) }
    ensures reported { IsTrue F.File.honest → IfErr result (λ failure. IsOccupied failure
        → ReportsOpen F.File.content (F.path folder.old) files.old failure) }
    ensures occupied { IsTrue F.File.honest → IfErr result (λ failure. IsOccupied failure
        → EachFile files.old files.new (KeepsThere F.File.Disk)) }
{
    look_for_world(folder, files)?;
    make_absent(folder, files, made)
}

/// The four files, which are all there.
pub fn all_of<D>(files: FourFiles<Option<D>>) -> FourFiles<D>
    requires { AreThere files }
    ensures { files ≡ mapped Some result }
{
    FourFiles {
        image_a: files.image_a.unwrap(),
        image_b: files.image_b.unwrap(),
        log_a: files.log_a.unwrap(),
        log_b: files.log_b.unwrap(),
    }
}
