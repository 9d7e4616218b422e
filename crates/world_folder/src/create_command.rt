//! The command that makes a world in a folder.
ghost use Rattle.std.specs.Prelude.{◌≡◌, ◌≢◌, ◌⊎◌, ◌<◌, ℕ, List, Some, length, IsTrue};
ghost use Rattle.std.specs.Prelude.{IfOk, IfErr, IfSome, None, OnOk, OnErr};
ghost use Rattle.std.proofs.Common.{Bor};
ghost use Rattle.std.specs.Io.KnownBytes.{Consumes, IsAtEnd};
ghost use Rattle.world_actions.specs.World.{IsWorld};
ghost use Rattle.disk_model.specs.FourFiles.{mapped, each_of};
ghost use Rattle.world_folder.specs.NewWorldFiles.{AreTaken, AreThere, IsOccupied};
ghost use Rattle.world_folder.specs.declared.failure.Failure.{Failure as TheFailure};
ghost use Rattle.world_folder.specs.declared.new_world.FirstWords.{FirstWords as TheWords};
ghost use Rattle.world_folder.specs.CreateCommand.{IsCreated, IsMadeIn, IsNotCreated, IsRefused};
ghost use Rattle.world_folder.specs.CreateCommand.{IsUnfinished, AreLeft};
ghost use Rattle.world_folder.specs.NewWorld.{AreFirst, count_of};
ghost use Rattle.world_folder.specs.Ending.{ReportsFailure};
ghost use Rattle.world_folder.specs.Failing.{failure_there, first_failure};
ghost use Rattle.world_folder.specs.WordsText.{Lists};

use crate::failure::{Failure, Unlisted, failure_of_print};
use crate::folders::Folder;
use crate::forward::read_forward;
use crate::new_world::{FirstWords, Made, make_in};
use crate::new_world_files::{all_of, complete};
use crate::opening::{blame, failure_of_present, path_of, sync_names};
use crate::present_files::{no_files, open_present};
use crate::unfinished::{Unfinished, Why};
use crate::words_text::{Listed, TEXT_BYTES};
use disk_model::FourFiles;
use std::alloc::Global;
use std::fs::{File, Files};
use std::io::{self, Read};
use world_actions::Refusal;

/// No world was made, or it wasn't reported. The files that are open are given back.
#[derive(Drop)]
pub struct NotCreated<D> {
    pub files: FourFiles<Option<D>>,
    pub failure: Failure,
}

impl<D> From<Failure> for NotCreated<D> {
    ghost use Rattle.std.specs.Prelude.{◌≡◌, None};
    ghost use Rattle.disk_model.specs.FourFiles.{each_of};

    ghost from_gives = { λ failure failed. (failed.files ≡ each_of None)
        × (failed.failure ≡ failure) };

    fn from(failure: Failure) -> Self {
        NotCreated {
            files: no_files(),
            failure,
        }
    }
}

/// Makes the files of a world of the words that a file lists, at tick 0, as `create` does. A file
/// that lists no words of a world, or another number of them than is asked for, is refused before
/// anything is opened in the folder.
pub fn create_of_words<R: Files<File = File> + AllocGlobal, F: Folder>(
    rt: &R,
    folder: &mut F,
    list: &str,
    asked: Option<u32>,
) -> Result<(FourFiles<F::File>, Made), NotCreated<F::File>>
    ensures created { IsTrue F.honest → IsTrue F.File.honest → IfOk result (λ created.
        (text : List ℕ) × (words : Bor (List ℕ)) × Lists words.now text
        × IsCreated F.identity F.File.Disk (FirstWords.Listed words)
        created.0 (F.history folder.old) (F.history folder.new)) }
    ensures cells { IfOk result (λ created. IfSome asked (λ cells. created.1.cells ≡ cells)) }
    ensures left { IsTrue F.honest → IsTrue F.File.honest → IfErr result (λ failed.
        ((failed.files ≡ each_of None) × (folder.new ≡ folder.old))
        ⊎ ((text : List ℕ) × (words : Bor (List ℕ)) × Lists words.now text
        × IsNotCreated F.identity F.File.Disk (FirstWords.Listed words) failed.files failed.failure
        (F.history folder.old) (F.history folder.new))) }
{
    let listed = read_list(rt, list, asked)?;
    create(folder, FirstWords::Listed(listed.words()))
}

/// Makes the files of a world of these words at tick 0 in a folder without a guard, and prints how
/// many cells it has. If one of the files isn't closed, it makes no file and writes none. If a file
/// or memory fails later, the files that it made stay, and are named.
pub fn create<F: Folder>(
    folder: &mut F,
    words: FirstWords<'_>,
) -> Result<(FourFiles<F::File>, Made), NotCreated<F::File>>
    requires { AreFirst words }
    ensures created { IsTrue F.honest → IsTrue F.File.honest → IfOk result (λ created.
        IsCreated F.identity F.File.Disk words.entry created.0 (F.history folder.old)
        (F.history folder.new)) }
    ensures cells { IfOk result (λ created. created.1.cells ≡ count_of words.entry) }
    ensures refused { IsTrue F.honest → IsTrue F.File.honest → IfErr result (λ failed.
        IsOccupied failed.failure → (folder.new ≡ folder.old) ⊎ IsRefused F.identity F.File.Disk
        (F.path folder.old) failed.failure failed.files (F.history folder.old)
        (F.history folder.new)) }
    ensures left { IsTrue F.honest → IsTrue F.File.honest → IfErr result (λ failed. IsNotCreated
        F.identity F.File.Disk words.entry failed.files failed.failure (F.history folder.old)
        (F.history folder.new)) }
{
    folder.unguarded()?;
    let (files, world) = make_named(folder, words)?;
    match folder.print(world) {
        Ok(()) => Ok((files, world)),
        Err(error) => Err(NotCreated {
            files: files.map(|file| Some(file)),
            failure: failure_of_print(error),
        }),
    }
}

// Makes a world in a folder. If that fails, a file that failed is named, and those that were made.
fn make_named<F: Folder>(
    folder: &mut F,
    words: FirstWords<'_>,
) -> Result<(FourFiles<F::File>, Made), NotCreated<F::File>>
    requires { AreFirst words }
    ensures made { IsTrue F.honest → IsTrue F.File.honest → IfOk result (λ made.
        IsMadeIn F.identity F.File.Disk words.entry made.0 (F.history folder.old)
        (F.history folder.new)) }
    ensures cells { IfOk result (λ made. made.1.cells ≡ count_of words.entry) }
    ensures refused { IsTrue F.honest → IsTrue F.File.honest
        → IfErr result (λ failed. IsOccupied failed.failure → IsRefused F.identity F.File.Disk
        (F.path folder.old) failed.failure failed.files (F.history folder.old)
        (F.history folder.new)) }
    ensures left { IsTrue F.honest → IsTrue F.File.honest → IfErr result (λ failed. AreLeft
        F.identity F.File.Disk words.entry failed.files (F.history folder.old)
        (F.history folder.new)) }
{
    let mut made = FourFiles::each(false);
    match make_world(folder, words, &mut made) {
        Ok(world) => Ok(world),
        Err(NotCreated { files, failure }) => {
            let failure = failure_unfinished(folder, made, &files, failure);
            Err(NotCreated { files, failure })
        }
    }
}

// Makes a world in a folder. A device that failed isn't named.
fn make_world<F: Folder>(
    folder: &mut F,
    words: FirstWords<'_>,
    made: &mut FourFiles<bool>,
) -> Result<(FourFiles<F::File>, Made), NotCreated<F::File>>
    requires { AreFirst words }
    ensures made { IsTrue F.honest → IsTrue F.File.honest → IfOk result (λ made.
        IsMadeIn F.identity F.File.Disk words.entry made.0 (F.history folder.old)
        (F.history folder.new)) }
    ensures cells { IfOk result (λ made. made.1.cells ≡ count_of words.entry) }
    ensures refused { IsTrue F.honest → IsTrue F.File.honest
        → IfErr result (λ failed. IsOccupied failed.failure → IsRefused F.identity F.File.Disk
        (F.path folder.old) failed.failure failed.files (F.history folder.old)
        (F.history folder.new)) }
    ensures left { IsTrue F.honest → IsTrue F.File.honest → IfErr result (λ failed. AreLeft
        F.identity F.File.Disk words.entry failed.files (F.history folder.old)
        (F.history folder.new)) }
{
    let mut files = no_files();
    if let Err(failure) = take_files(folder, &mut files, made) {
        return Err(NotCreated { files, failure });
    }
    match make_in(folder.alloc(), folder.path(), words, all_of(files)) {
        Ok(world) => Ok(world),
        Err((files, failure)) => Err(NotCreated {
            files: files.map(|file| Some(file)),
            failure,
        }),
    }
}

// Opens or makes the four files of a folder in which a world is to be made. They are made durable
// with their names.
fn take_files<F: Folder>(
    folder: &mut F,
    files: &mut FourFiles<Option<F::File>>,
    made: &mut FourFiles<bool>,
) -> Result<(), Failure>
    requires { files.old ≡ each_of None }
    ensures all { OnOk result (AreThere files.new) }
    ensures taken { IsTrue F.honest → IsTrue F.File.honest → OnOk result ((all : FourFiles F.File)
        → files.new ≡ mapped Some all → AreTaken F.File.Disk F.identity all
        (F.history folder.old) (F.history folder.new)) }
    ensures refused { IsTrue F.honest → IsTrue F.File.honest
        → IfErr result (λ failure. IsOccupied failure
        → IsRefused F.identity F.File.Disk (F.path folder.old) failure files.new
        (F.history folder.old) (F.history folder.new)) }
    ensures left { IsTrue F.honest → IsTrue F.File.honest
        → OnErr result ((words : TheWords) → AreLeft F.identity F.File.Disk words files.new
        (F.history folder.old) (F.history folder.new)) }
{
    open_present(folder, files)?;
    complete(folder, files, made)?;
    sync_names(folder)
}

// The words that a file lists, which has to be of the number of cells that is asked for.
fn read_list<R: Files<File = File> + AllocGlobal>(
    rt: &R,
    list: &str,
    asked: Option<u32>,
) -> Result<Listed, Failure>
    ensures listed { IfOk result (λ listed. (text : List ℕ) × Lists listed.words.items text) }
    ensures world { IfOk result (λ listed. IsWorld listed.words.items) }
    ensures count { IfOk result (λ listed. IfSome asked (λ cells.
        length listed.words.items ≡ cells)) }
{
    let text = blame(rt.alloc(), "", list, read_list_file(rt, list))?;
    match Listed::read(rt.alloc(), &text, asked) {
        Ok(listed) => Ok(listed),
        Err(why) => {
            let path = path_of(rt.alloc(), "", list)?;
            Err(Failure::Unlisted(Unlisted { path, why }))
        }
    }
}

fn read_list_file<R: Files<File = File> + AllocGlobal>(rt: &R, list: &str) -> io::Result<Vec<u8>> {
    let mut file = File::open(rt, list)?;
    read_text(rt.alloc(), &mut file)
}

// The text of a list: all of it, unless it is longer than the longest text of a world.
fn read_text<S: Read>(alloc: Global, list: &mut S) -> io::Result<Vec<u8>>
    ensures read { IfOk result (λ text.
        Consumes (S.remaining list.old) (S.remaining list.new) text.items) }
    ensures all { IfOk result (λ text. length text.items < TEXT_BYTES
        → IsAtEnd (S.remaining list.new)) }
{
    read_forward(alloc, list, TEXT_BYTES)
}

// The failure of a command that made no world. It names a file that failed, and those made.
fn failure_unfinished<F: Folder>(
    folder: &F,
    made: FourFiles<bool>,
    files: &FourFiles<Option<F::File>>,
    failure: Failure,
) -> Failure
    ensures made { failure ≢ Failure.Refused Refusal.Device → IsUnfinished made failure result }
    ensures device { IsTrue F.File.honest → failure ≡ Failure.Refused Refusal.Device
        → (failed : TheFailure) × ReportsFailure (F.path folder.now)
        (first_failure (mapped (failure_there F.File.failure) files.now)) failed
        × IsUnfinished made failed result }
    ensures same { IsOccupied result → result ≡ failure }
{
    let failure = match failure {
        Failure::Refused(Refusal::Device) => failure_of_present(folder, files),
        failure => failure,
    };
    let why = match failure {
        Failure::Unreadable(file) => Why::File(file),
        Failure::Refused(Refusal::NoMemory) => Why::NoMemory,
        failure => return failure,
    };
    Failure::Unfinished(Unfinished { made, why })
}
