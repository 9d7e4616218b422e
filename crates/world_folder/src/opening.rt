ghost use Rattle.std.specs.Prelude.{◌≡◌, ◌∷◌, Some, Ok, IsTrue, IfOk, IfErr, OnOk, IsErrAnd};
ghost use Rattle.std.specs.Path.{path_buf_bytes, path_join};
ghost use Rattle.disk_model.specs.FourFiles.{EachFile, mapped};
ghost use Rattle.world_folder.specs.Ending.{ReportsOf, NamesFile, ReportsFailure};
ghost use Rattle.world_folder.specs.NewWorldFiles.{IsOccupied};
ghost use Rattle.world_folder.specs.Failing.{failure_there, first_failure};
ghost use Rattle.world_folder.specs.History.{IsSyncedInPart, NamesSynced, synced};
ghost use Rattle.world_folder.specs.Left.{KeepsLeft};
ghost use Rattle.world_folder.specs.OwnFile.{AreApart, AreHeld, AreOwn, IsOwn};

use crate::entry::Identity;
use crate::failure::Failure;
use crate::folders::{Folder, WorldDisk};
use crate::own_file::{OwnFile, are_apart, open_own};
use crate::system_error::Reason;
use disk_model::{FourFiles, WorldFile};
use std::alloc::{AllocError, Global};
use std::path::{Path, PathBuf};
use std::{fmt, io};
use world_actions::Refusal;

/// The name of the folder above a folder.
pub const ABOVE: &str = "..";

/// A file that can't be read, and why.
#[derive(Debug, Drop)]
pub struct Unreadable {
    pub path: PathBuf,
    pub error: io::Error,
}

impl fmt::Display for Unreadable {
    fn fmt<W: fmt::Write>(&self, f: &mut fmt::Formatter<W>) -> fmt::Result {
        write!(f, "{}: {}", self.path.as_str(), Reason(self.error))
    }
}

/// Makes the names of a folder's files durable, and its own.
pub fn sync_names<F: Folder>(folder: &mut F) -> Result<(), Failure>
    ensures synced { IsTrue F.honest
        → OnOk result (F.history folder.new ≡ synced (F.history folder.old)) }
    ensures part { IsTrue F.honest → IsSyncedInPart (F.history folder.old) (F.history folder.new) }
    ensures left { IsTrue F.honest → KeepsLeft (F.history folder.old) (F.history folder.new) }
    ensures other { IfErr result (λ failure. ¬ IsOccupied failure) }
{
    let named = folder.sync_names();
    folder.blame("", named)?;
    match folder.sync_own_name() {
        Ok(()) => Ok(()),
        Err(error) => Err(folder.failure_for(ABOVE, error)),
    }
}

/// Opens the four files of a folder to serve the world in them. It makes none, and syncs the
/// folder. It refuses a symbolic link, a file with a second name, and one file twice. A writer of a
/// world holds a lock on its image.a as long as the file is open, so no two programs write it.
pub fn open_files<F: Folder>(folder: &mut F) -> Result<FourFiles<F::File>, Failure>
    ensures held { IsTrue F.honest
        → IfOk result (λ files.
        AreHeld F.identity F.File.content files (F.history folder.old)
        (F.history folder.new)) }
{
    let files = open_each(folder)?;
    let settled = settle(folder, &identities_of(&files));
    folder.blame("", settled)?;
    Ok(disks_of(files))
}

// Refuses one file under two names, and makes the names durable.
fn settle<F: Folder>(folder: &mut F, files: &FourFiles<Option<Identity>>) -> io::Result<()>
    ensures apart { OnOk result (AreApart files.now) }
    ensures synced { IsTrue F.honest
        → OnOk result (F.history folder.new ≡ NamesSynced ∷ F.history folder.old) }
{
    are_apart(files)?;
    folder.sync_names()
}

// Opens each file by its own name, image.a first: no two programs then hold a part of
// the files each.
fn open_each<F: Folder>(folder: &mut F) -> Result<FourFiles<OwnFile<F::File>>, Failure>
    ensures own { IsTrue F.honest → IfOk result (λ files.
        AreOwn (λ own. F.identity own.disk) (λ own. F.File.content own.disk) files
        (F.history folder.old) (F.history folder.new)) }
    ensures identities { IsTrue F.honest
        → IfOk result (λ files.
        EachFile files files (λ own _. own.identity ≡ F.identity own.disk)) }
{
    Ok(FourFiles {
        image_a: open_named(folder, WorldFile::ImageA)?,
        image_b: open_named(folder, WorldFile::ImageB)?,
        log_a: open_named(folder, WorldFile::LogA)?,
        log_b: open_named(folder, WorldFile::LogB)?,
    })
}

fn open_named<F: Folder>(folder: &mut F, file: WorldFile) -> Result<OwnFile<F::File>, Failure>
    ensures own { IsTrue F.honest
        → IfOk result (λ own.
        IsOwn file (F.identity own.disk) (F.File.content own.disk) (F.history folder.old)
        (F.history folder.new)) }
    ensures identity { IsTrue F.honest → IfOk result (λ own. own.identity ≡ F.identity own.disk) }
    ensures named { IfErr result (NamesFile (F.path folder.old) file) }
{
    let own = open_own(folder, file);
    folder.blame(file.name(), own)
}

fn identities_of<D>(files: &FourFiles<OwnFile<D>>) -> FourFiles<Option<Identity>>
    ensures { result ≡ mapped (λ own. Some own.identity) files.now }
{
    files.map_ref(|own| Some(own.identity))
}

fn disks_of<D>(files: FourFiles<OwnFile<D>>) -> FourFiles<D>
    ensures { result ≡ mapped (λ own. own.disk) files }
{
    files.map(|OwnFile { disk, .. }| disk)
}

/// The answer of a call. An error is a failure that names this file in a folder.
pub fn blame<T>(
    alloc: Global,
    folder: &str,
    name: &str,
    answer: io::Result<T>,
) -> Result<T, Failure>
    ensures ok { IfOk answer (λ value. result ≡ Ok value) }
    ensures fails { IfErr answer (λ error. IsErrAnd result (ReportsOf folder.now name.now error)) }
{
    match answer {
        Ok(value) => Ok(value),
        Err(error) => Err(failure_for(alloc, folder, name, error)),
    }
}

/// The failure of a command that can't use the file of this name in a folder, and why.
pub fn failure_for(alloc: Global, folder: &str, name: &str, error: io::Error) -> Failure
    ensures reports { ReportsOf folder.now name.now error result }
{
    match path_of(alloc, folder, name) {
        Ok(path) => Failure::Unreadable(Unreadable { path, error }),
        Err(_) => Failure::Refused(Refusal::NoMemory),
    }
}

/// The path of the file of this name in a folder.
pub fn path_of(alloc: Global, folder: &str, name: &str) -> Result<PathBuf, AllocError>
    ensures { IfOk result (λ path. path_buf_bytes path ≡ path_join folder.now name.now) }
{
    Path::new(folder).join(alloc, name)
}

/// The failure of a command after a failed call of a folder's files: the first one is named.
pub fn failure_of<F: Folder>(folder: &F, files: &FourFiles<F::File>) -> Failure
    ensures first { IsTrue F.File.honest
        → ReportsFailure (F.path folder.now)
        (first_failure (mapped F.File.failure files.now)) result }
    ensures other { ¬ IsOccupied result }
{
    let errors = FourFiles {
        image_a: files.image_a.last_failure(),
        image_b: files.image_b.last_failure(),
        log_a: files.log_a.last_failure(),
        log_b: files.log_b.last_failure(),
    };
    failure_of_first(folder, errors)
}

/// The failure of a command after a failed call of one of those files that are there.
pub fn failure_of_present<F: Folder>(folder: &F, files: &FourFiles<Option<F::File>>) -> Failure
    ensures first { IsTrue F.File.honest
        → ReportsFailure (F.path folder.now)
        (first_failure (mapped (failure_there F.File.failure) files.now)) result }
    ensures other { ¬ IsOccupied result }
{
    let errors = FourFiles {
        image_a: failure_in(&files.image_a),
        image_b: failure_in(&files.image_b),
        log_a: failure_in(&files.log_a),
        log_b: failure_in(&files.log_b),
    };
    failure_of_first(folder, errors)
}

// The failure of a command after these errors of a folder's files: the first file is named.
fn failure_of_first<F: Folder>(folder: &F, errors: FourFiles<Option<io::Error>>) -> Failure
    ensures first { ReportsFailure (F.path folder.now) (first_failure errors) result }
    ensures other { ¬ IsOccupied result }
{
    match first_failure(errors) {
        Some((file, error)) => folder.failure_for(file.name(), error),
        None => Failure::Refused(Refusal::Device),
    }
}

fn first_failure(errors: FourFiles<Option<io::Error>>) -> Option<(WorldFile, io::Error)>
    ensures { result ≡ first_failure errors }
{
    match (errors.image_a, errors.image_b, errors.log_a, errors.log_b) {
        (Some(error), _, _, _) => Some((WorldFile::ImageA, error)),
        (_, Some(error), _, _) => Some((WorldFile::ImageB, error)),
        (_, _, Some(error), _) => Some((WorldFile::LogA, error)),
        (_, _, _, Some(error)) => Some((WorldFile::LogB, error)),
        _ => None,
    }
}

fn failure_in<D: WorldDisk>(file: &Option<D>) -> Option<io::Error>
    ensures { IsTrue D.honest → result ≡ failure_there D.failure file.now }
{
    match file {
        Some(disk) => disk.last_failure(),
        None => None,
    }
}
