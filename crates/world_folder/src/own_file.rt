//! A file that a world has to itself.
ghost use Rattle.std.specs.Prelude.{◌≡◌, ◌∷◌, false, None, IsTrue, IfOk, IfSome, IfNone, IsOk};
ghost use Rattle.std.specs.Prelude.{◌⊎◌, ℕ, List, Some, OnOk, OnErr};
ghost use Rattle.disk_model.specs.Disk.{Only};
ghost use Rattle.world_folder.specs.History.{Looked, Opened, IsTakenInPart, with_lock};
ghost use Rattle.world_folder.specs.OwnFile.{IsApart, AreApart, IsOwn, IsOnlyFile, IsOpenedInPart};

use crate::entry::{Entry, FileKind, Identity};
use crate::folders::Folder;
use disk_model::{FourFiles, WorldFile};
use std::io;

/// The reason to refuse a folder, a pipe or a device.
pub const NOT_REGULAR: &str = "not a regular file";

/// A file of a world that is open to be written.
#[derive(Drop)]
pub struct OwnFile<D> {
    pub disk: D,
    pub identity: Identity,
}

/// Opens a file of a folder to write it, and locks it if it is image.a. Its one name has to be an
/// ordinary one, and no other file may take its place meanwhile.
pub fn open_own<F: Folder>(folder: &mut F, file: WorldFile) -> io::Result<OwnFile<F::File>>
    ensures own { IsTrue F.honest
        → IfOk result (λ own.
        IsOwn file (F.identity own.disk) (F.File.content own.disk) (F.history folder.old)
        (F.history folder.new)) }
    ensures disk { IsTrue F.honest → IfOk result (λ own. own.identity ≡ F.identity own.disk) }
    ensures path { F.path folder.new ≡ F.path folder.old }
{
    match find_own(folder, file)? {
        Some(own) => Ok(own),
        None => Err(io::Error::from_raw_os_error(libc::ENOENT)),
    }
}

/// Opens a file as `open_own` does, or returns `None` if nothing stands under this name.
pub fn find_own<F: Folder>(folder: &mut F, file: WorldFile) -> io::Result<Option<OwnFile<F::File>>>
    ensures own { IsTrue F.honest → IfOk result (λ found.
        IfSome found (λ own.
        IsOwn file (F.identity own.disk) (F.File.content own.disk) (F.history folder.old)
        (F.history folder.new))) }
    ensures none { IsTrue F.honest → IfOk result (λ found.
        IfNone found (F.history folder.new ≡ Looked file None ∷ F.history folder.old)) }
    ensures disk { IsTrue F.honest
        → IfOk result (λ found. IfSome found (λ own. own.identity ≡ F.identity own.disk)) }
    ensures synced { IsTrue F.honest → IsTrue F.File.honest → IfOk result (λ found.
        IfSome found (λ own. Only (F.File.content own.disk) (F.File.may_leave own.disk))) }
    ensures failed { IsTrue F.honest
        → OnErr result (IsOpenedInPart file (F.history folder.old) (F.history folder.new)) }
    ensures path { F.path folder.new ≡ F.path folder.old }
{
    match folder.look(file)? {
        Some(there) => Ok(Some(open_there(folder, file, there)?)),
        None => Ok(None),
    }
}

// Opens the file that stood under its name.
fn open_there<F: Folder>(
    folder: &mut F,
    file: WorldFile,
    there: Entry,
) -> io::Result<OwnFile<F::File>>
    ensures own { IsTrue F.honest
        → IfOk result (λ own.
        IsOnlyFile file there (F.identity own.disk) (F.File.content own.disk)
        (F.history folder.old) (F.history folder.new)) }
    ensures disk { IsTrue F.honest → IfOk result (λ own. own.identity ≡ F.identity own.disk) }
    ensures synced { IsTrue F.honest → IsTrue F.File.honest
        → IfOk result (λ own. Only (F.File.content own.disk) (F.File.may_leave own.disk)) }
    ensures failed { IsTrue F.honest → OnErr result ((bytes : List ℕ)
        × IsTakenInPart file (λ entry. Opened file entry bytes) (F.history folder.old)
        (F.history folder.new)) }
    ensures path { F.path folder.new ≡ F.path folder.old }
{
    unless_odd(there)?;
    let handle = folder.open(file)?;
    let opened = folder.entry(&handle)?;
    unless_other(there, opened)?;
    let disk = take_own(folder, file, handle)?;
    Ok(OwnFile {
        disk,
        identity: opened.identity,
    })
}

// Refuses what is no regular file.
fn unless_odd(there: Entry) -> io::Result<()>
    ensures { OnOk result (there.kind ≡ FileKind.Regular) }
{
    match there.kind {
        FileKind::Regular => Ok(()),
        FileKind::Link => Err(io::Error::other("a symbolic link")),
        FileKind::Other => Err(io::Error::other(NOT_REGULAR)),
    }
}

// Refuses an open file that isn't the one that stood under its name, or has another name too.
fn unless_other(there: Entry, opened: Entry) -> io::Result<()>
    ensures same { OnOk result (opened.identity ≡ there.identity) }
    ensures one_name { OnOk result (opened.names ≡ 1) }
{
    if opened.identity != there.identity {
        return Err(io::Error::other("another file took its place"));
    }
    if opened.names != 1 {
        return Err(io::Error::other("it has another name, by a hard link"));
    }
    Ok(())
}

/// Takes a file that is open to be written as a disk, and locks it if it is image.a.
pub fn take_own<F: Folder>(
    folder: &mut F,
    file: WorldFile,
    handle: F::Handle,
) -> io::Result<F::File>
    ensures locked { IsTrue F.honest
        → OnOk result
        (F.history folder.new ≡ with_lock file (F.entry_of handle) (F.history folder.old)) }
    ensures disk { IsTrue F.honest
        → IfOk result (λ disk. F.identity disk ≡ (F.entry_of handle).identity) }
    ensures content { IsTrue F.honest
        → IfOk result (λ disk. F.File.content disk ≡ F.content_of handle) }
    ensures synced { IsTrue F.honest → IsTrue F.File.honest
        → IfOk result (λ disk. Only (F.File.content disk) (F.File.may_leave disk)) }
    ensures failed { IsTrue F.honest → OnErr result ((F.history folder.new ≡ F.history folder.old)
        ⊎ (F.history folder.new ≡ with_lock file (F.entry_of handle) (F.history folder.old))) }
    ensures path { F.path folder.new ≡ F.path folder.old }
{
    if file == WorldFile::ImageA {
        folder.lock(&handle)?;
    }
    folder.take(handle)
}

/// Refuses one file under two of the four names. A file that isn't there has no number.
pub fn are_apart(files: &FourFiles<Option<Identity>>) -> io::Result<()>
    ensures { IsOk result → AreApart files.now }
{
    let FourFiles {
        image_a: a,
        image_b: b,
        log_a: c,
        log_b: d,
    } = *files;
    if is_same(a, b)
        || is_same(a, c)
        || is_same(a, d)
        || is_same(b, c)
        || is_same(b, d)
        || is_same(c, d)
    {
        Err(io::Error::other("two of the four files are one"))
    } else {
        Ok(())
    }
}

// True if both files are there and are one.
fn is_same(a: Option<Identity>, b: Option<Identity>) -> bool
    ensures { result ≡ false → IsApart a b }
{
    match (a, b) {
        (Some(a), Some(b)) => a == b,
        _ => false,
    }
}
