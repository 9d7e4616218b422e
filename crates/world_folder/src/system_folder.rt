//! A folder of the operating system.
ghost use Rattle.std.specs.Prelude.{◌≡◌, false, []};
ghost use Rattle.std.proofs.lemmas.Bool.{false≢true};
ghost use Rattle.world_folder.specs.OwnFile.{no_entry, no_identity};

use crate::entry::Entry;
use crate::failure::Failure;
use crate::folders::{Folder, Reading, Source};
use crate::guard::Guard;
use crate::guard_file::{self, remove_guard};
use crate::opening::{ABOVE, path_of};
use crate::own_file::NOT_REGULAR;
use crate::source_file::SourceFile;
use disk_model::WorldFile;
use file_disk::{FileDisk, LockState, lock, lock_state};
use std::alloc::Global;
use std::fmt::Display;
use std::fs::{self, File, Files, OpenOptions};
use std::io::{self, ErrorKind};
use std::os::unix::fs::{MetadataExt, OpenOptionsExt};
use std::path::{Path, PathBuf};
use std::thread;
use std::time::{Clock, Duration};

/// The permissions of a new file.
pub const OWNER_ALONE: u32 = 0o600;

/// How long a pause is.
const PAUSE_MILLISECONDS: u64 = 1;

/// The folder at a path. Contracts state nothing of its calls: it is not `honest`.
#[derive(Drop)]
pub struct SystemFolder<'a, R> {
    rt: &'a R,
    path: &'a str,
}

impl<'a, R: Files<File = File> + AllocGlobal> SystemFolder<'a, R> {
    pub fn new(rt: &'a R, path: &'a str) -> Self {
        SystemFolder { rt, path }
    }

    fn file_path(&self, file: WorldFile) -> io::Result<PathBuf> {
        Ok(path_of(self.rt.alloc(), self.path, file.name())?)
    }

    // Opens a file only to read it. A file of another kind isn't opened: to open a pipe
    // waits for its writer.
    fn open_plain(&self, file: WorldFile) -> io::Result<File> {
        let path = self.file_path(file)?;
        if !fs::metadata(self.rt, path.as_path())?.is_file() {
            return Err(io::Error::other(NOT_REGULAR));
        }
        File::open(self.rt, path.as_path())
    }
}

impl<R: Files<File = File> + Clock + Print + Eprint + AllocGlobal> Source for SystemFolder<'_, R> {
    type File = FileDisk;

    ghost honest = { false };

    ghost path = { λ folder. folder.path.now };

    ghost history = { λ _. [] };

    fn alloc(&self) -> Global {
        self.rt.alloc()
    }

    fn path(&self) -> &str {
        self.path
    }

    fn open_to_read(&mut self, file: WorldFile, how: Reading) -> io::Result<SourceFile<FileDisk>> {
        let opened = self.open_plain(file)?;
        Ok(SourceFile::of(match how {
            Reading::Cached => FileDisk::open_cached(opened)?,
            Reading::Synced => FileDisk::open_to_read(opened)?,
        }))
    }

    fn read_guard(&mut self) -> Result<Option<Guard>, Failure> {
        guard_file::read_guard(self.rt, self.path)
    }

    fn guard_age(&self) -> Option<u64> {
        guard_file::guard_age(self.rt, self.path)
    }

    fn length(&mut self, file: WorldFile) -> io::Result<u64> {
        Ok(fs::metadata(self.rt, self.file_path(file)?.as_path())?.len())
    }

    fn lock_state(&mut self, file: WorldFile) -> io::Result<LockState> {
        let opened = self.open_plain(file);
        let state = opened.map(|file: _| lock_state(&file));
        Ok(state.unwrap_or(LockState::Unknown))
    }

    fn own_lock_state(&mut self) -> io::Result<LockState> {
        let opened = File::open(self.rt, self.path);
        let state = opened.map(|folder: _| lock_state(&folder));
        Ok(state.unwrap_or(LockState::Unknown))
    }

    fn print<T: Display + Drop>(&mut self, line: T) -> io::Result<()> {
        self.rt.println(line)
    }

    fn warn<T: Display + Drop>(&mut self, line: T) -> io::Result<()> {
        let _ = self.rt.eprintln(line);
        Ok(())
    }

    fn pause(&self) {
        thread::sleep(self.rt, Duration::from_millis(PAUSE_MILLISECONDS));
    }
}

impl<R: Files<File = File> + Clock + Print + Eprint + AllocGlobal> Folder for SystemFolder<'_, R> {
    type Handle = File;

    ghost entry_of = { λ _. no_entry };

    ghost content_of = { λ _. [] };

    ghost identity = { λ _. no_identity };

    fn look(&mut self, file: WorldFile) -> io::Result<Option<Entry>> {
        match fs::symlink_metadata(self.rt, self.file_path(file)?.as_path()) {
            Ok(metadata) => Ok(Some(Entry::of(&metadata))),
            Err(error) if error.kind() == ErrorKind::NotFound => Ok(None),
            Err(error) => Err(error),
        }
    }

    fn open(&mut self, file: WorldFile) -> io::Result<File> {
        let mut how = OpenOptions::new();
        how.read(true).write(true);
        how.open(self.rt, self.file_path(file)?.as_path())
    }

    fn make(&mut self, file: WorldFile) -> io::Result<File> {
        let mut how = OpenOptions::new();
        how.read(true)
            .write(true)
            .create_new(true)
            .mode(OWNER_ALONE)
            .open(self.rt, self.file_path(file)?.as_path())
    }

    fn remove(&mut self, file: WorldFile) -> io::Result<()> {
        fs::remove_file(self.rt, self.file_path(file)?.as_path())
    }

    fn entry(&self, handle: &File) -> io::Result<Entry> {
        Ok(Entry::of(&handle.metadata()?))
    }

    fn lock(&mut self, handle: &File) -> io::Result<()> {
        lock(self.rt, handle)
    }

    fn take(&self, handle: File) -> io::Result<FileDisk> {
        FileDisk::open(handle)
    }

    fn unguarded(&self) -> Result<(), Failure> {
        guard_file::unguarded(self.rt, self.path)
    }

    fn put_guard(&mut self, guard: &Guard) -> io::Result<()> {
        let put = guard_file::put_guard(self.rt, self.path, guard);
        if put.is_err() {
            remove_guard(self.rt, self.path);
        }
        put
    }

    fn sync_names(&mut self) -> io::Result<()> {
        File::open(self.rt, self.path)?.sync_all()
    }

    // It does nothing if a file system is mounted there, which needs no name, or if this user can't
    // read the folder above it.
    fn sync_own_name(&mut self) -> io::Result<()> {
        let above = Path::new(self.path).join(self.rt.alloc(), ABOVE)?;
        let device = fs::metadata(self.rt, above.as_path())?.dev();
        if device != fs::metadata(self.rt, self.path)?.dev() {
            return Ok(());
        }
        match sync_folder(self.rt, above.as_path()) {
            Err(error) if error.kind() == ErrorKind::PermissionDenied => Ok(()),
            synced => synced,
        }
    }

    fn is_empty(&mut self) -> io::Result<bool> {
        Ok(fs::read_dir(&self.rt, self.path)?.next().is_none())
    }

    fn lies_in(&mut self, outer: &str) -> io::Result<bool> {
        let own = fs::canonicalize(self.rt, self.path)?;
        match fs::canonicalize(self.rt, outer) {
            Ok(other) => Ok(own.as_str() != other.as_str() && own.starts_with(other.as_str())),
            Err(_) => Ok(false),
        }
    }
}

// Makes the names in a folder durable.
fn sync_folder<R: Files<File = File>>(rt: &R, folder: Path<'_>) -> io::Result<()> {
    File::open(rt, folder)?.sync_all()
}
