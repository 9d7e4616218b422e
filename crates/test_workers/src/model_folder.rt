//! A folder in memory. It shows that the promises of a folder's calls can be kept, and tests
//! run commands on it.
ghost use Rattle.std.specs.Prelude.{◌≡◌, ◌∷◌, true, None, Option, IsTrue, OnOk, OnErr, IfOk, IfErr};
ghost use Rattle.std.specs.Prelude.{min};
ghost use Rattle.std.specs.IoError.{error_kind};
ghost use Rattle.disk_model.specs.Disk.{Only, last_count, min-last_count};
ghost use Rattle.disk_model.specs.CrashOutcome.{IsCrashOutcome, content_stays, calls_keep_byte};
ghost use Rattle.disk_model.specs.FileState.{Calls};
ghost use Rattle.test_workers.specs.ModelFolder.{act_of, acts_of};

use crate::note::Note;
use disk_model::{Disk, FourFiles, ModelFile, WorldFile};
use file_disk::{Pace, Valve};
use std::alloc::{AllocError, Global};
use std::fmt::Display;
use std::io::{self, ErrorKind};
use world_actions::Refusal;
use world_folder::{
    Entry, Failure, FileKind, Folder, GUARD, Guard, Identity, LockState, Occupied, Reading, Source,
    SourceFile, WorldDisk,
};
use world_server::ServedDisk;

/// The number of the device on which the files lie.
const DEVICE: u64 = 1;

/// A file of a `ModelFolder` that is open to be written.
#[derive(Drop)]
pub struct ModelHandle {
    entry: Entry,
    bytes: Vec<u8>,
}

/// A file of a `ModelFolder`.
#[derive(Drop)]
pub struct ModelDisk {
    file: ModelFile,
    identity: Identity,
}

impl Disk for ModelDisk {
    ghost content = { λ disk. disk.file.content };

    ghost may_leave = { λ disk left. IsCrashOutcome disk.file left };

    ghost honest = { true };

    ghost faults = { λ disk. min disk.file.faults last_count };

    ghost called = { λ before call succeeded after. Calls before.file call succeeded after.file };

    ghost stays = { λ disk _. content_stays disk.file };

    ghost are_bytes = { λ disk left _ outcome. outcome.are_bytes };

    ghost keeps_byte = { λ old new call ok _. calls_keep_byte old.file new.file call ok };

    ghost few_faults = { λ disk. min-last_count disk.file.faults };

    fn len(&mut self) -> Result<u64, Refusal> {
        self.file.len()
    }

    fn read_at(&mut self, at: u64, into: &mut [u8]) -> Result<(), Refusal> {
        self.file.read_at(at, into)
    }

    fn write_at(&mut self, at: u64, bytes: &[u8]) -> Result<(), Refusal> {
        self.file.write_at(at, bytes)
    }

    fn sync(&mut self) -> Result<(), Refusal> {
        self.file.sync()
    }
}

impl WorldDisk for ModelDisk {
    ghost failure = { λ _. None };

    fn last_failure(&self) -> Option<io::Error> {
        None
    }
}

impl ServedDisk for ModelDisk {
    fn pace(&mut self, _pace: Pace) {}

    fn stop_by(&mut self, _valve: Valve) {}
}

/// A folder in memory. A read of a name gives the bytes that the folder was made with, whatever is
/// written meanwhile. So a test gives the bytes of files that are to be made, too.
#[derive(Drop)]
pub struct ModelFolder<'a> {
    alloc: Global,
    path: &'a str,
    bytes: FourFiles<Vec<u8>>,
    there: FourFiles<bool>,
    guard: Option<Guard>,
    // The latest one first.
    notes: Vec<Note>,
}

impl<'a> ModelFolder<'a> {
    /// A folder of which each file that is there has these bytes. A file that isn't there has them
    /// once it was made. It has no guard.
    pub fn new(
        alloc: Global,
        path: &'a str,
        bytes: FourFiles<Vec<u8>>,
        there: FourFiles<bool>,
    ) -> Self {
        ModelFolder {
            alloc,
            path,
            bytes,
            there,
            guard: None,
            notes: Vec::new(alloc),
        }
    }

    /// The calls that succeeded, and the lines that were printed, the latest one first.
    pub fn notes(&self) -> &[Note]
        ensures { acts_of result.now ≡ acts_of self.now.notes.items }
    {
        &self.notes
    }

    fn note(&mut self, note: Note) -> io::Result<()>
        ensures noted { OnOk result
            (acts_of self.new.notes.items ≡ act_of note ∷ acts_of self.old.notes.items) }
        ensures failed { OnErr result
            (acts_of self.new.notes.items ≡ acts_of self.old.notes.items) }
        ensures memory { IfErr result (λ error. error_kind error ≡ ErrorKind.OutOfMemory) }
        ensures path { self.new.path ≡ self.old.path }
    {
        match self.notes.insert(0, note) {
            Ok(()) => Ok(()),
            Err(_) => Err(io::Error::from(AllocError)),
        }
    }

    fn copy_of(&self, file: WorldFile) -> io::Result<Vec<u8>> {
        if !*self.there.get(file) {
            return Err(io::Error::from_raw_os_error(libc::ENOENT));
        }
        Ok(Vec::from_slice(self.alloc, self.bytes.get(file))?)
    }
}

// The entry of a file, which has a number by its name.
fn entry_of(file: WorldFile) -> Entry {
    let inode = match file {
        WorldFile::ImageA => 1,
        WorldFile::ImageB => 2,
        WorldFile::LogA => 3,
        WorldFile::LogB => 4,
    };
    Entry {
        kind: FileKind::Regular,
        identity: Identity::new(DEVICE, inode),
        names: 1,
    }
}

// A file with these bytes, which are durable.
fn disk_of(alloc: Global, bytes: Vec<u8>, identity: Identity) -> io::Result<ModelDisk>
    ensures content { IfOk result (λ disk. disk.file.content ≡ bytes.items) }
    ensures synced { IfOk result (λ disk. Only bytes.items (IsCrashOutcome disk.file)) }
    ensures identity { IfOk result (λ disk. disk.identity ≡ identity) }
    ensures memory { IfErr result (λ error. error_kind error ≡ ErrorKind.OutOfMemory) }
{
    match ModelFile::new(alloc, bytes) {
        Ok(file) => Ok(ModelDisk { file, identity }),
        Err(_) => Err(io::Error::from(AllocError)),
    }
}

impl Source for ModelFolder<'_> {
    type File = ModelDisk;

    ghost honest = { true };

    ghost path = { λ folder. folder.path.now };

    ghost history = { λ folder. acts_of folder.notes.items };

    fn alloc(&self) -> Global {
        self.alloc
    }

    fn path(&self) -> &str {
        self.path
    }

    fn open_to_read(
        &mut self,
        file: WorldFile,
        _how: Reading,
    ) -> io::Result<SourceFile<ModelDisk>> {
        if !*self.there.get(file) {
            self.note(Note::Unopened(file))?;
            return Err(io::Error::from_raw_os_error(libc::ENOENT));
        }
        let bytes = Vec::from_slice(self.alloc, self.bytes.get(file))?;
        let disk = disk_of(self.alloc, bytes, entry_of(file).identity)?;
        let read = Vec::from_slice(self.alloc, disk.file.now())?;
        self.note(Note::Read(file, read))?;
        Ok(SourceFile::of(disk))
    }

    fn read_guard(&mut self) -> Result<Option<Guard>, Failure> {
        let guard = self.guard;
        self.note(Note::GuardRead(guard))?;
        Ok(guard)
    }

    fn guard_age(&self) -> Option<u64> {
        None
    }

    fn length(&mut self, file: WorldFile) -> io::Result<u64> {
        let length = self.copy_of(file)?.len() as u64;
        self.note(Note::Measured(file, length))?;
        Ok(length)
    }

    fn lock_state(&mut self, file: WorldFile) -> io::Result<LockState> {
        self.note(Note::Asked(file, LockState::Free))?;
        Ok(LockState::Free)
    }

    fn own_lock_state(&mut self) -> io::Result<LockState> {
        self.note(Note::AskedOwn(LockState::Free))?;
        Ok(LockState::Free)
    }

    fn print<T: Display + Drop>(&mut self, line: T) -> io::Result<()> {
        let text = line.to_string(self.alloc)?;
        self.note(Note::Printed(text))
    }

    fn warn<T: Display + Drop>(&mut self, line: T) -> io::Result<()> {
        let text = line.to_string(self.alloc)?;
        self.note(Note::Warned(text))
    }

    fn pause(&self) {}
}

impl Folder for ModelFolder<'_> {
    type Handle = ModelHandle;

    ghost entry_of = { λ handle. handle.entry };

    ghost content_of = { λ handle. handle.bytes.items };

    ghost identity = { λ disk. disk.identity };

    fn look(&mut self, file: WorldFile) -> io::Result<Option<Entry>> {
        let there = if *self.there.get(file) {
            Some(entry_of(file))
        } else {
            None
        };
        self.note(Note::Looked(file, there))?;
        Ok(there)
    }

    fn open(&mut self, file: WorldFile) -> io::Result<ModelHandle> {
        let bytes = self.copy_of(file)?;
        let entry = entry_of(file);
        let opened = Vec::from_slice(self.alloc, &bytes)?;
        self.note(Note::Opened(file, entry, opened))?;
        Ok(ModelHandle { entry, bytes })
    }

    fn make(&mut self, file: WorldFile) -> io::Result<ModelHandle> {
        if *self.there.get(file) {
            return Err(io::Error::from_raw_os_error(libc::EEXIST));
        }
        let entry = entry_of(file);
        self.note(Note::Made(file, entry))?;
        self.there.set(file, true);
        Ok(ModelHandle {
            entry,
            bytes: Vec::new(self.alloc),
        })
    }

    fn remove(&mut self, file: WorldFile) -> io::Result<()> {
        if !*self.there.get(file) {
            return Err(io::Error::from_raw_os_error(libc::ENOENT));
        }
        self.note(Note::Removed(file))?;
        self.there.set(file, false);
        Ok(())
    }

    fn entry(&self, handle: &ModelHandle) -> io::Result<Entry> {
        Ok(handle.entry)
    }

    fn lock(&mut self, handle: &ModelHandle) -> io::Result<()> {
        self.note(Note::Locked(handle.entry))
    }

    fn take(&self, handle: ModelHandle) -> io::Result<ModelDisk> {
        let ModelHandle { entry, bytes } = handle;
        disk_of(self.alloc, bytes, entry.identity)
    }

    fn unguarded(&self) -> Result<(), Failure> {
        if self.guard.is_none() {
            return Ok(());
        }
        let path = self.path_of(GUARD)?;
        Err(Failure::Occupied(Occupied { path }))
    }

    fn put_guard(&mut self, guard: &Guard) -> io::Result<()> {
        self.note(Note::GuardPut(*guard))?;
        self.guard = Some(*guard);
        Ok(())
    }

    fn sync_names(&mut self) -> io::Result<()> {
        self.note(Note::NamesSynced)
    }

    fn sync_own_name(&mut self) -> io::Result<()> {
        self.note(Note::OwnNameSynced)
    }

    fn is_empty(&mut self) -> io::Result<bool> {
        let there = &self.there;
        if there.image_a || there.image_b || there.log_a || there.log_b {
            return Ok(false);
        }
        self.note(Note::FoundEmpty)?;
        Ok(true)
    }

    // Folders in memory don't lie in one another.
    fn lies_in(&mut self, outer: &str) -> io::Result<bool> {
        let outer = String::from_str(self.alloc, outer)?;
        self.note(Note::FoundOutside(outer))?;
        Ok(false)
    }
}
