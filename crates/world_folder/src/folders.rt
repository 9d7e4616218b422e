//! The calls of the system that the commands make in one folder, and the lines that they print.
ghost use Rattle.std.specs.Prelude.{◌≡◌, ◌∷◌, [], ℕ, Bool, true, false, Ok, List, Option, Some};
ghost use Rattle.std.specs.Prelude.{None, ◌≢◌};
ghost use Rattle.std.specs.Prelude.{IsTrue, IfOk, IfErr, OnOk, OnErr, IsErrAnd};
ghost use Rattle.std.specs.Path.{path_buf_bytes, path_join};
ghost use Rattle.std.specs.declared.io.Error.{Error};
ghost use Rattle.std.proofs.lemmas.Bool.{false≢true};
ghost use Rattle.disk_model.specs.Disk.{Only};
ghost use Rattle.world_folder.specs.History.{Act, Looked, Opened, Made, Locked, Read, Measured};
ghost use Rattle.world_folder.specs.History.{Asked, AskedOwn, NamesSynced, OwnNameSynced};
ghost use Rattle.world_folder.specs.Ending.{ReportsOf};
ghost use Rattle.world_folder.specs.History.{FoundEmpty, FoundOutside, Removed};
ghost use Rattle.world_folder.specs.History.{GuardRead, GuardPut};
ghost use Rattle.world_folder.specs.History.{IsPrinted, IsWarned, IsUnopened};
ghost use Rattle.world_folder.specs.declared.entry.Entry.{Entry as FileEntry};
ghost use Rattle.world_folder.specs.declared.entry.Identity.{Identity as FileIdentity};

use crate::entry::Entry;
use crate::failure::Failure;
use crate::guard::Guard;
use crate::opening::{blame, failure_for, path_of};
use crate::source_file::SourceFile;
use disk_model::{Disk, WorldFile};
use file_disk::{FileDisk, LockState};
use std::alloc::{AllocError, Global};
use std::fmt::Display;
use std::io;
use std::path::PathBuf;

/// How a file is opened to be read.
#[derive(Clone, Copy, Debug, PartialEq, Eq)]
pub enum Reading {
    /// As the system has it.
    Cached,
    /// As the device has it. It is synced first.
    Synced,
}

/// A disk that keeps the error of its last call that failed.
pub trait WorldDisk: Disk {
    /// That error.
    ghost failure: { Self → Option Error };

    /// The error of the last call that failed.
    fn last_failure(&self) -> Option<io::Error>
        ensures { IsTrue Self.honest → result ≡ failure self.now };
}

impl WorldDisk for FileDisk {
    ghost failure = { λ _. None };

    fn last_failure(&self) -> Option<io::Error> {
        self.failure().copied()
    }
}

/// A folder of the system with the four files of a world, which are only read, and the lines that
/// are printed. It has no call that changes a file, so each command that takes a folder so leaves
/// its files as they are, however it ends. A call that fails is no part of its history, except for
/// a file that can't be opened.
pub trait Source {
    type File: WorldDisk + Drop;

    /// True if each call of this type does and answers what its name says. If it is false,
    /// contracts state nothing of the calls.
    ghost honest: { Bool };

    /// Its path.
    ghost path: { Self → List ℕ };

    /// The calls that succeeded, and the lines that were printed, the latest one first.
    ghost history: { Self → List Act };

    fn alloc(&self) -> Global;

    fn path(&self) -> &str
        ensures { result.now ≡ path self.now };

    /// The path of the file of this name.
    fn path_of(&self, name: &str) -> Result<PathBuf, AllocError>
        ensures { IfOk result (λ found. path_buf_bytes found ≡ path_join (path self.now) name.now) }
    {
        path_of(self.alloc(), self.path(), name)
    }

    /// The failure of a command that can't use the file of this name, and why.
    fn failure_for(&self, name: &str, error: io::Error) -> Failure
        ensures reports { ReportsOf (path self.now) name.now error result }
    {
        failure_for(self.alloc(), self.path(), name, error)
    }

    /// The answer of a call. An error is a failure that names this file.
    fn blame<T>(&self, name: &str, answer: io::Result<T>) -> Result<T, Failure>
        ensures ok { IfOk answer (λ value. result ≡ Ok value) }
        ensures fails { IfErr answer (λ error.
            IsErrAnd result (ReportsOf (path self.now) name.now error)) }
    {
        blame(self.alloc(), self.path(), name, answer)
    }

    /// Opens the file to which a name leads, only to read it.
    fn open_to_read(&mut self, file: WorldFile, how: Reading) -> io::Result<SourceFile<Self::File>>
        ensures read { IsTrue honest
            → IfOk result (λ opened. history self.new
            ≡ Read file (Self.File.content opened.disk) ∷ history self.old) }
        ensures failed { IsTrue honest
            → IfErr result (λ error. IsUnopened file error (history self.old) (history self.new)) }
        ensures path { path self.new ≡ path self.old };

    /// Reads the guard of the world, if it has one.
    fn read_guard(&mut self) -> Result<Option<Guard>, Failure>
        ensures read { IsTrue honest
            → IfOk result (λ guard. history self.new ≡ GuardRead guard ∷ history self.old) }
        ensures failed { IsTrue honest → OnErr result (history self.new ≡ history self.old) }
        ensures path { path self.new ≡ path self.old };

    /// How many seconds ago the guard was written or touched, if there is one.
    fn guard_age(&self) -> Option<u64>;

    /// How long the file is to which a name leads.
    fn length(&mut self, file: WorldFile) -> io::Result<u64>
        ensures length { IsTrue honest
            → IfOk result (λ length. history self.new ≡ Measured file length ∷ history self.old) }
        ensures failed { IsTrue honest → OnErr result (history self.new ≡ history self.old) };

    /// Asks for the lock of the file to which a name leads, as a reader does. It is no error if the
    /// system can't say.
    fn lock_state(&mut self, file: WorldFile) -> io::Result<LockState>
        ensures asked { IsTrue honest
            → IfOk result (λ state. history self.new ≡ Asked file state ∷ history self.old) };

    /// Asks for the lock of the folder itself, as `lock_state` does for a file.
    fn own_lock_state(&mut self) -> io::Result<LockState>
        ensures asked { IsTrue honest
            → IfOk result (λ state. history self.new ≡ AskedOwn state ∷ history self.old) };

    /// Prints a line on standard output.
    fn print<T: Display + Drop>(&mut self, line: T) -> io::Result<()>
        ensures printed { IsTrue honest
            → OnOk result (IsPrinted (T.output line) (history self.old) (history self.new)) }
        ensures failed { IsTrue honest → OnErr result (history self.new ≡ history self.old) };

    /// Prints a line on standard error, if that can be written. It is no error if it can't.
    fn warn<T: Display + Drop>(&mut self, line: T) -> io::Result<()>
        ensures warned { IsTrue honest
            → OnOk result (IsWarned (T.output line) (history self.old) (history self.new)) }
        ensures failed { IsTrue honest → OnErr result (history self.new ≡ history self.old) };

    /// Waits a moment.
    fn pause(&self);
}

/// A folder that is also written.
pub trait Folder: Source {
    /// A file that is open to be written.
    type Handle: Drop;

    /// The file after a handle.
    ghost entry_of: { Self.Handle → FileEntry };

    /// Its bytes.
    ghost content_of: { Self.Handle → List ℕ };

    /// The file that a disk was taken of.
    ghost identity: { Self.File → FileIdentity };

    /// The entry under a name, if there is one. It follows no symbolic link.
    fn look(&mut self, file: WorldFile) -> io::Result<Option<Entry>>
        ensures looked { IsTrue Self.honest
            → IfOk result (λ there.
            Self.history self.new ≡ Looked file there ∷ Self.history self.old) }
        ensures failed { IsTrue Self.honest
            → OnErr result (Self.history self.new ≡ Self.history self.old) }
        ensures path { Self.path self.new ≡ Self.path self.old };

    /// Opens the file to which a name leads, to read and write it.
    fn open(&mut self, file: WorldFile) -> io::Result<Self::Handle>
        ensures opened { IsTrue Self.honest
            → IfOk result (λ handle. Self.history self.new
            ≡ Opened file (entry_of handle) (content_of handle) ∷ Self.history self.old) }
        ensures failed { IsTrue Self.honest
            → OnErr result (Self.history self.new ≡ Self.history self.old) }
        ensures path { Self.path self.new ≡ Self.path self.old };

    /// Makes a file that only its owner may read and write. One that is there is an error.
    fn make(&mut self, file: WorldFile) -> io::Result<Self::Handle>
        ensures made { IsTrue Self.honest
            → IfOk result (λ handle. Self.history self.new
            ≡ Made file (entry_of handle) ∷ Self.history self.old) }
        ensures empty { IsTrue Self.honest → IfOk result (λ handle. content_of handle ≡ []) }
        ensures failed { IsTrue Self.honest
            → OnErr result (Self.history self.new ≡ Self.history self.old) }
        ensures path { Self.path self.new ≡ Self.path self.old };

    /// Removes the file under a name.
    fn remove(&mut self, file: WorldFile) -> io::Result<()>
        ensures removed { IsTrue Self.honest
            → OnOk result (Self.history self.new ≡ Removed file ∷ Self.history self.old) }
        ensures failed { IsTrue Self.honest
            → OnErr result (Self.history self.new ≡ Self.history self.old) };

    /// Describes an open file.
    fn entry(&self, handle: &Self::Handle) -> io::Result<Entry>
        ensures { IsTrue Self.honest → IfOk result (λ entry. entry ≡ entry_of handle.now) };

    /// Locks an open file for this program, which writes it.
    fn lock(&mut self, handle: &Self::Handle) -> io::Result<()>
        ensures locked { IsTrue Self.honest
            → OnOk result
            (Self.history self.new ≡ Locked (entry_of handle.now) ∷ Self.history self.old) }
        ensures failed { IsTrue Self.honest
            → OnErr result (Self.history self.new ≡ Self.history self.old) }
        ensures path { Self.path self.new ≡ Self.path self.old };

    /// Takes an open file as a disk, which is synced.
    fn take(&self, handle: Self::Handle) -> io::Result<Self::File>
        ensures file { IsTrue Self.honest
            → IfOk result (λ disk. identity disk ≡ (entry_of handle).identity) }
        ensures content { IsTrue Self.honest
            → IfOk result (λ disk. Self.File.content disk ≡ content_of handle) }
        ensures synced { IsTrue Self.honest → IsTrue Self.File.honest
            → IfOk result (λ disk. Only (Self.File.content disk) (Self.File.may_leave disk)) };

    /// Refuses to make a world in a folder that has the guard of another one.
    fn unguarded(&self) -> Result<(), Failure>;

    /// Puts a guard into a folder that has none, whole and durably. If that fails, it has none.
    fn put_guard(&mut self, guard: &Guard) -> io::Result<()>
        ensures put { IsTrue Self.honest
            → OnOk result (Self.history self.new ≡ GuardPut guard.now ∷ Self.history self.old) }
        ensures failed { IsTrue Self.honest
            → OnErr result (Self.history self.new ≡ Self.history self.old) };

    /// Makes the names of the files durable.
    fn sync_names(&mut self) -> io::Result<()>
        ensures synced { IsTrue Self.honest
            → OnOk result (Self.history self.new ≡ NamesSynced ∷ Self.history self.old) }
        ensures failed { IsTrue Self.honest
            → OnErr result (Self.history self.new ≡ Self.history self.old) };

    /// Makes the name of the folder durable.
    fn sync_own_name(&mut self) -> io::Result<()>
        ensures synced { IsTrue Self.honest
            → OnOk result (Self.history self.new ≡ OwnNameSynced ∷ Self.history self.old) }
        ensures failed { IsTrue Self.honest
            → OnErr result (Self.history self.new ≡ Self.history self.old) };

    /// True if the folder has no file.
    fn is_empty(&mut self) -> io::Result<bool>
        ensures empty { IsTrue Self.honest → result ≡ Ok true
            → Self.history self.new ≡ FoundEmpty ∷ Self.history self.old }
        ensures other { IsTrue Self.honest
            → result ≢ Ok true → Self.history self.new ≡ Self.history self.old };

    /// True if the folder lies in the one at a path, at any depth. A path that leads to no folder
    /// has none in it.
    fn lies_in(&mut self, outer: &str) -> io::Result<bool>
        ensures outside { IsTrue Self.honest → result ≡ Ok false
            → Self.history self.new ≡ FoundOutside outer.now ∷ Self.history self.old }
        ensures other { IsTrue Self.honest
            → result ≢ Ok false → Self.history self.new ≡ Self.history self.old };
}
