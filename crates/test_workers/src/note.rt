//! The calls and lines that a folder in memory notes.
use disk_model::WorldFile;
use world_folder::{Entry, Guard, LockState};

/// A call of a folder that succeeded, with its answer, or a line that was printed.
#[derive(Debug, Drop)]
pub enum Note {
    /// This is what stands under a name, if anything does.
    Looked(WorldFile, Option<Entry>),
    /// The file to which a name leads was opened to be written, and has these bytes.
    Opened(WorldFile, Entry, Vec<u8>),
    /// A new file was made under a name.
    Made(WorldFile, Entry),
    /// A file was locked.
    Locked(Entry),
    /// A file was opened to be read, and has these bytes.
    Read(WorldFile, Vec<u8>),
    /// A file could not be opened to be read.
    Unopened(WorldFile),
    /// A file is so long.
    Measured(WorldFile, u64),
    /// A reader asked for the lock of a file.
    Asked(WorldFile, LockState),
    /// A reader asked for the lock of the folder itself.
    AskedOwn(LockState),
    /// The names of the files are durable.
    NamesSynced,
    /// The name of the folder is durable.
    OwnNameSynced,
    /// The file under a name was removed.
    Removed(WorldFile),
    /// The guard of the world was read, if it has one.
    GuardRead(Option<Guard>),
    /// A guard was put into the folder.
    GuardPut(Guard),
    /// The folder has no file.
    FoundEmpty,
    /// The folder doesn't lie in the one at this path.
    FoundOutside(String),
    /// A line was printed on standard output.
    Printed(String),
    /// A line was printed on standard error.
    Warned(String),
}
