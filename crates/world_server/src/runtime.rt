//! What a server needs of the system.
use std::fs::{self, File, Files};
use std::io;
use std::net::{Net, TcpListener, TcpStream};
use std::sync::Wait;
use std::thread::Threads;
use std::time::Clock;
use world_folder::{Entry, Guard, put_guard, touch_guard};

/// The handles that a server needs beside those that its threads get. The kit wants these in the
/// bounds of each function, from the program's first on.
pub trait Runtime: Threads + Files<File = File> + Print + Eprint + AllocGlobal {}

impl<R: Threads + Files<File = File> + Print + Eprint + AllocGlobal> Runtime for R {}

/// The handles that the threads of a server get too. `serve` names each of them, since the kit
/// proves no `main` that calls a function with this bound.
pub trait ThreadRuntime: Wait + Clock + LookUp + Net<Listener = TcpListener, Stream = TcpStream> {}

impl<R: Wait + Clock + LookUp + Net<Listener = TcpListener, Stream = TcpStream>> ThreadRuntime
    for R {}

/// The calls on files of the thread that looks at a server. The kit proves no thread that has
/// `Files`.
pub trait LookUp {
    /// The file to which a path leads.
    fn entry_at(&self, path: &str) -> io::Result<Entry>;

    /// Puts a guard into the folder at a path, whole and durably.
    fn put_guard(&self, folder: &str, guard: &Guard) -> io::Result<()>;

    /// Gives the guard in the folder at a path the time that it is now.
    fn touch_guard(&self, folder: &str) -> io::Result<()>;
}

impl LookUp for HostRuntime {
    fn entry_at(&self, path: &str) -> io::Result<Entry> {
        Ok(Entry::of(&fs::metadata(self, path)?))
    }

    fn put_guard(&self, folder: &str, guard: &Guard) -> io::Result<()> {
        put_guard(self, folder, guard)
    }

    fn touch_guard(&self, folder: &str) -> io::Result<()> {
        touch_guard(self, folder)
    }
}
