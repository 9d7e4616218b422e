//! The socket of a server. It has a file, whose permissions say who may connect.
ghost use Rattle.std.specs.Prelude.{◌≡◌, ◌≢◌, ◌<◌, length, Err, IsSome, IsOk, IsErr, IfOk, IfErr};
ghost use Rattle.std.specs.IoError.{error_kind};
ghost use Rattle.std.specs.Path.{path_buf_bytes};
ghost use Rattle.std.specs.Fs.{file_type, IsDir, IsFile, IsSymlink};
ghost use Rattle.world_server.specs.Socket.{LetsIn};

use std::fs::{self, DirBuilder, Files, Metadata, Permissions};
use std::io::{self, ErrorKind};
use std::net::Net;
use std::os::unix::fs::{DirBuilderExt, FileTypeExt, MetadataExt, PermissionsExt};
use std::os::unix::net::{UnixListener, UnixStream};
use std::path::PathBuf;
use transports::Listener;

/// The users who may connect to a socket. The system's administrator always may.
#[derive(Clone, Copy, Debug, PartialEq, Eq)]
pub enum SocketMode {
    /// The user that runs the server.
    Owner,
    /// The users of its group too.
    Group,
    /// Each user of the machine.
    Everyone,
}

impl SocketMode {
    ghost use Rattle.std.specs.Prelude.{◌≡◌};
    ghost use Rattle.world_server.specs.Socket.{bits_of};

    /// The permissions of the socket's file.
    pub fn bits(self) -> u32
        ensures { result ≡ bits_of self }
    {
        match self {
            SocketMode::Owner => 0o600,
            SocketMode::Group => 0o660,
            SocketMode::Everyone => 0o666,
        }
    }
}

/// The file of a socket that a server listens on. The system says that it has the permissions of
/// the mode.
#[derive(Drop)]
pub struct SocketFile {
    pub path: PathBuf,
    mode: SocketMode,
    made: Metadata,
    ghost lets_in: { LetsIn mode made },
}

impl SocketFile {
    /// Removes the file, unless another one has its name by now, as that of a server that
    /// has begun since.
    pub fn remove<R: Files>(&self, rt: &R) {
        let path = self.path.as_path();
        if let Ok(there) = fs::symlink_metadata(rt, path)
            && is_one_file(&self.made, &there)
        {
            let _ = fs::remove_file(rt, path);
        }
    }
}

// A new file may get the number of one that was removed, and has a later time then.
fn is_one_file(a: &Metadata, b: &Metadata) -> bool {
    (a.dev(), a.ino()) == (b.dev(), b.ino())
        && (a.mtime(), a.mtime_nsec()) == (b.mtime(), b.mtime_nsec())
}

/// How many bytes a socket's path may have. The system allows 107, and the file is made
/// under a longer name.
const LONGEST_PATH: usize = 101;

/// The permissions of the folder in which the file is made.
const OWNER_ALONE: u32 = 0o700;

/// The bits of a file's mode that say who may read, write and run it.
const PERMISSIONS: u32 = 0o777;

/// Makes a socket at a path, and listens on it. The mode says who may connect from the first moment
/// on. A socket that nobody listens on is replaced, and any other file at the path is refused.
pub fn listen_at<R: Files + Net + AllocGlobal>(
    rt: &R,
    path: &str,
    mode: SocketMode,
) -> io::Result<(Listener, SocketFile)>
    ensures path { IfOk result (λ made. path_buf_bytes made.1.path ≡ path.now) }
    ensures mode { IfOk result (λ made. made.1.mode ≡ mode) }
    ensures long { 101 < length path.now → IsErr result }
{
    if path.len() > LONGEST_PATH {
        return Err(io::Error::other("a socket's path has at most 101 bytes"));
    }
    clear(rt, path)?;
    let room = format!(in rt.alloc(); "{path}.new")?;
    let first = format!(in rt.alloc(); "{path}.new/s")?;
    let own = PathBuf::from_str(rt.alloc(), path)?;
    let (listener, file) = make_in(rt, room.as_str(), first.as_str(), own, mode)?;
    Ok((Listener::Unix(listener), file))
}

// Makes sure that no file is at a path. It removes a socket that nobody listens on, and
// refuses anything else.
fn clear<R: Files + Net>(rt: &R, path: &str) -> io::Result<()> {
    let there = match fs::symlink_metadata(rt, path) {
        Ok(there) => there,
        Err(error) if error.kind() == ErrorKind::NotFound => return Ok(()),
        Err(error) => return Err(error),
    };
    if let Some(reason) = obstacle(&there) {
        return Err(io::Error::other(reason));
    }
    unless_heard(UnixStream::connect(rt, path))?;
    fs::remove_file(rt, path)
}

// Why a file in place of a socket is refused.
fn obstacle(there: &Metadata) -> Option<&'static str>
    ensures link { IsSymlink (file_type there.now) → IsSome result }
    ensures folder { IsDir (file_type there.now) → IsSome result }
    ensures file { IsFile (file_type there.now) → IsSome result }
{
    let kind = there.file_type();
    if kind.is_symlink() {
        Some("a symbolic link is in the socket's place")
    } else if kind.is_dir() {
        Some("a folder is in the socket's place")
    } else if kind.is_file() {
        Some("a file is in the socket's place")
    } else if kind.is_socket() {
        None
    } else {
        Some("a pipe or a device is in the socket's place")
    }
}

// Refuses a socket unless it is known that nobody listens on it, by how a connection to it went.
fn unless_heard(answer: io::Result<UnixStream>) -> io::Result<()>
    ensures heard { IsOk answer → IsErr result }
    ensures deserted { IfErr answer (λ error. error_kind error ≡ ErrorKind.ConnectionRefused
        → IsOk result) }
    ensures unknown { IfErr answer (λ error. error_kind error ≢ ErrorKind.ConnectionRefused
        → result ≡ Err error) }
{
    match answer {
        Ok(_) => Err(io::Error::other("another program listens there")),
        Err(error) if error.kind() == ErrorKind::ConnectionRefused => Ok(()),
        Err(error) => Err(error),
    }
}

// Makes the socket in a new folder, and gives it its own name. Nothing of the folder is left.
fn make_in<R: Files + Net>(
    rt: &R,
    room: &str,
    first: &str,
    path: PathBuf,
    mode: SocketMode,
) -> io::Result<(UnixListener, SocketFile)>
    ensures { IfOk result (λ made. (made.1.path ≡ path) × (made.1.mode ≡ mode)) }
{
    sweep(rt, room, first);
    make_room(rt, room)?;
    let made = make(rt, first, path, mode);
    sweep(rt, room, first);
    made
}

// Makes the folder, which only its owner may enter.
fn make_room<R: Files>(rt: &R, room: &str) -> io::Result<()> {
    match DirBuilder::new().mode(OWNER_ALONE).create(rt, room) {
        Err(error) if error.kind() == ErrorKind::AlreadyExists => Err(io::Error::other(
            "this name with `.new` after it already exists",
        )),
        answer => answer,
    }
}

// Makes the socket in the folder, sets its permissions, and then gives it its own name, which no
// other file may have.
fn make<R: Files + Net>(
    rt: &R,
    first: &str,
    path: PathBuf,
    mode: SocketMode,
) -> io::Result<(UnixListener, SocketFile)>
    ensures { IfOk result (λ made. (made.1.path ≡ path) × (made.1.mode ≡ mode)) }
{
    let listener = UnixListener::bind(rt, first)?;
    fs::set_permissions(rt, first, Permissions::from_mode(mode.bits()))?;
    let file = file_with(path, mode, fs::symlink_metadata(rt, first)?)?;
    fs::hard_link(rt, first, file.path.as_path())?;
    Ok((listener, file))
}

// Refuses a file whose permissions aren't those of the mode: its file system keeps none.
fn file_with(path: PathBuf, mode: SocketMode, made: Metadata) -> io::Result<SocketFile>
    ensures { IfOk result (λ file. (file.path ≡ path) × (file.mode ≡ mode)) }
{
    if made.permissions().mode() & PERMISSIONS != mode.bits() {
        return Err(io::Error::other("this file system keeps no permissions"));
    }
    Ok(SocketFile { path, mode, made })
}

// Removes the socket's first name and the folder, also those of a server that was killed as it
// began. It leaves a folder that has anything else.
fn sweep<R: Files>(rt: &R, room: &str, first: &str) {
    if let Ok(there) = fs::symlink_metadata(rt, first)
        && there.file_type().is_socket()
    {
        let _ = fs::remove_file(rt, first);
    }
    let _ = fs::remove_dir(rt, room);
}
