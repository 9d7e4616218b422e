//! The guard of a world in a folder of the system.
ghost use Rattle.std.specs.Prelude.{◌≡◌, ◌≢◌, false};

use crate::ending::Ending;
use crate::failure::{Failure, Occupied};
use crate::guard::{GUARD, GUARD_BYTES, Guard, NEW_GUARD};
use crate::opening::{blame, failure_for, path_of};
use crate::system_folder::OWNER_ALONE;
use disk_model::{IMAGE_A, IMAGE_B, LOG_A, LOG_B};
use std::fs::{self, File, Files, OpenOptions};
use std::io::{self, ErrorKind, Read, Write};
use std::os::unix::fs::OpenOptionsExt;
use std::path::{Path, PathBuf};
use std::time::{Clock, Duration, SystemTime, UNIX_EPOCH};

/// The source of random numbers of the system.
const RANDOM: &str = "/dev/urandom";

/// Why a file of another kind is refused as a guard.
const NO_GUARD: &str = "it isn't the guard of a world: remove it to go on without one";

/// The guard of the world in a folder, if it has one. A read that fails is tried again. It is read
/// before the files, so that what a server writes meanwhile doesn't count. In a folder of which no
/// file can be looked at there is none: the files are named then.
pub fn read_guard<R: Files<File = File> + AllocGlobal>(
    rt: &R,
    folder: &str,
) -> Result<Option<Guard>, Failure> {
    let path = path_of(rt.alloc(), folder, GUARD)?;
    let bytes = match guard_bytes(rt, path.as_str()) {
        Err(error) if error.kind() != ErrorKind::NotFound => guard_bytes(rt, path.as_str()),
        read => read,
    };
    match bytes {
        Err(error) if error.kind() == ErrorKind::NotFound => Ok(None),
        Err(error) if has_files(rt, folder) => Err(failure_for(rt.alloc(), folder, GUARD, error)),
        Err(_) => Ok(None),
        Ok(bytes) => match Guard::read(&bytes) {
            Some(guard) => Ok(Some(guard)),
            None => Err(failure_for(rt.alloc(), folder, GUARD, io::Error::other(NO_GUARD))),
        },
    }
}

// True if one of the four files can be looked at.
fn has_files<R: Files<File = File> + AllocGlobal>(rt: &R, folder: &str) -> bool {
    has_file(rt, folder, IMAGE_A)
        || has_file(rt, folder, IMAGE_B)
        || has_file(rt, folder, LOG_A)
        || has_file(rt, folder, LOG_B)
}

fn has_file<R: Files<File = File> + AllocGlobal>(rt: &R, folder: &str, name: &str) -> bool {
    match path_in(rt, folder, name) {
        Ok(path) => fs::symlink_metadata(rt, path.as_path()).is_ok(),
        Err(_) => false,
    }
}

// The bytes of a guard. Of a longer file it reads one byte more than a guard has.
fn guard_bytes<R: Files<File = File> + AllocGlobal>(rt: &R, path: &str) -> io::Result<Vec<u8>> {
    if !fs::metadata(rt, path)?.is_file() {
        return Err(io::Error::other(NO_GUARD));
    }
    let mut file = File::open(rt, path)?;
    let mut bytes = Vec::new(rt.alloc());
    file.take(GUARD_BYTES as u64 + 1).read_to_end(&mut bytes)?;
    Ok(bytes)
}

/// Puts a guard into a folder, whole and durably: it is written as a new file, which then takes the
/// place of the old one. If that fails, the old one stays.
pub fn put_guard<R: Files<File = File> + AllocGlobal>(
    rt: &R,
    folder: &str,
    guard: &Guard,
) -> io::Result<()> {
    let new = path_in(rt, folder, NEW_GUARD)?;
    let _ = fs::remove_file(rt, new.as_path());
    let placed = place_guard(rt, folder, new.as_path(), guard);
    if placed.is_err() {
        let _ = fs::remove_file(rt, new.as_path());
    }
    placed
}

// Writes a guard to this path, and gives it its name.
fn place_guard<R: Files<File = File> + AllocGlobal>(
    rt: &R,
    folder: &str,
    new: Path<'_>,
    guard: &Guard,
) -> io::Result<()> {
    let place = path_in(rt, folder, GUARD)?;
    let bytes = guard.bytes(rt.alloc())?;
    let mut how = OpenOptions::new();
    let mut file = how
        .write(true)
        .create_new(true)
        .mode(OWNER_ALONE)
        .open(rt, new)?;
    file.write_all(&bytes)?;
    file.sync_all()?;
    fs::rename(rt, new, place.as_path())?;
    File::open(rt, folder)?.sync_all()
}

/// Gives the guard in a folder the time that it is now, by which its server is known to run on.
pub fn touch_guard<R: Files<File = File> + Clock + AllocGlobal>(
    rt: &R,
    folder: &str,
) -> io::Result<()> {
    let path = path_in(rt, folder, GUARD)?;
    if !fs::metadata(rt, path.as_path())?.is_file() {
        return Err(io::Error::other(NO_GUARD));
    }
    let now = match SystemTime::now(rt) {
        Ok(now) => now,
        Err(_) => return Err(io::Error::from(ErrorKind::Unsupported)),
    };
    File::open(rt, path.as_path())?.set_modified(now)
}

/// How many seconds ago the guard in a folder was written or touched, if it has one.
pub fn guard_age<R: Files<File = File> + Clock + AllocGlobal>(rt: &R, folder: &str) -> Option<u64> {
    let path = path_in(rt, folder, GUARD).ok()?;
    let touched = fs::metadata(rt, path.as_path()).ok()?.modified().ok()?;
    match SystemTime::now(rt).ok()?.duration_since(touched) {
        Ok(passed) => Some(passed.as_secs()),
        Err(_) => Some(0),
    }
}

/// Refuses to make a world in a folder that has the guard of another one.
pub fn unguarded<R: Files<File = File> + AllocGlobal>(rt: &R, folder: &str) -> Result<(), Failure> {
    let path = path_of(rt.alloc(), folder, GUARD)?;
    match fs::symlink_metadata(rt, path.as_path()) {
        Ok(_) => Err(Failure::Occupied(Occupied { path })),
        Err(_) => Ok(()),
    }
}

/// Removes the guard of a copy that failed.
pub fn remove_guard<R: Files<File = File> + AllocGlobal>(rt: &R, folder: &str) {
    if let Ok(path) = path_in(rt, folder, GUARD) {
        let _ = fs::remove_file(rt, path.as_path());
    }
}

/// Gives a new world its guard, if that is asked for and the world was made. It returns how the
/// command ends that made the world so.
pub fn guarded<R: Files<File = File> + Clock + AllocGlobal>(
    rt: &R,
    folder: &str,
    guards: bool,
    made: Ending,
) -> Ending
    ensures unasked { guards ≡ false → result ≡ made }
    ensures unmade { made ≢ Ending.Ran → result ≡ made }
{
    match (guards, made) {
        (true, Ending::Ran) => {
            let written = put_guard(rt, folder, &new_guard(rt, 0, 0));
            Ending::of_command(blame(rt.alloc(), folder, GUARD, written))
        }
        (_, made) => made,
    }
}

/// The guard of a world that has never had one.
pub fn new_guard<R: Files<File = File> + Clock + AllocGlobal>(
    rt: &R,
    acked: u64,
    image: u64,
) -> Guard
    ensures tick { (result.acked ≡ acked) × (result.image ≡ image) × (result.starts ≡ 0) }
{
    Guard {
        world: random_number(rt),
        starts: 0,
        acked,
        image,
        seconds: seconds_now(rt),
    }
}

/// The time in seconds since 1970, or 0 if the system can't say.
pub fn seconds_now<R: Clock>(rt: &R) -> u64 {
    match since_1970(rt) {
        Some(since) => since.as_secs(),
        None => 0,
    }
}

fn since_1970<R: Clock>(rt: &R) -> Option<Duration> {
    SystemTime::now(rt).ok()?.duration_since(UNIX_EPOCH).ok()
}

// A random number of the system. Without one it is a number of the time.
fn random_number<R: Files<File = File> + Clock>(rt: &R) -> u64 {
    match random_bytes(rt) {
        Ok(bytes) => u64::from_le_bytes(bytes),
        Err(_) => match since_1970(rt) {
            Some(since) => since.as_secs() ^ u64::from(since.subsec_nanos()),
            None => 0,
        },
    }
}

fn random_bytes<R: Files<File = File>>(rt: &R) -> io::Result<[u8; 8]> {
    let mut bytes = [0; 8];
    File::open(rt, RANDOM)?.read_exact(&mut bytes)?;
    Ok(bytes)
}

fn path_in<R: AllocGlobal>(rt: &R, folder: &str, name: &str) -> io::Result<PathBuf> {
    Ok(path_of(rt.alloc(), folder, name)?)
}
