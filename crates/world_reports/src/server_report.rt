//! The report on the server of a world, by the locks of its files.
ghost use Rattle.std.specs.Prelude.{◌≡◌, Some, IsTrue, IfOk};
ghost use Rattle.world_reports.specs.ServerReport.{IsServerReport, asked, folder_reported};
ghost use Rattle.world_reports.specs.ServerReport.{part_reported, server_reported};
ghost use Rattle.world_reports.specs.Texts.{part_text, server_text};

use disk_model::WorldFile;
use std::{fmt, io};
use world_folder::{LockState, Source};

/// The report on a part of a server. A part that is down stays so up to the server's end.
#[derive(Clone, Copy, Debug, PartialEq, Eq)]
pub enum PartReport {
    Up,
    Down,
    Unknown,
}

/// The report on the server of a world.
#[derive(Clone, Copy, Debug, PartialEq, Eq)]
pub enum ServerReport {
    /// A program writes the world: a server, or one that makes it.
    Running { log: PartReport, images: PartReport },
    /// A server runs, and none of the files under their names are its own: they were replaced.
    Replaced,
    /// No program does.
    Missing,
    Unknown,
}

/// The locks of the files by which a server is known.
#[derive(Drop)]
pub struct Locks {
    /// A server holds it from its start to its end.
    pub image_a: LockState,
    /// It holds this one once its images are down.
    pub image_b: LockState,
    /// It holds this one once its log is down.
    pub log_a: LockState,
    /// It holds this one from its start to its end, whatever files stand under their names. It is
    /// asked for before the others.
    pub folder: LockState,
    /// The folder's lock again, after the others.
    pub folder_still: LockState,
}

/// Reports on the server of the world in a folder. It asks for locks, and gives them back at once:
/// that of image.a after those of its parts, and that of the folder before and after all. A server
/// that starts or ends meanwhile is then reported as one without a fault, or as none.
pub fn server_in<F: Source>(folder: &mut F) -> io::Result<ServerReport>
    ensures { IsTrue F.honest → IfOk result (λ reported.
        IsServerReport reported (F.history folder.old) (F.history folder.new)) }
{
    let locks = locks_in(folder)?;
    Ok(report_of_locks(&locks))
}

fn locks_in<F: Source>(folder: &mut F) -> io::Result<Locks>
    ensures { IsTrue F.honest
        → IfOk result (λ locks. F.history folder.new ≡ asked locks (F.history folder.old)) }
{
    Ok(Locks {
        folder: folder.own_lock_state()?,
        image_b: folder.lock_state(WorldFile::ImageB)?,
        log_a: folder.lock_state(WorldFile::LogA)?,
        image_a: folder.lock_state(WorldFile::ImageA)?,
        folder_still: folder.own_lock_state()?,
    })
}

// Reports on the server by the locks.
fn report_of_locks(locks: &Locks) -> ServerReport
    ensures { result ≡ server_reported locks.now }
{
    match locks.image_a {
        LockState::Held => ServerReport::Running {
            log: report_part(locks.log_a),
            images: report_part(locks.image_b),
        },
        LockState::Free => report_without_files(locks.folder, locks.folder_still),
        LockState::Unknown => ServerReport::Unknown,
    }
}

// Reports on a server by the folder's lock, if that of image.a is free between the two answers.
fn report_without_files(before: LockState, after: LockState) -> ServerReport
    ensures { result ≡ folder_reported before after }
{
    match (before, after) {
        (LockState::Held, LockState::Held) => ServerReport::Replaced,
        _ => ServerReport::Missing,
    }
}

// Reports on the part of a server that takes this lock when it goes down.
fn report_part(lock: LockState) -> PartReport
    ensures { result ≡ part_reported lock }
{
    match lock {
        LockState::Held => PartReport::Down,
        LockState::Free => PartReport::Up,
        LockState::Unknown => PartReport::Unknown,
    }
}

impl fmt::Display for PartReport {
    ghost output = { λ part. Some (part_text part) };

    fn fmt<W: fmt::Write>(&self, f: &mut fmt::Formatter<W>) -> fmt::Result {
        match self {
            PartReport::Up => f.write_str("up"),
            PartReport::Down => f.write_str("down"),
            PartReport::Unknown => f.write_str("unknown"),
        }
    }
}

impl fmt::Display for ServerReport {
    ghost output = { λ server. Some (server_text server) };

    fn fmt<W: fmt::Write>(&self, f: &mut fmt::Formatter<W>) -> fmt::Result {
        match self {
            ServerReport::Running { log, images } => {
                write!(f, "server: running, log {log}, images {images}")
            }
            ServerReport::Replaced => {
                f.write_str("server: running, on files that were removed or replaced")
            }
            ServerReport::Missing => f.write_str("server: none"),
            ServerReport::Unknown => f.write_str("server: unknown"),
        }
    }
}
