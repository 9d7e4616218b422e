//! A copy of the four files of a folder, which a server may write meanwhile, and the world in it.
ghost use Rattle.std.specs.Prelude.{◌≡◌, true, false, IsTrue, IfOk, IfErr};
ghost use Rattle.world_folder.specs.Ending.{ReportsWhy};
ghost use Rattle.world_folder.specs.Fault.{AreJudged, AreRead, Stands};
ghost use Rattle.world_reports.specs.Copy.{IsSeen, IsMeasured, AreReadAndMeasured, IsVerified};
ghost use Rattle.world_reports.specs.Copy.{IsSameWorld, IsWorldSeen};

mod attempt;

use attempt::{Attempt, copy_files};
use disk_model::{FourFiles, WorldFile};
use recovery::Recovered;
use std::io;
use world_folder::{
    Checks, Ending, Failure, Found, OnLoss, Reading, Source, Unreadable, WorldReport, all_read,
    failure_for, read_folder, stands_in,
};

/// Why no copy was taken.
const UNSTEADY: &str = "a server began a new image or a new log under each try to copy them";

/// Why what was written isn't reported as a world.
const OTHER_WORLD: &str = "its files hold another world than was written into them";

/// The bytes of four files at one time that their formats read.
#[derive(Drop)]
pub struct Seen {
    pub files: FourFiles<io::Result<Vec<u8>>>,
    /// How long the files are; the number of its bytes for a file that can't be looked at.
    pub lengths: FourFiles<u64>,
    /// How often the look was begun.
    pub tries: u32,
    /// The file whose read failed before each was read by itself.
    pub failed: Option<Unreadable>,
}

/// The world that the files of a folder hold at one time, and the rest of `Seen`.
#[derive(Drop)]
pub struct SeenWorld {
    pub files: FourFiles<Vec<u8>>,
    pub lengths: FourFiles<u64>,
    pub tries: u32,
    pub failed: Option<Unreadable>,
    pub found: Found,
}

/// Looks at a folder for its world, whose losses are named or refused.
pub fn look_for_world<F: Source>(
    folder: &mut F,
    how: Reading,
    checks: Checks,
) -> Result<SeenWorld, Failure>
    ensures seen { IsTrue F.honest → IsTrue F.File.honest → IfOk result (λ seen.
        IsWorldSeen checks seen (F.history folder.old) (F.history folder.new)) }
{
    let seen = look_at_folder(folder, how)?;
    let (files, found) = found_in(folder, seen.files, checks)?;
    Ok(SeenWorld {
        files,
        lengths: seen.lengths,
        tries: seen.tries,
        failed: seen.failed,
        found,
    })
}

/// The bytes of files that were read so, and the world that they hold, or how the program ends.
pub fn found_in<F: Source>(
    folder: &F,
    files: FourFiles<io::Result<Vec<u8>>>,
    checks: Checks,
) -> Result<(FourFiles<Vec<u8>>, Found), Failure>
    ensures read { IfOk result (λ found. AreRead files found.0) }
    ensures found { IfOk result (λ found. Stands found.0 found.1.world) }
    ensures judged { IfOk result (λ found.
        AreJudged checks found.0 found.1.world found.1.finding) }
    ensures why { IfErr result (ReportsWhy checks (F.path folder.now) files) }
{
    let files = all_read(folder, files)?;
    match stands_in(folder.alloc(), &files, checks) {
        Ok(found) => Ok((files, found)),
        Err(fault) => Err(Failure::NoWorld(fault)),
    }
}

/// Recovers the world in a folder, into which this one was written. Another one is refused.
pub fn verify<F: Source>(folder: &mut F, written: &Recovered) -> Result<WorldReport, Failure>
    ensures verified { IsTrue F.honest → IsTrue F.File.honest → IfOk result (λ reported.
        IsVerified written.now reported (F.history folder.old) (F.history folder.new)) }
    ensures same { IfOk result (λ reported. reported.tick ≡ written.now.tick) }
{
    let read = read_folder(folder);
    let (_, found) = found_in(folder, read, Checks::of(OnLoss::Warn))?;
    if !is_same(written, &found.world) {
        return Err(failure_by(folder, OTHER_WORLD));
    }
    Ok(WorldReport::of(&found.world))
}

fn is_same(written: &Recovered, found: &Recovered) -> bool
    ensures same { result ≡ true → IsSameWorld written.now found.now }
    ensures other { result ≡ false → ¬ IsSameWorld written.now found.now }
{
    written.tick == found.tick && written.words.as_slice() == found.words.as_slice()
}

// The failure of a command that can't use the folder, for this reason.
fn failure_by<F: Source>(folder: &F, reason: &'static str) -> Failure {
    failure_for(folder.alloc(), "", folder.path(), io::Error::other(reason))
}

/// Looks at both images and the log of a folder, opened so. If no image is open, or a file can't be
/// read, no server writes a world there, and each file is read by itself. A file that couldn't be
/// read at first is returned with its error.
pub fn look_at_folder<F: Source>(folder: &mut F, how: Reading) -> Result<Seen, Failure>
    ensures seen { IsTrue F.honest → IsTrue F.File.honest → IfOk result (λ seen.
        IsSeen seen (F.history folder.old) (F.history folder.new)) }
{
    match copy_files(folder, how) {
        Ok(Attempt::Copied(seen)) => Ok(seen),
        Ok(Attempt::Unsteady) => Err(failure_by(folder, UNSTEADY)),
        Ok(Attempt::NoImage) => Ok(look_at_each(folder, None)),
        Err(Failure::Unreadable(file)) => Ok(look_at_each(folder, Some(file))),
        Err(_) => Ok(look_at_each(folder, None)),
    }
}

// Reads each file by itself, and then asks how long it is.
fn look_at_each<F: Source>(folder: &mut F, failed: Option<Unreadable>) -> Seen
    ensures seen { IsTrue F.honest → IsTrue F.File.honest
        → AreReadAndMeasured result (F.history folder.old) (F.history folder.new) }
    ensures failed { result.failed ≡ failed }
{
    let files = read_folder(folder);
    let lengths = FourFiles {
        image_a: length_in(folder, WorldFile::ImageA, &files.image_a),
        image_b: length_in(folder, WorldFile::ImageB, &files.image_b),
        log_a: length_in(folder, WorldFile::LogA, &files.log_a),
        log_b: length_in(folder, WorldFile::LogB, &files.log_b),
    };
    Seen {
        files,
        lengths,
        tries: 1,
        failed,
    }
}

// How long a file is that was read so.
fn length_in<F: Source>(folder: &mut F, file: WorldFile, read: &io::Result<Vec<u8>>) -> u64
    ensures { IsTrue F.honest
        → IsMeasured file read.now result (F.history folder.old) (F.history folder.new) }
{
    match (folder.length(file), read) {
        (Ok(length), _) => length,
        (Err(_), Ok(bytes)) => bytes.len() as u64,
        (Err(_), Err(_)) => 0,
    }
}
