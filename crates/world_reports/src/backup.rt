ghost use Rattle.std.specs.Prelude.{◌≡◌, Some, IsTrue, IfOk, IfErr, OnOk};
ghost use Rattle.world_folder.specs.Ending.{IsDone};
ghost use Rattle.world_reports.specs.Backup.{IsBackedUp, IsCopyMade, IsWithoutOlder, shut_older};
ghost use Rattle.world_reports.specs.Backup.{with_its_guard, with_tries};
ghost use Rattle.world_reports.specs.Reports.{IsGuardRead};
ghost use Rattle.world_reports.specs.Texts.{backed_up_text, begun_text};

use crate::copy::{SeenWorld, look_for_world, verify};
use crate::new_files::{look_for_room, take_back, write_files};
use crate::warnings::{warn_of, warn_of_failed};
use disk_model::FourFiles;
use file_format::CLOSED_GATE;
use recovery::Slot;
use std::{fmt, io};
use world_folder::{
    Ending, Failure, Folder, GUARD, Guard, OnLoss, Reading, Source, WorldReport, checks_in,
};

/// Copies the world of a folder into an empty one, and prints which world the copy holds. A server
/// may write the world meanwhile. The guard is read first, so the copy has all ticks up to it,
/// unless the world hasn't. The copy's image is written last, so a copy that was cut off holds no
/// world; the older one is closed in it. The copy has to recover to the world that was read, and
/// gets its guard at last. If it fails, the files that it made are removed, or named. On standard
/// error it names what was lost of the source. The copy's files are returned, and how the command
/// ends.
pub fn back_up<F: Source, T: Folder>(
    from: &mut F,
    into: &mut T,
    on_loss: OnLoss,
) -> Result<(FourFiles<T::File>, Ending), Failure>
    ensures backed_up { IsTrue F.honest → IsTrue F.File.honest → IsTrue T.honest
        → IsTrue T.File.honest → IfOk result (λ done. IsGuardRead on_loss
        (λ checks before after. IsBackedUp T.File.Disk checks (F.path from.old)
        done.0 done.1 before after (T.history into.old) (T.history into.new))
        (F.history from.old) (F.history from.new)) }
    ensures done { IfOk result (λ done. IsDone done.1) }
{
    let checks = checks_in(from, on_loss)?;
    look_for_room(from.path(), into)?;
    let seen = look_for_world(from, Reading::Cached, checks)?;
    let mut made = FourFiles::each(false);
    match copy_seen(into, seen, checks.guard, &mut made) {
        Ok(done) => Ok(done),
        Err(ending) => Err(take_back(into, made, ending)),
    }
}

// Makes a copy of a world that was seen, with this guard, and reports it.
fn copy_seen<T: Folder>(
    into: &mut T,
    seen: SeenWorld,
    guard: Option<Guard>,
    made: &mut FourFiles<bool>,
) -> Result<(FourFiles<T::File>, Ending), Failure>
    ensures copied { IsTrue T.honest → IsTrue T.File.honest → IfOk result (λ done.
        IsCopyMade T.File.Disk seen guard done.0 done.1 (T.history into.old) (T.history into.new)) }
    ensures done { IfOk result (λ done. IsDone done.1) }
{
    let newest = seen.found.world.slot;
    let copied = without_older(seen.files, newest);
    let files = write_files(into, &copied, newest, made)?;
    let reported = verify(into, &seen.found.world)?;
    warn_of_failed(into, seen.failed)?;
    warn_of(into, seen.found.finding)?;
    warn_of_tries(into, seen.tries)?;
    into.print(BackedUp(reported))?;
    copy_guard(into, guard)?;
    Ok((files, Ending::of_finding(seen.found.finding)))
}

// Gives a copy the guard of its world, if it has one.
fn copy_guard<T: Folder>(into: &mut T, guard: Option<Guard>) -> Result<(), Failure>
    ensures put { IsTrue T.honest
        → OnOk result (T.history into.new ≡ with_its_guard guard (T.history into.old)) }
{
    let Some(guard) = guard else {
        return Ok(());
    };
    let put = into.put_guard(&guard);
    into.blame(GUARD, put)
}

// The files with the older image closed. An empty file stays one.
fn without_older(files: FourFiles<Vec<u8>>, newest: Slot) -> FourFiles<Vec<u8>>
    ensures { IsWithoutOlder newest files result }
{
    let mut files = files;
    match newest {
        Slot::A => shut(&mut files.image_b),
        Slot::B => shut(&mut files.image_a),
    }
    files
}

// Leaves a closed gate of a file, unless it is empty.
fn shut(bytes: &mut Vec<u8>)
    ensures { bytes.new.items ≡ shut_older bytes.old.items }
{
    if !bytes.is_empty() {
        bytes.truncate(1);
        bytes[0] = CLOSED_GATE;
    }
}

// Names how often a copy was begun, if it was begun anew.
fn warn_of_tries<F: Source>(into: &mut F, tries: u32) -> io::Result<()>
    ensures { IsTrue F.honest
        → OnOk result (F.history into.new ≡ with_tries tries (F.history into.old)) }
{
    if tries > 1 {
        into.warn(BegunAnew(tries))?;
    }
    Ok(())
}

// The report on a copy that was begun anew.
#[derive(Clone, Copy)]
struct BegunAnew(u32);

impl fmt::Display for BegunAnew {
    ghost output = { λ begun. Some (begun_text begun.0) };

    fn fmt<W: fmt::Write>(&self, f: &mut fmt::Formatter<W>) -> fmt::Result {
        write!(f, "worldd: it was begun {} times", self.0)
    }
}

// The report on a copy.
#[derive(Clone, Copy)]
struct BackedUp(WorldReport);

impl fmt::Display for BackedUp {
    ghost output = { λ report. Some (backed_up_text report.0.tick report.0.from) };

    fn fmt<W: fmt::Write>(&self, f: &mut fmt::Formatter<W>) -> fmt::Result {
        write!(f, "backed up {}", self.0)
    }
}
