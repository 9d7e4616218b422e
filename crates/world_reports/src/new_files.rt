//! The files of a new world in an empty folder: they are written, or removed again.
ghost use Rattle.std.specs.Prelude.{◌≡◌, ◌∷◌, [], Ok, true, false, IsTrue, IfNone, IfOk, IfErr};
ghost use Rattle.std.specs.Prelude.{IsErr, OnErr, OnOk};
ghost use Rattle.disk_model.specs.Disk.{Only};
ghost use Rattle.disk_model.specs.FourFiles.{each_of, with_value};
ghost use Rattle.world_folder.specs.Ending.{NamesFile};
ghost use Rattle.world_folder.specs.History.{FoundEmpty, FoundOutside};
ghost use Rattle.world_folder.specs.Left.{Leaves};
ghost use Rattle.world_reports.specs.NewFiles.{AreImagesWritten, AreWritten, IsWritten};
ghost use Rattle.world_reports.specs.NewFiles.{IsLeftBy, IsTakenBack};

use disk_model::{Disk, FourFiles, WorldFile};
use recovery::Slot;
use std::io;
use std::path::PathBuf;
use world_actions::Refusal;
use world_folder::{
    Ending, Failure, Filled, Folder, Inside, Unfinished, Unreadable, Why, blame, explain,
    sync_names,
};

/// Refuses a folder that lies in the world's own at this path, or that has a file.
pub fn look_for_room<F: Folder>(path: &str, into: &mut F) -> Result<(), Failure>
    ensures room { IsTrue F.honest → OnOk result
        (F.history into.new ≡ FoundEmpty ∷ FoundOutside path.now ∷ F.history into.old) }
{
    let lies_in = into.lies_in(path);
    if blame_folder(into, lies_in)? {
        let path = PathBuf::from_str(into.alloc(), into.path())?;
        return Err(Failure::Inside(Inside { path }));
    }
    let is_empty = into.is_empty();
    if !blame_folder(into, is_empty)? {
        let path = PathBuf::from_str(into.alloc(), into.path())?;
        return Err(Failure::Filled(Filled { path }));
    }
    Ok(())
}

// The answer of a call on a folder. After an error the program ends, and names the folder.
fn blame_folder<F: Folder, T>(into: &F, answer: io::Result<T>) -> Result<T, Failure>
    ensures ok { IfOk answer (λ value. result ≡ Ok value) }
    ensures fails { OnErr answer (IsErr result) }
{
    blame(into.alloc(), "", into.path(), answer)
}

/// Makes the files of a world, that of the newest image last, and syncs each of them
/// and their names.
pub fn write_files<F: Folder>(
    into: &mut F,
    files: &FourFiles<Vec<u8>>,
    newest: Slot,
    made: &mut FourFiles<bool>,
) -> Result<FourFiles<F::File>, Failure>
    ensures written { IsTrue F.honest → IsTrue F.File.honest → IfOk result (λ written.
        AreWritten F.File.Disk newest files.now written (F.history into.old) (F.history into.new)) }
    ensures left { IsTrue F.honest
        → Leaves made.old (F.history into.old) → Leaves made.new (F.history into.new) }
{
    let log_a = write_one(into, WorldFile::LogA, &files.log_a, made)?;
    let log_b = write_one(into, WorldFile::LogB, &files.log_b, made)?;
    let (image_a, image_b) = write_images(into, files, newest, made)?;
    sync_names(into)?;
    Ok(FourFiles {
        image_a,
        image_b,
        log_a,
        log_b,
    })
}

// Makes both images, the newest one last.
fn write_images<F: Folder>(
    into: &mut F,
    files: &FourFiles<Vec<u8>>,
    newest: Slot,
    made: &mut FourFiles<bool>,
) -> Result<(F::File, F::File), Failure>
    ensures written { IsTrue F.honest → IsTrue F.File.honest → IfOk result (λ made.
        AreImagesWritten F.File.Disk newest files.now made.0 made.1
        (F.history into.old) (F.history into.new)) }
    ensures left { IsTrue F.honest
        → Leaves made.old (F.history into.old) → Leaves made.new (F.history into.new) }
{
    match newest {
        Slot::A => {
            let image_b = write_one(into, WorldFile::ImageB, &files.image_b, made)?;
            let image_a = write_one(into, WorldFile::ImageA, &files.image_a, made)?;
            Ok((image_a, image_b))
        }
        Slot::B => {
            let image_a = write_one(into, WorldFile::ImageA, &files.image_a, made)?;
            let image_b = write_one(into, WorldFile::ImageB, &files.image_b, made)?;
            Ok((image_a, image_b))
        }
    }
}

/// Makes a file of a folder with these bytes, and makes them durable. It notes that the file was
/// made, also if it fails afterwards.
pub fn write_one<F: Folder>(
    into: &mut F,
    file: WorldFile,
    bytes: &[u8],
    made: &mut FourFiles<bool>,
) -> Result<F::File, Failure>
    ensures written { IsTrue F.honest → IsTrue F.File.honest → IfOk result (λ disk.
        IsWritten F.File.Disk file bytes.now disk (F.history into.old) (F.history into.new)) }
    ensures left { IsTrue F.honest
        → Leaves made.old (F.history into.old) → Leaves made.new (F.history into.new) }
    ensures named { IfErr result (NamesFile (F.path into.old) file) }
{
    let written = write_file(into, file, bytes, made);
    into.blame(file.name(), written)
}

// Makes a file with these bytes, and makes them durable.
fn write_file<F: Folder>(
    into: &mut F,
    file: WorldFile,
    bytes: &[u8],
    made: &mut FourFiles<bool>,
) -> io::Result<F::File>
    ensures written { IsTrue F.honest → IsTrue F.File.honest → IfOk result (λ disk.
        IsWritten F.File.Disk file bytes.now disk (F.history into.old) (F.history into.new)) }
    ensures left { IsTrue F.honest
        → Leaves made.old (F.history into.old) → Leaves made.new (F.history into.new) }
    ensures path { F.path into.new ≡ F.path into.old }
{
    let handle = into.make(file)?;
    made.set(file, true);
    let mut disk = into.take(handle)?;
    let written = write_bytes(&mut disk, bytes);
    explain(&mut disk, written)?;
    Ok(disk)
}

// Writes these bytes into an empty file, and makes them durable.
fn write_bytes<D: Disk>(disk: &mut D, bytes: &[u8]) -> Result<(), Refusal>
    ensures content { IsTrue D.honest → D.content disk.old ≡ []
        → OnOk result (D.content disk.new ≡ bytes.now) }
    ensures synced { IsTrue D.honest
        → OnOk result (Only (D.content disk.new) (D.may_leave disk.new)) }
{
    disk.write_at(0, bytes)?;
    disk.sync()
}

/// The failure of a copy after it made these files in a folder. They are removed, so that the
/// same command can be run again. Those that can't be removed are named.
pub fn take_back<F: Folder>(into: &mut F, made: FourFiles<bool>, failure: Failure) -> Failure
    ensures taken_back { IsTrue F.honest → Leaves made (F.history into.old)
        → IsTakenBack failure result (F.history into.new) }
{
    let mut left = made;
    let unremoved = remove_each(into, &mut left);
    let _ = into.sync_names();
    match unremoved {
        Some((file, error)) => left_by(into, left, (file, error), failure),
        None => failure,
    }
}

// Removes each file that was made, the images first. It returns the first one that can't be
// removed, and why.
fn remove_each<F: Folder>(
    into: &mut F,
    left: &mut FourFiles<bool>,
) -> Option<(WorldFile, io::Error)>
    ensures leaves { IsTrue F.honest
        → Leaves left.old (F.history into.old) → Leaves left.new (F.history into.new) }
    ensures none { IfNone result (left.new ≡ each_of false) }
{
    let image_a = remove_one(into, WorldFile::ImageA, left);
    let image_b = remove_one(into, WorldFile::ImageB, left);
    let log_a = remove_one(into, WorldFile::LogA, left);
    let log_b = remove_one(into, WorldFile::LogB, left);
    image_a.or(image_b).or(log_a).or(log_b)
}

// Removes a file, if it was made.
fn remove_one<F: Folder>(
    into: &mut F,
    file: WorldFile,
    left: &mut FourFiles<bool>,
) -> Option<(WorldFile, io::Error)>
    ensures leaves { IsTrue F.honest
        → Leaves left.old (F.history into.old) → Leaves left.new (F.history into.new) }
    ensures none { IfNone result (left.new ≡ with_value file false left.old) }
{
    if !*left.get(file) {
        return None;
    }
    match into.remove(file) {
        Ok(()) => {
            left.set(file, false);
            None
        }
        Err(error) => Some((file, error)),
    }
}

// The failure of a copy of which these files are left.
fn left_by<F: Folder>(
    into: &F,
    left: FourFiles<bool>,
    unremoved: (WorldFile, io::Error),
    failure: Failure,
) -> Failure
    ensures left { IsLeftBy left failure result }
{
    match failure {
        Failure::Unreadable(file) => failure_unfinished(left, Why::File(file)),
        Failure::Refused(Refusal::NoMemory) => failure_unfinished(left, Why::NoMemory),
        other => {
            drop(other);
            failure_unfinished(left, why_unremoved(into, unremoved))
        }
    }
}

fn failure_unfinished(made: FourFiles<bool>, why: Why) -> Failure
    ensures { result ≡ Failure.Unfinished (record { made = made; why = why }) }
{
    Failure::Unfinished(Unfinished { made, why })
}

fn why_unremoved<F: Folder>(into: &F, unremoved: (WorldFile, io::Error)) -> Why {
    let (file, error) = unremoved;
    match into.path_of(file.name()) {
        Ok(path) => Why::File(Unreadable { path, error }),
        Err(_) => Why::NoMemory,
    }
}
