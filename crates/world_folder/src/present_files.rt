//! The files of a folder that are there before a world is made in it.
ghost use Rattle.std.specs.Prelude.{◌≡◌, None, IsTrue, IfOk, IfErr, OnOk, OnErr, option_map};
ghost use Rattle.disk_model.specs.FourFiles.{each_of, mapped};
ghost use Rattle.world_folder.specs.Ending.{NamesFile};
ghost use Rattle.world_folder.specs.NewWorldFiles.{AreFound, AreFoundInPart, EachSynced};
ghost use Rattle.world_folder.specs.NewWorldFiles.{IsOccupied, IsSyncedIfThere};
ghost use Rattle.world_folder.specs.OwnFile.{AreLookedFor, IsOpenedInPart, IsOwnIfThere};

use crate::entry::Identity;
use crate::failure::Failure;
use crate::folders::Folder;
use crate::own_file::{OwnFile, are_apart, find_own};
use disk_model::{FourFiles, WorldFile};

/// No file is open yet.
pub fn no_files<D>() -> FourFiles<Option<D>>
    ensures { result ≡ each_of None }
{
    FourFiles::each(()).map(|_| None)
}

/// Opens those files of a folder that are there, to write them, with the refusals and the lock of
/// `open_files`. It makes none.
pub fn open_present<F: Folder>(
    folder: &mut F,
    present: &mut FourFiles<Option<F::File>>,
) -> Result<(), Failure>
    requires { present.old ≡ each_of None }
    ensures found { IsTrue F.honest → OnOk result
        (AreFound F.identity present.new (F.history folder.old) (F.history folder.new)) }
    ensures part { IsTrue F.honest → OnErr result
        (AreFoundInPart F.identity present.new (F.history folder.old) (F.history folder.new)) }
    ensures synced { IsTrue F.honest → IsTrue F.File.honest
        → OnOk result (EachSynced F.File.Disk present.new) }
    ensures other { IfErr result (λ failure. ¬ IsOccupied failure) }
    ensures path { F.path folder.new ≡ F.path folder.old }
{
    let identities = find_each(folder, present)?;
    let apart = are_apart(&identities);
    folder.blame("", apart)
}

// Looks for each file by its own name, image.a first.
fn find_each<F: Folder>(
    folder: &mut F,
    present: &mut FourFiles<Option<F::File>>,
) -> Result<FourFiles<Option<Identity>>, Failure>
    requires { present.old ≡ each_of None }
    ensures found { IsTrue F.honest → OnOk result
        (AreLookedFor F.identity present.new (F.history folder.old) (F.history folder.new)) }
    ensures part { IsTrue F.honest → OnErr result
        (AreFoundInPart F.identity present.new (F.history folder.old) (F.history folder.new)) }
    ensures identities { IsTrue F.honest
        → IfOk result (λ found. found ≡ mapped (option_map F.identity) present.new) }
    ensures synced { IsTrue F.honest → IsTrue F.File.honest
        → OnOk result (EachSynced F.File.Disk present.new) }
    ensures other { IfErr result (λ failure. ¬ IsOccupied failure) }
    ensures path { F.path folder.new ≡ F.path folder.old }
{
    Ok(FourFiles {
        image_a: find_named(folder, WorldFile::ImageA, &mut present.image_a)?,
        image_b: find_named(folder, WorldFile::ImageB, &mut present.image_b)?,
        log_a: find_named(folder, WorldFile::LogA, &mut present.log_a)?,
        log_b: find_named(folder, WorldFile::LogB, &mut present.log_b)?,
    })
}

// Opens the file of this name, if it is there.
fn find_named<F: Folder>(
    folder: &mut F,
    file: WorldFile,
    present: &mut Option<F::File>,
) -> Result<Option<Identity>, Failure>
    requires { present.old ≡ None }
    ensures found { IsTrue F.honest → OnOk result (IsOwnIfThere F.identity file present.new
        (F.history folder.old) (F.history folder.new)) }
    ensures failed { OnErr result (present.new ≡ None) }
    ensures part { IsTrue F.honest
        → OnErr result (IsOpenedInPart file (F.history folder.old) (F.history folder.new)) }
    ensures identity { IsTrue F.honest
        → IfOk result (λ found. found ≡ option_map F.identity present.new) }
    ensures synced { IsTrue F.honest → IsTrue F.File.honest
        → OnOk result (IsSyncedIfThere F.File.Disk present.new) }
    ensures named { IfErr result (NamesFile (F.path folder.old) file) }
    ensures other { IfErr result (λ failure. ¬ IsOccupied failure) }
    ensures path { F.path folder.new ≡ F.path folder.old }
{
    let found = find_own(folder, file);
    match folder.blame(file.name(), found)? {
        Some(OwnFile { disk, identity }) => {
            *present = Some(disk);
            Ok(Some(identity))
        }
        None => Ok(None),
    }
}
