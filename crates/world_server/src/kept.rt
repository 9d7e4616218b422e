//! The files of a running server: whether they still have a name, and the locks by which others
//! see what is down.
ghost use Rattle.std.specs.Prelude.{◌≡◌, ◌≢◌, true, false, IfOk, IfErr, IsErr};
ghost use Rattle.std.specs.IoError.{error_kind};
ghost use Rattle.std.specs.Path.{path_buf_bytes, path_join};
ghost use Rattle.disk_model.specs.FourFiles.{mapped, name_of};
ghost use Rattle.world_server.specs.Paths.{ArePathsIn};

use crate::runtime::LookUp;
use disk_model::{FourFiles, WorldFile};
use file_disk::{FileDisk, Witness};
use std::alloc::Global;
use std::io::{self, ErrorKind};
use std::path::PathBuf;
use std::sync::atomic::{AtomicBool, Ordering};
use std::time::Clock;
use workers::{ImageWriter, Log};
use world_folder::{Entry, Failure, blame, path_of};

/// A file that a server has open, as its witness sees it.
#[derive(Drop)]
pub struct KeptFile {
    witness: Witness,
    path: PathBuf,
    is_missed: AtomicBool,
}

impl KeptFile {
    fn of(alloc: Global, folder: &str, file: WorldFile, disk: &FileDisk) -> Result<Self, Failure>
        ensures path { IfOk result (λ kept.
            path_buf_bytes kept.path ≡ path_join folder.now (name_of file)) }
    {
        Ok(KeptFile {
            witness: blame(alloc, folder, file.name(), disk.witness())?,
            path: path_of(alloc, folder, file.name())?,
            is_missed: AtomicBool::new(false),
        })
    }

    /// True the first time that the file no longer stands under its name: it or its folder was
    /// removed or renamed, or another one took its place.
    pub fn is_newly_missed<R: LookUp>(&self, rt: &R) -> bool {
        let found = rt.entry_at(self.path.as_str());
        let held = self.witness.metadata().map(|held: _| Entry::of(&held));
        is_missing(held, found) && !self.is_missed.swap(true, Ordering::SeqCst)
    }

    /// True if that was seen before.
    pub fn is_missed(&self) -> bool {
        self.is_missed.load(Ordering::SeqCst)
    }

    /// Locks the file up to the server's end, which `status` sees. It waits while `status` asks, a
    /// second at most, and gives up then.
    pub fn lock<R: Clock>(&self, rt: &R) {
        let _ = self.witness.lock(rt);
    }
}

/// The files of a server that has opened a world.
pub fn kept_files(
    alloc: Global,
    folder: &str,
    images: &ImageWriter<FileDisk>,
    log: &Log<FileDisk>,
) -> Result<FourFiles<KeptFile>, Failure>
    ensures paths { IfOk result (λ kept.
        ArePathsIn folder.now (mapped (λ file. file.path) kept)) }
{
    Ok(FourFiles {
        image_a: KeptFile::of(alloc, folder, WorldFile::ImageA, &images.image_a)?,
        image_b: KeptFile::of(alloc, folder, WorldFile::ImageB, &images.image_b)?,
        log_a: KeptFile::of(alloc, folder, WorldFile::LogA, &log.a)?,
        log_b: KeptFile::of(alloc, folder, WorldFile::LogB, &log.b)?,
    })
}

// True if an open file has no name, or none or another one stands under its name. If the system
// can't say, it counts as one that is there.
fn is_missing(held: io::Result<Entry>, found: io::Result<Entry>) -> bool
    ensures unnamed { IfOk held (λ own. own.names ≡ 0 → result ≡ true) }
    ensures other { IfOk held (λ own. IfOk found (λ there.
        there.identity ≢ own.identity → result ≡ true)) }
    ensures gone { IfOk held (λ own. IfErr found (λ error.
        error_kind error ≡ ErrorKind.NotFound → result ≡ true)) }
    ensures same { IfOk held (λ own. IfOk found (λ there.
        own.names ≢ 0 → there.identity ≡ own.identity → result ≡ false)) }
    ensures unread { IfOk held (λ own. IfErr found (λ error.
        own.names ≢ 0 → error_kind error ≢ ErrorKind.NotFound → result ≡ false)) }
    ensures unknown { IsErr held → result ≡ false }
{
    let Ok(own) = held else {
        return false;
    };
    if own.names == 0 {
        return true;
    }
    match found {
        Ok(there) => there.identity != own.identity,
        Err(error) => error.kind() == ErrorKind::NotFound,
    }
}
