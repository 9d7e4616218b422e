use disk_model::{Disk, read_all};
use file_disk::{FileDisk, Pace};
use std::alloc::Global;
use std::fs::OpenOptions;
use std::io::{self, ErrorKind};
use std::path::PathBuf;
use std::process::Abort;
use std::test::Fail;
use std::time::{Duration, Instant};
use std::{env, fs, process};
use world_actions::Refusal;

// The folder of a test of this name.
fn folder_of(rt: &HostRuntime, test: &str) -> Result<PathBuf, Fail> {
    let name = format!(in rt.alloc(); "disk_model-{test}-{}", process::id(rt.process()))?;
    Ok(env::temp_dir(rt)?.join(rt.alloc(), name.as_str())?)
}

// A new folder for a test of this name.
fn new_folder(rt: &HostRuntime, test: &str) -> Result<PathBuf, Fail> {
    let folder = folder_of(rt, test)?;
    fs::create_dir(rt, folder.as_path())?;
    Ok(folder)
}

// Opens the file `file` of a folder for reading, and for writing too if `to_write` is true.
fn open(rt: &HostRuntime, folder: &PathBuf, to_write: bool) -> Result<FileDisk, Fail> {
    let path = folder.join(rt.alloc(), "file")?;
    let mut options = OpenOptions::new();
    options.read(true).write(to_write).create(to_write);
    let file = options.open(rt, path.as_path())?;
    Ok(FileDisk::open(file)?)
}

// True if these are all bytes of a disk.
fn reads(alloc: Global, disk: &mut FileDisk, bytes: &[u8]) -> Result<bool, Refusal> {
    let read = read_all(alloc, disk)?;
    Ok(read.as_slice() == bytes)
}

fn remove(rt: &HostRuntime, folder: &PathBuf) -> Result<(), Fail> {
    Ok(fs::remove_dir_all(rt, folder.as_path())?)
}

// Writes 1 7 8 4, in pieces.
fn write_pieces(disk: &mut FileDisk) -> Result<(), Refusal> {
    disk.write_at(0, &[1, 2, 3])?;
    disk.write_at(3, &[4])?;
    disk.write_at(1, &[7, 8])?;
    disk.write_at(4, &[])?;
    disk.sync()
}

// Writes the pieces, and returns the length before and after that.
fn lengths(disk: &mut FileDisk) -> Result<(u64, u64), Refusal> {
    let before = disk.len()?;
    write_pieces(disk)?;
    Ok((before, disk.len()?))
}

// Reads the bytes at 1 and 2.
fn middle(disk: &mut FileDisk) -> Result<[u8; 2], Refusal> {
    let mut middle = [0; 2];
    disk.read_at(1, &mut middle)?;
    Ok(middle)
}

// Writes the pieces into an empty file. No call fails.
fn check_written(rt: &impl Abort, disk: &mut FileDisk) -> Result<(), Refusal> {
    assert_eq!(rt; lengths(disk)?, (0, 4));
    assert_eq!(rt; middle(disk)?, [7, 8]);
    assert!(rt; disk.failure().is_none());
    Ok(())
}

// True if a call with this answer was refused by the device, and the disk keeps a reason.
fn is_fault(disk: &FileDisk, answer: Result<(), Refusal>) -> bool {
    answer == Err(Refusal::Device) && disk.failure().is_some()
}

fn is_invalid(failure: Option<&io::Error>) -> bool {
    match failure {
        Some(error) => error.kind() == ErrorKind::InvalidInput,
        None => false,
    }
}

// Codes for a write that fails in the system, and for one that isn't tried.
const TRIED: u8 = 1;

const NOT_TRIED: u8 = 2;

// Writes to a disk that is open for reading only. Returns the code of the failure, or 0 if the disk
// keeps no reason of one. A write after the known length isn't tried.
fn fail_write(disk: &mut FileDisk, at: u64) -> u8 {
    let _ = disk.take_failure();
    let answer = disk.write_at(at, &[9]);
    if !is_fault(disk, answer) {
        return 0;
    }
    if is_invalid(disk.failure()) {
        NOT_TRIED
    } else {
        TRIED
    }
}

// Reads the pieces from the disk. The known length is four bytes.
fn check_read(rt: &impl Abort, alloc: Global, disk: &mut FileDisk) -> Result<(), Refusal> {
    assert!(rt; reads(alloc, disk, &[1, 7, 8, 4])?);
    assert_eq!(rt;
        (fail_write(disk, 4), fail_write(disk, 5)),
        (TRIED, NOT_TRIED)
    );
    Ok(())
}

#[test]
fn what_was_written_is_read(rt: HostRuntime) -> Result<(), Fail> {
    let folder = new_folder(&rt, "written")?;
    check_written(&rt, &mut open(&rt, &folder, true)?)?;
    check_read(&rt, rt.alloc(), &mut open(&rt, &folder, false)?)?;
    remove(&rt, &folder)
}

// Counts the reads that fail: past the end, at the end, and far after it.
fn faults_of_reads(disk: &mut FileDisk) -> u32 {
    let mut faults = 0u32;
    for at in [2, 3, u64::MAX] {
        let _ = disk.take_failure();
        let answer = disk.read_at(at, &mut [0; 2]);
        faults = faults.saturating_add(u32::from(is_fault(disk, answer)));
    }
    faults
}

// Counts the writes that fail: after the end, and far after it.
fn faults_of_writes(disk: &mut FileDisk) -> u32 {
    let mut faults = 0u32;
    for at in [4, u64::MAX] {
        let _ = disk.take_failure();
        let answer = disk.write_at(at, &[9]);
        faults = faults.saturating_add(u32::from(is_fault(disk, answer)));
    }
    faults
}

// Takes the failure, which is one of invalid input. Returns if it was kept, if it was the one
// taken, and if none is kept then.
fn takes_failure(disk: &mut FileDisk) -> [bool; 3] {
    [
        is_invalid(disk.failure()),
        is_invalid(disk.take_failure().as_ref()),
        disk.failure().is_none(),
    ]
}

fn check_faults(rt: &impl Abort, alloc: Global, disk: &mut FileDisk) -> Result<(), Refusal> {
    disk.write_at(0, &[1, 2, 3])?;
    assert_eq!(rt; (faults_of_reads(disk), faults_of_writes(disk)), (3, 2));
    assert_eq!(rt; takes_failure(disk), [true; 3]);
    assert!(rt; reads(alloc, disk, &[1, 2, 3])?);
    Ok(())
}

#[test]
fn what_is_not_whole_is_a_fault(rt: HostRuntime) -> Result<(), Fail> {
    let folder = new_folder(&rt, "faults")?;
    check_faults(&rt, rt.alloc(), &mut open(&rt, &folder, true)?)?;
    remove(&rt, &folder)
}

// Tries to write to a disk of 1 2 3 that is open for reading only. The known length is three bytes.
fn check_read_only(rt: &impl Abort, alloc: Global, disk: &mut FileDisk) -> Result<(), Refusal> {
    for (at, want) in [(0, TRIED), (3, TRIED), (4, NOT_TRIED)] {
        assert_eq!(rt; fail_write(disk, at), want, "at {at}");
    }
    assert!(rt; reads(alloc, disk, &[1, 2, 3])?);
    Ok(())
}

#[test]
fn a_write_that_fails_is_a_fault(rt: HostRuntime) -> Result<(), Fail> {
    let folder = new_folder(&rt, "read-only")?;
    open(&rt, &folder, true)?.write_at(0, &[1, 2, 3])?;
    check_read_only(&rt, rt.alloc(), &mut open(&rt, &folder, false)?)?;
    remove(&rt, &folder)
}

fn open_folder(rt: &HostRuntime, folder: &PathBuf) -> Result<FileDisk, Fail> {
    let file = OpenOptions::new().read(true).open(rt, folder.as_path())?;
    Ok(FileDisk::open(file)?)
}

// True if a read of one byte fails.
fn fails_read(disk: &mut FileDisk) -> bool {
    let answer = disk.read_at(0, &mut [0]);
    is_fault(disk, answer)
}

#[test]
fn a_folder_is_not_read(rt: HostRuntime) -> Result<(), Fail> {
    let folder = new_folder(&rt, "folder")?;
    assert!(rt; fails_read(&mut open_folder(&rt, &folder)?));
    remove(&rt, &folder)
}

// Writes 128 KiB, each by one call.
fn write_kilobytes(disk: &mut FileDisk) -> Result<(), Refusal> {
    for place in 0..128 {
        disk.write_at(place * 1024, &[7; 1024])?;
    }
    Ok(())
}

// How long the writes to a disk take.
fn time_of_writes(rt: &HostRuntime, disk: &mut FileDisk) -> Result<Duration, Fail> {
    let begun = Instant::now(rt)?;
    write_kilobytes(disk)?;
    Ok(begun.elapsed(rt)?)
}

// True if the writes take as long as eight pauses, once so many ticks have ended.
fn pauses_at(rt: &HostRuntime, disk: &mut FileDisk, pace: &Pace, ticks: u64) -> Result<bool, Fail> {
    pace.ticks_ended(ticks);
    Ok(time_of_writes(rt, disk)? >= Duration::from_millis(4))
}

#[test]
fn a_paced_file_pauses_after_each_16_kib(rt: HostRuntime) -> Result<(), Fail> {
    let folder = new_folder(&rt, "paced")?;
    let mut disk = open(&rt, &folder, true)?;
    let pace = Pace::new(rt.alloc())?;
    disk.pace(pace.clone()?);
    assert!(rt; pauses_at(&rt, &mut disk, &pace, 8_191)?);
    pace.ticks_ended(20_000);
    disk.sync()?;
    assert!(rt; pauses_at(&rt, &mut disk, &pace, 28_191)?);
    assert!(rt; reads(rt.alloc(), &mut disk, &[7; 131_072])?);
    remove(&rt, &folder)
}
