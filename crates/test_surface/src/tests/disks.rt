// `disk_model` and `file_disk`
use super::same::same;
use disk_model::{Disk, FourFiles, Fused, ModelFile};
use file_disk::FileDisk;
use std::alloc::Global;
use std::fs::{File, OpenOptions};
use std::process::Abort;
use std::test::Fail;
use std::{env, fs, io, process};
use world_actions::Refusal;

// Makes each call of a disk. Returns its length and its first two bytes.
fn call<D: Disk>(disk: &mut D) -> Result<(u64, [u8; 2]), Refusal> {
    disk.write_at(0, &[0xdd, 0xee])?;
    disk.sync()?;
    let mut first = [0; 2];
    let len: u64 = disk.len()?;
    if len >= 2 {
        disk.read_at(0, &mut first)?;
    }
    Ok((len, first))
}

// A disk on a file of the system.
fn open(file: File) -> io::Result<FileDisk> {
    FileDisk::open(file)
}

// Makes the calls on a file of the system.
fn call_file(file: File) -> Result<(u64, [u8; 2]), Refusal> {
    match open(file) {
        Ok(mut disk) => call(&mut disk),
        Err(_) => Err(Refusal::Device),
    }
}

#[test]
fn a_file_of_the_system_is_a_disk(rt: HostRuntime) -> Result<(), Fail> {
    let name = format!(in rt.alloc(); "test_surface-{}", process::id(rt.process()))?;
    let path = env::temp_dir(&rt)?.join(rt.alloc(), name.as_str())?;
    let mut options = OpenOptions::new();
    options.read(true).write(true).create_new(true);
    let called = call_file(options.open(&rt, path.as_path())?);
    fs::remove_file(&rt, path.as_path())?;
    same(&rt, called, Ok((2, [0xdd, 0xee])));
    Ok(())
}

// A file whose bytes aa bb cc are durable, with the unsynced write of dd ee at 2.
fn torn_file(alloc: Global) -> Result<ModelFile, Refusal> {
    let mut file: ModelFile = ModelFile::new(alloc, vec![in alloc; 0xaa, 0xbb, 0xcc]?)?;
    file.reserve(4)?;
    file.write_at(2, &[0xdd, 0xee])?;
    Ok(file)
}

// Crashes the torn file so that it leaves these bytes. Returns the refusal, if there is one.
fn crash(alloc: Global, left: &[u8]) -> Result<Option<Refusal>, Refusal> {
    let file = torn_file(alloc)?;
    let crashed: Result<ModelFile, (ModelFile, Refusal)> = file.crash(left.to_vec(alloc)?);
    match crashed {
        Ok(_) => Ok(None),
        Err((_, refusal)) => Ok(Some(refusal)),
    }
}

const IMPOSSIBLE: Result<Option<Refusal>, Refusal> = Ok(Some(Refusal::Impossible));

#[test]
fn a_crash_leaves_what_the_file_allows(rt: HostRuntime) {
    let alloc = rt.alloc();
    same(&rt, crash(alloc, &[0xaa, 0xbb, 0]), Ok(None));
    same(&rt, crash(alloc, &[0xaa, 0xbb, 0x11, 0x22]), Ok(None));
    same(&rt, crash(alloc, &[0xaa, 0xbb]), IMPOSSIBLE);
    same(&rt, crash(alloc, &[0xaa, 0, 0xcc]), IMPOSSIBLE);
}

fn check_torn(rt: &impl Abort, file: &ModelFile) {
    let durable: &[u8] = file.durable();
    let now: &[u8] = file.now();
    same(rt, durable, [0xaa, 0xbb, 0xcc].as_slice());
    same(rt, now, [0xaa, 0xbb, 0xdd, 0xee].as_slice());
    same(rt, (file.uncertain(1), file.uncertain(2)), (false, true));
}

#[test]
fn a_file_in_memory_tells_what_is_durable(rt: HostRuntime) {
    check_torn(&rt, &torn_file(rt.alloc()).expect(&rt, "memory"));
}

// Lets the second call from now fail, and then none.
fn fail(disk: &mut Fused<ModelFile>) -> (Result<(u64, [u8; 2]), Refusal>, bool) {
    disk.arm(2);
    let failed = call(disk);
    disk.disarm();
    (failed, disk.sync().is_ok())
}

// The four files of a world.
fn four(alloc: Global) -> Result<FourFiles<ModelFile>, Refusal> {
    Ok(FourFiles {
        image_a: ModelFile::new(alloc, Vec::new(alloc))?,
        image_b: ModelFile::new(alloc, Vec::new(alloc))?,
        log_a: torn_file(alloc)?,
        log_b: ModelFile::new(alloc, Vec::new(alloc))?,
    })
}

// Lets a call of log.a fail. The write before it is carried out.
fn check_fused(rt: &impl Abort, files: FourFiles<ModelFile>) {
    let mut disk: Fused<ModelFile> = Fused::new(files.log_a);
    same(rt, fail(&mut disk), (Err(Refusal::Device), true));
    let inner: &ModelFile = disk.inner();
    same(rt, inner.now(), [0xdd, 0xee, 0xdd, 0xee].as_slice());
    let mut file: ModelFile = disk.into_inner();
    same(rt, call(&mut file), Ok((4, [0xdd, 0xee])));
}

#[test]
fn a_call_of_a_fused_disk_fails(rt: HostRuntime) {
    check_fused(&rt, four(rt.alloc()).expect(&rt, "memory"));
}
