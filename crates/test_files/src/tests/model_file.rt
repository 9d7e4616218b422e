ghost use Rattle.std.specs.Prelude.{◌≡◌, ◌≤◌, length, IfOk};

use disk_model::{Disk, Fused, ModelFile};
use std::alloc::Global;
use std::process::Abort;
use std::test::Fail;
use world_actions::Refusal;

// A file whose bytes 11 22 33 are durable, with unsynced writes of aa bb at 1 and of cc dd ee at 2.
fn written_file(alloc: Global) -> Result<ModelFile, Refusal> {
    let mut file = ModelFile::new(alloc, vec![in alloc; 0x11, 0x22, 0x33]?)?;
    file.write_at(1, &[0xaa, 0xbb])?;
    file.write_at(2, &[0xcc, 0xdd, 0xee])?;
    Ok(file)
}

// Lets a sync fail. True if it fails and leaves the present bytes as they are.
fn fails_sync(disk: &mut Fused<ModelFile>) -> bool {
    disk.arm(1);
    let answer = disk.sync();
    let content = [0x11, 0xaa, 0xcc, 0xdd, 0xee];
    answer == Err(Refusal::Device) && disk.inner().now() == content.as_slice()
}

// The same file after a failed sync.
fn unsynced_file(rt: &impl Abort, alloc: Global) -> Result<ModelFile, Refusal> {
    let mut disk = Fused::new(written_file(alloc)?);
    assert!(rt; fails_sync(&mut disk));
    Ok(disk.into_inner())
}

// The same file after a sync.
fn synced_file(alloc: Global) -> Result<ModelFile, Refusal> {
    let mut file = written_file(alloc)?;
    file.sync()?;
    Ok(file)
}

// A file whose bytes aa bb cc are durable, with the unsynced write of dd ee at 2.
fn torn_file(alloc: Global) -> Result<ModelFile, Refusal> {
    let mut file = ModelFile::new(alloc, vec![in alloc; 0xaa, 0xbb, 0xcc]?)?;
    file.write_at(2, &[0xdd, 0xee])?;
    Ok(file)
}

// A file whose bytes 1 2 3 are durable, with the unsynced write of 4 at 0.
fn small_file(alloc: Global) -> Result<ModelFile, Refusal>
    ensures length { IfOk result (λ file. length file.content ≡ 3) }
{
    let mut file = ModelFile::new(alloc, vec![in alloc; 1, 2, 3]?)?;
    file.write_at(0, &[4])?;
    Ok(file)
}

// Crashes a file so that it leaves these bytes. Returns the refusal, if there is one, and the file
// after it.
fn crash(file: ModelFile, left: Vec<u8>) -> (Option<Refusal>, ModelFile) {
    match file.crash(left) {
        Ok(file) => (None, file),
        Err((file, refusal)) => (Some(refusal), file),
    }
}

// Returns only the refusal.
fn crash_refusal(alloc: Global, file: ModelFile, left: &[u8]) -> Result<Option<Refusal>, Refusal> {
    let (refusal, _) = crash(file, left.to_vec(alloc)?);
    Ok(refusal)
}

// True if the file has these durable bytes, and these present ones.
fn holds(file: &ModelFile, durable: &[u8], now: &[u8]) -> bool {
    file.durable() == durable && file.now() == now
}

// Crashes the torn file so that it leaves these bytes. Returns if the file allows them, the refusal
// of the crash, if the file then has the right bytes, and if place 2 is uncertain.
fn crash_torn(
    alloc: Global,
    left: &[u8],
    is_taken: bool,
) -> Result<(bool, Option<Refusal>, bool, bool), Refusal> {
    let file = torn_file(alloc)?;
    let allowed = file.allows(left);
    let (refusal, file) = crash(file, left.to_vec(alloc)?);
    let held = if is_taken {
        holds(&file, left, left)
    } else {
        holds(&file, &[0xaa, 0xbb, 0xcc], &[0xaa, 0xbb, 0xdd, 0xee])
    };
    Ok((allowed, refusal, held, file.uncertain(2)))
}

#[test]
fn leaves_torn_write(rt: HostRuntime) -> Result<(), Fail> {
    let bad = Some(Refusal::Impossible);
    for (left, refusal) in [
        ([0xaa, 0xbb, 0].as_slice(), None),
        ([0xaa, 0xbb, 0xcc].as_slice(), None),
        ([0xaa, 0xbb, 0x11, 0x22].as_slice(), None),
        ([0xaa, 0xbb].as_slice(), bad),
        ([0xaa, 0, 0xcc].as_slice(), bad),
        ([0xaa, 0xbb, 0x11, 0x22, 0x33].as_slice(), bad),
    ] {
        let is_taken = refusal.is_none();
        let answer = crash_torn(rt.alloc(), left, is_taken)?;
        assert_eq!(rt; answer, (is_taken, refusal, true, !is_taken), "{left:?}");
    }
    Ok(())
}

// The refusals of crashes that leave these bytes of the written file: before a sync, after a failed
// one, and after one.
fn crash_refusals(
    rt: &impl Abort,
    alloc: Global,
    left: &[u8],
) -> Result<[Option<Refusal>; 3], Refusal> {
    let before = crash_refusal(alloc, written_file(alloc)?, left)?;
    let after_failed = crash_refusal(alloc, unsynced_file(rt, alloc)?, left)?;
    let after = crash_refusal(alloc, synced_file(alloc)?, left)?;
    Ok([before, after_failed, after])
}

#[test]
fn leaves_overlapping_writes(rt: HostRuntime) -> Result<(), Fail> {
    let bad = Some(Refusal::Impossible);
    for (left, before_sync, after_sync) in [
        ([0x11, 0x22].as_slice(), bad, bad),
        ([0x11, 0x22, 0x33].as_slice(), None, bad),
        ([0x11, 0, 0].as_slice(), None, bad),
        ([0, 0x22, 0x33].as_slice(), bad, bad),
        ([0x11, 0xff, 0xff, 0xff].as_slice(), None, bad),
        ([0x11, 0xaa, 0xcc, 0xdd, 0xee].as_slice(), None, None),
        ([0x11, 0xaa, 0xbb, 0xdd, 0xee].as_slice(), None, bad),
        ([0, 0xaa, 0xcc, 0xdd, 0xee].as_slice(), bad, bad),
        ([0x11, 0xaa, 0xcc, 0xdd, 0xee, 0].as_slice(), bad, bad),
    ] {
        let found = crash_refusals(&rt, rt.alloc(), left)?;
        assert_eq!(rt; found, [before_sync, before_sync, after_sync], "{left:?}");
    }
    Ok(())
}

// Checks which of these places are uncertain.
fn assert_uncertain(rt: &impl Abort, file: &ModelFile, places: &[(u64, bool)]) {
    for (place, uncertain) in places {
        assert_eq!(rt; file.uncertain(*place), *uncertain, "{place}");
    }
}

#[test]
fn reports_uncertain_places(rt: HostRuntime) -> Result<(), Fail> {
    let mut file = written_file(rt.alloc())?;
    let before_sync = [
        (0, false),
        (1, true),
        (2, true),
        (3, true),
        (4, true),
        (5, true),
    ];
    assert_uncertain(&rt, &file, &before_sync);
    file.sync()?;
    let after_sync = [
        (0, false),
        (1, false),
        (4, false),
        (5, true),
        (u64::MAX, true),
    ];
    assert_uncertain(&rt, &file, &after_sync);
    Ok(())
}

// Writes 64 bytes at the end of the small file. True if it is longer then, or if the device refused
// the write and nothing has changed.
fn grows_or_stays(file: &mut ModelFile) -> bool
    requires { length file.old.content ≡ 3 }
    ensures { 3 ≤ length file.new.content }
{
    match file.write_at(3, &[5; 64]) {
        Ok(()) => file.now().len() == 67,
        Err(refusal) => refusal == Refusal::Device && is_small(file),
    }
}

fn is_small(file: &ModelFile) -> bool {
    let has_bytes = holds(file, &[1, 2, 3], &[4, 2, 3]);
    has_bytes && file.uncertain(0) && !file.uncertain(2)
}

#[test]
fn refused_growth_changes_nothing(rt: HostRuntime) -> Result<(), Fail> {
    let mut file = small_file(rt.alloc())?;
    assert!(rt; grows_or_stays(&mut file));
    file.write_at(1, &[6, 7])?;
    file.sync()?;
    assert!(rt; file.allows(file.now()));
    Ok(())
}

// Writes at the end of the small file, and returns its length.
fn grow(file: &mut ModelFile) -> Result<usize, Refusal>
    requires { length file.old.content ≡ 3 }
{
    file.write_at(3, &[5; 97])?;
    Ok(file.now().len())
}

#[test]
fn reserved_files_are_the_same(rt: HostRuntime) -> Result<(), Fail> {
    let mut file = small_file(rt.alloc())?;
    file.reserve(2)?;
    file.reserve(100)?;
    assert!(rt; holds(&file, &[1, 2, 3], &[4, 2, 3]));
    assert_eq!(rt; grow(&mut file)?, 100);
    Ok(())
}

fn sevens(alloc: Global, count: usize) -> Result<Vec<u8>, Refusal> {
    Ok(vec![in alloc; 7; count]?)
}

// Writes these bytes to an empty file, syncs it, and returns its length.
fn fill(file: &mut ModelFile, bytes: &[u8]) -> Result<u64, Refusal> {
    file.write_at(0, bytes)?;
    let length = file.len()?;
    file.sync()?;
    Ok(length)
}

// True if these bytes are durable, and a crash may leave them.
fn stays(file: &ModelFile, bytes: &[u8]) -> bool {
    file.durable() == bytes && file.allows(bytes)
}

// Crashes a file so that it leaves these bytes. Returns the refusal, and how many bytes
// the file then has.
fn crash_length(file: ModelFile, left: Vec<u8>) -> (Option<Refusal>, usize) {
    let (refusal, file) = crash(file, left);
    (refusal, file.now().len())
}

// As many bytes as an image of 65,536 cells has.
#[test]
fn grows_to_largest_image(rt: HostRuntime) -> Result<(), Fail> {
    let bytes = sevens(rt.alloc(), 524_305)?;
    let mut file = ModelFile::new(rt.alloc(), Vec::new(rt.alloc()))?;
    assert_eq!(rt; fill(&mut file, &bytes)?, 524_305);
    assert!(rt; stays(&file, &bytes));
    assert_eq!(rt; crash_length(file, bytes), (None, 524_305));
    Ok(())
}
