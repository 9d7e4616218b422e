ghost use Rattle.std.specs.Prelude.{◌≤◌};

use super::fused_files::disk;
use disk_model::{Disk, read_all};
use std::alloc::Global;
use std::test::Fail;
use world_actions::Refusal;

// True if these are all bytes of a disk.
fn reads<D: Disk>(alloc: Global, disk: &mut D, bytes: &[u8]) -> Result<bool, Refusal> {
    let read = read_all(alloc, disk)?;
    Ok(read.as_slice() == bytes)
}

// True if all bytes of a disk with these bytes are read.
fn reads_all(alloc: Global, bytes: &[u8]) -> Result<bool, Refusal> {
    let mut disk = disk(alloc, bytes)?;
    reads(alloc, &mut disk, bytes)
}

#[test]
fn all_bytes_are_read(rt: HostRuntime) -> Result<(), Fail> {
    let none: &[u8] = &[];
    for bytes in [none, &[7], &[1, 2, 3]] {
        assert!(rt; reads_all(rt.alloc(), bytes)?, "{bytes:?}");
    }
    Ok(())
}

// Lets this call fail, and reads the disk twice.
fn fails_once(
    alloc: Global,
    call: u64,
) -> Result<(Result<bool, Refusal>, Result<bool, Refusal>), Refusal>
    requires { 1 ≤ call }
{
    let mut disk = disk(alloc, &[1, 2, 3])?;
    disk.arm(call);
    let first = reads(alloc, &mut disk, &[1, 2, 3]);
    Ok((first, reads(alloc, &mut disk, &[1, 2, 3])))
}

#[test]
fn each_call_may_fail(rt: HostRuntime) -> Result<(), Fail> {
    for call in 1..=2 {
        let answers = fails_once(rt.alloc(), call)?;
        assert_eq!(rt; answers, (Err(Refusal::Device), Ok(true)), "at call {call}");
    }
    Ok(())
}
