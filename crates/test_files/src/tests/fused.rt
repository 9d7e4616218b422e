ghost use Rattle.std.specs.Prelude.{◌≡◌, length};

use super::fused_files::disk;
use disk_model::{Disk, Fused, ModelFile};
use std::process::Abort;
use std::test::Fail;
use world_actions::Refusal;

// Lets the second call fail. True if the length is right, and then the write of 9 at 1 fails.
fn fails_write(disk: &mut Fused<ModelFile>) -> bool
    requires { length disk.old.inner.content ≡ 3 }
    ensures { length disk.new.inner.content ≡ 3 }
{
    disk.arm(2);
    let length = disk.len();
    length == Ok(3) && disk.write_at(1, &[9]) == Err(Refusal::Device)
}

// Reads the bytes at 1 and 2.
fn read_pair(disk: &mut Fused<ModelFile>) -> Result<[u8; 2], Refusal>
    requires { length disk.old.inner.content ≡ 3 }
    ensures { length disk.new.inner.content ≡ 3 }
{
    let mut pair = [0; 2];
    disk.read_at(1, &mut pair)?;
    Ok(pair)
}

// Lets a read fail. True if it fails, and reads nothing.
fn fails_read(disk: &mut Fused<ModelFile>) -> bool
    requires { length disk.old.inner.content ≡ 3 }
{
    let mut read = [9, 7];
    disk.arm(1);
    disk.read_at(0, &mut read) == Err(Refusal::Device) && read == [9, 7]
}

// Lets a call for the length fail. True if it fails.
fn fails_len(disk: &mut Fused<ModelFile>) -> bool {
    disk.arm(1);
    disk.len() == Err(Refusal::Device)
}

// Arms a sync to fail, and disarms it. True if the sync succeeds, and makes the
// written byte durable.
fn syncs(disk: &mut Fused<ModelFile>) -> bool {
    disk.arm(1);
    disk.disarm();
    disk.sync() == Ok(()) && disk.inner().durable() == [5, 9, 7].as_slice()
}

fn check_armed(rt: &impl Abort, disk: &mut Fused<ModelFile>) -> Result<(), Refusal>
    requires { length disk.old.inner.content ≡ 3 }
{
    assert!(rt; fails_write(disk));
    assert_eq!(rt; read_pair(disk)?, [9, 7], "the write was carried out");
    assert!(rt; disk.inner().uncertain(1));
    assert!(rt; fails_read(disk));
    assert!(rt; fails_len(disk));
    assert!(rt; syncs(disk));
    Ok(())
}

#[test]
fn fails_armed_calls(rt: HostRuntime) -> Result<(), Fail> {
    check_armed(&rt, &mut disk(rt.alloc(), &[5, 6, 7])?)?;
    Ok(())
}
