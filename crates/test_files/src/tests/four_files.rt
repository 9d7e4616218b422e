ghost use Rattle.std.specs.Prelude.{◌≤◌};

use super::fused_files::four_disks;
use disk_model::{FourFiles, Fused, ModelFile};
use std::alloc::Global;
use std::test::Fail;
use world_actions::Refusal;

// How many files have the bytes of their disks.
fn count_whole(read: &FourFiles<Vec<u8>>) -> u32 {
    let image_a = read.image_a.as_slice() == [1].as_slice();
    let image_b = read.image_b.is_empty();
    let log_a = read.log_a.as_slice() == [2, 3].as_slice();
    let log_b = read.log_b.as_slice() == [4, 5, 6].as_slice();
    u32::from(image_a) + u32::from(image_b) + u32::from(log_a) + u32::from(log_b)
}

// How many files are read as their disks were made.
fn reads(alloc: Global, disks: &mut FourFiles<Fused<ModelFile>>) -> Result<u32, Refusal> {
    let read = disks.read_all(alloc)?;
    Ok(count_whole(&read))
}

#[test]
fn each_file_is_read(rt: HostRuntime) -> Result<(), Fail> {
    let whole = reads(rt.alloc(), &mut four_disks(rt.alloc())?)?;
    assert_eq!(rt; whole, 4);
    Ok(())
}

// Lets this call of one of the disks fail.
fn arm(disks: &mut FourFiles<Fused<ModelFile>>, place: u32, call: u64)
    requires { 1 ≤ call }
{
    match place {
        0 => disks.image_a.arm(call),
        1 => disks.image_b.arm(call),
        2 => disks.log_a.arm(call),
        _ => disks.log_b.arm(call),
    }
}

// Lets this call of one of the disks fail, and reads the files twice.
fn fails_once(
    alloc: Global,
    place: u32,
    call: u64,
) -> Result<(Result<u32, Refusal>, Result<u32, Refusal>), Refusal>
    requires { 1 ≤ call }
{
    let mut disks = four_disks(alloc)?;
    arm(&mut disks, place, call);
    let first = reads(alloc, &mut disks);
    Ok((first, reads(alloc, &mut disks)))
}

#[test]
fn each_file_may_fail(rt: HostRuntime) -> Result<(), Fail> {
    for call in 1..=2 {
        for place in 0..4 {
            let answers = fails_once(rt.alloc(), place, call)?;
            let want = (Err(Refusal::Device), Ok(4));
            assert_eq!(rt; answers, want, "file {place}, call {call}");
        }
    }
    Ok(())
}
