//! Four files in memory, one of which fails at one of its calls, and the bytes that a
//! crash leaves of them.
ghost use Rattle.std.specs.Prelude.{◌≤◌};

use super::worlds::files_of;
use disk_model::{Disk, FourFiles, Fused, Leaving, ModelFile};
use recovery::{Recovered, recover};
use std::alloc::Global;
use std::process::Abort;
use world_actions::Refusal;

pub type Disks = FourFiles<Fused<ModelFile>>;

/// The kinds of crashes: what each leaves of writes that aren't synced.
pub const LEAVINGS: [Leaving; 5] = [
    Leaving::Lose,
    Leaving::Keep,
    Leaving::Fill(0),
    Leaving::Fill(1),
    Leaving::Fill(0xff),
];

fn fused(files: FourFiles<ModelFile>) -> Disks {
    let FourFiles {
        image_a,
        image_b,
        log_a,
        log_b,
    } = files;
    FourFiles {
        image_a: Fused::new(image_a),
        image_b: Fused::new(image_b),
        log_a: Fused::new(log_a),
        log_b: Fused::new(log_b),
    }
}

/// Disks with these bytes. The one at this place fails its k-th call.
pub fn disks_of(rt: &impl Abort, alloc: Global, bytes: [&[u8]; 4], place: usize, k: u64) -> Disks
    requires { 1 ≤ k }
{
    let mut disks = fused(files_of(rt, alloc, bytes));
    disk_at(&mut disks, place).arm(k);
    disks
}

fn disk_at(disks: &mut Disks, place: usize) -> &mut Fused<ModelFile> {
    match place {
        0 => &mut disks.image_a,
        1 => &mut disks.image_b,
        2 => &mut disks.log_a,
        _ => &mut disks.log_b,
    }
}

/// True if the disk that was to fail its k-th call has failed it.
pub fn has_failed(disks: &mut Disks, place: usize, k: u64) -> bool {
    let disk = disk_at(disks, place);
    for _ in 0..k {
        if disk.len().is_err() {
            return false;
        }
    }
    true
}

fn left_by(rt: &impl Abort, alloc: Global, disk: &Fused<ModelFile>, leaving: Leaving) -> Vec<u8> {
    disk.inner().left_by(alloc, leaving).expect(rt, "memory")
}

/// Recovers from what a crash of this kind leaves of the files.
pub fn after_crash(
    rt: &impl Abort,
    alloc: Global,
    disks: &Disks,
    leaving: Leaving,
) -> Result<Recovered, Refusal> {
    let image_a = left_by(rt, alloc, &disks.image_a, leaving);
    let image_b = left_by(rt, alloc, &disks.image_b, leaving);
    let log_a = left_by(rt, alloc, &disks.log_a, leaving);
    let log_b = left_by(rt, alloc, &disks.log_b, leaving);
    recover(alloc, &image_a, &image_b, &log_a, &log_b)
}

/// Asserts that this world may be recovered after a crash of this kind.
pub fn may_stand(rt: &impl Abort, leaving: Leaving, found: &Recovered, is_right: bool) {
    assert!(rt; is_right, "{leaving:?}: {found:?}");
}
