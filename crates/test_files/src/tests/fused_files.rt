// Disks in memory whose calls can be made to fail, for the tests of readers.
ghost use Rattle.std.specs.Prelude.{◌≡◌, IfOk};

use disk_model::{FourFiles, Fused, ModelFile};
use std::alloc::Global;
use world_actions::Refusal;

// A disk of these bytes.
pub(crate) fn disk(alloc: Global, bytes: &[u8]) -> Result<Fused<ModelFile>, Refusal>
    ensures { IfOk result (λ disk. disk.inner.content ≡ bytes.now) }
{
    let file = ModelFile::new(alloc, bytes.to_vec(alloc)?)?;
    Ok(Fused::new(file))
}

// Two disks, of these bytes.
fn two_disks(
    alloc: Global,
    first: &[u8],
    second: &[u8],
) -> Result<(Fused<ModelFile>, Fused<ModelFile>), Refusal> {
    let first = disk(alloc, first)?;
    Ok((first, disk(alloc, second)?))
}

// A disk of one byte, one of none, one of two and one of three bytes.
pub(crate) fn four_disks(alloc: Global) -> Result<FourFiles<Fused<ModelFile>>, Refusal> {
    let (image_a, image_b) = two_disks(alloc, &[1], &[])?;
    let (log_a, log_b) = two_disks(alloc, &[2, 3], &[4, 5, 6])?;
    Ok(FourFiles {
        image_a,
        image_b,
        log_a,
        log_b,
    })
}
