// Images of rounds.
ghost use Rattle.std.specs.Prelude.{◌≤◌, length, All};
ghost use Rattle.capture_core.specs.Rounds.{IsChange};

use super::same::same;
use capture_core::{Capture, copy_round};
use std::alloc::Global;
use std::process::Abort;

// Checks the image of a round over 5 and 7 in which some cells change, and the image
// of the next round.
pub fn check_images<C: Capture>(
    rt: &impl Abort,
    alloc: Global,
    changes: &[(usize, u64)],
    images: ([u64; 2], [u64; 2]),
)
    requires changes { All (IsChange 2) changes.now }
    requires few { length changes.now ≤ 2 }
{
    let mut store = C::build(alloc, &[5, 7]).expect(rt, "memory");
    let mut image = [0, 0];
    copy_round(&mut store, &mut image, changes);
    same(rt, image, images.0);
    assert!(rt; store.len() == image.len());
    copy_round(&mut store, &mut image, &[]);
    same(rt, image, images.1);
}
