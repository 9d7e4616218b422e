use std::alloc::{AllocError, Global};

/// Allocating a block of one of these sizes is a signal to the library
/// `scripts/watched_allocations.c`. A stretch begins, in which the library may refuse one
/// allocation, refuses each one, or counts them all. The last size ends it. Without the library the
/// signal does nothing.
const ONE_REFUSED: usize = 777_001;

const EACH_REFUSED: usize = 777_002;

const EACH_COUNTED: usize = 777_003;

const ENDED: usize = 777_004;

/// Begins a stretch in which one allocation may be refused.
pub fn refuse_one(alloc: Global) {
    let _ = block(alloc, ONE_REFUSED);
}

/// Begins a stretch in which each allocation is refused.
pub fn refuse_each(alloc: Global) {
    let _ = block(alloc, EACH_REFUSED);
}

/// Begins a stretch in which each allocation is counted.
pub fn count_each(alloc: Global) {
    let _ = block(alloc, EACH_COUNTED);
}

/// Ends the stretch.
pub fn end_stretch(alloc: Global) {
    let _ = block(alloc, ENDED);
}

fn block(alloc: Global, size: usize) -> Result<Vec<u8>, AllocError> {
    Vec::with_capacity(alloc, size)
}
