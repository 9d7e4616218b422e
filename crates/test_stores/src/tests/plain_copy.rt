use super::moves::{TWO_ROUNDS, follow_new};
use super::rounds::check_images;
use capture_core::PlainCopy;

#[test]
fn hands_out_words_of_marks(rt: HostRuntime) {
    follow_new::<PlainCopy>(&rt, rt.alloc(), &TWO_ROUNDS);
}

#[test]
fn copies_words_of_mark(rt: HostRuntime) {
    let images = ([5, 7], [4, 9]);
    check_images::<PlainCopy>(&rt, rt.alloc(), &[(1, 9), (0, 4)], images);
}
