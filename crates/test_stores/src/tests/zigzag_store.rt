use super::entries::{TwoArrays, check_entries};
use super::listed::check_list;
use super::moves::{TWO_ROUNDS, follow_new};
use super::rounds::check_images;
use world_ticks::Cells;
use zigzag::Zigzag;

#[test]
fn hands_out_words_of_marks(rt: HostRuntime) {
    follow_new::<Zigzag>(&rt, rt.alloc(), &TWO_ROUNDS);
}

impl TwoArrays for Zigzag {
    fn first_entries(&self) -> Option<(u64, u64)> {
        if self.len() == 0 {
            return None;
        }
        Some(self.arrays(0))
    }
}

#[test]
fn writes_zig_and_zag(rt: HostRuntime) {
    let store = Zigzag::new(rt.alloc(), &[5, 7]).expect(&rt, "memory");
    check_entries(&rt, store);
}

#[test]
fn copies_words_of_mark(rt: HostRuntime) {
    let images = ([5, 7], [4, 9]);
    check_images::<Zigzag>(&rt, rt.alloc(), &[(1, 9), (0, 4)], images);
}

#[test]
fn agrees_with_list_of_words(rt: HostRuntime) {
    check_list::<Zigzag>(&rt, rt.alloc(), false);
}
