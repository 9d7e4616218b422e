use super::same::same;
use packed_marks::{PackedMarks, with_bit};
use std::alloc::Global;
use std::process::Abort;

// The marks of at most 192 cells, 64 to a word.
fn words_of(marks: &PackedMarks) -> [u64; 3] {
    let mut words = [0; 3];
    for i in 0..marks.len().min(192) {
        words[i / 64] = with_bit(words[i / 64], i % 64, marks.is_set(i));
    }
    words
}

// Asserts the words of the marks of 65 cells, which are all set or all clear.
fn check_equal(rt: &impl Abort, alloc: Global, set: bool, words: [u64; 3]) {
    let marks = PackedMarks::new(alloc, 65, set).expect(rt, "memory");
    same(rt, marks.len(), 65);
    same(rt, words_of(&marks), words);
}

#[test]
fn begins_with_equal_marks(rt: HostRuntime) {
    check_equal(&rt, rt.alloc(), true, [u64::MAX, 1, 0]);
    check_equal(&rt, rt.alloc(), false, [0, 0, 0]);
}

// Sets or clears the marks of some cells, and returns the words.
fn with_put(rt: &impl Abort, marks: &mut PackedMarks, cells: &[usize], set: bool) -> [u64; 3] {
    for i in cells {
        assert!(rt; *i < marks.len());
        marks.put(*i, set);
    }
    words_of(marks)
}

#[test]
fn puts_one_mark(rt: HostRuntime) {
    let mut marks = PackedMarks::new(rt.alloc(), 130, false).expect(&rt, "memory");
    same(&rt, with_put(&rt, &mut marks, &[64, 129], true), [0, 1, 2]);
    same(&rt, with_put(&rt, &mut marks, &[64], false), [0, 0, 2]);
}

// Makes `marks` the opposites of `others`, and then `others` the opposites of `marks`.
fn check_opposites(rt: &impl Abort, marks: &mut PackedMarks, others: &mut PackedMarks) {
    with_put(rt, others, &[1, 65], true);
    assert!(rt; marks.len() == others.len());
    marks.set_opposites(others);
    same(rt, words_of(marks), [u64::MAX - 2, 1, 0]);
    others.set_opposites(marks);
    same(rt, words_of(others), [2, 2, 0]);
}

#[test]
fn sets_opposites(rt: HostRuntime) {
    let mut others = PackedMarks::new(rt.alloc(), 66, false).expect(&rt, "memory");
    let mut marks = PackedMarks::new(rt.alloc(), 66, false).expect(&rt, "memory");
    check_opposites(&rt, &mut marks, &mut others);
}
