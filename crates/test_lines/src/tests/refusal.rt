use super::same::same;
use std::alloc::{AllocError, AllocFailed, Global};
use std::process::Abort;
use world_actions::Refusal;

// All refusals in the order of their codes, from 1 on, and the text of each.
const REFUSALS: [(Refusal, &str); 23] = [
    (
        Refusal::BadCell,
        "there is no such cell: cells are numbered from 0 to the number of cells less 1",
    ),
    (
        Refusal::BadValue,
        "the number is out of range: use at most 999999999999999999",
    ),
    (
        Refusal::OutOfRange,
        "the action would leave a word below 0 or above 999999999999999999",
    ),
    (
        Refusal::SameCell,
        "a move or a swap needs two different cells",
    ),
    (
        Refusal::TickFull,
        "the running tick has 256 actions: end it first",
    ),
    (
        Refusal::SegmentFull,
        "65536 ticks have ended since the last mark or start: mark a checkpoint first",
    ),
    (
        Refusal::QueueFull,
        "the queue to the log is full: let the log write first",
    ),
    (
        Refusal::OpenTick,
        "the running tick has an action: end it before a mark",
    ),
    (
        Refusal::Busy,
        "a checkpoint is still being written: let it finish first",
    ),
    (
        Refusal::NothingNew,
        "the newest image already has the newest tick: end a tick first",
    ),
    (
        Refusal::ImageDown,
        "images can't be written since the device failed: restart",
    ),
    (
        Refusal::LogDown,
        "the log can't be written since the device failed: restart",
    ),
    (Refusal::NoImage, "there is no image to recover from"),
    (Refusal::BadImage, "an image file is damaged"),
    (Refusal::BadLog, "a log file is damaged"),
    (Refusal::BadLine, "the line isn't understood"),
    (Refusal::NoMemory, "there is no memory left"),
    (Refusal::Device, "the device failed"),
    (
        Refusal::Starting,
        "the start has not ended: let the images and the log finish it first",
    ),
    (Refusal::Impossible, "a crash can't leave these bytes"),
    (
        Refusal::TicksEnded,
        "the last tick number has been given out",
    ),
    (
        Refusal::NotEmpty,
        "a file already holds a world: choose an empty folder",
    ),
    (
        Refusal::Uncovered,
        "no image of this tick is open yet: let it be written first",
    ),
];

// Asserts that a refusal has this code and this text.
fn check_text(rt: &impl Abort, alloc: Global, refusal: Refusal, code: usize, text: &str) {
    same(rt, refusal.code() as usize, code);
    let reported = refusal.to_string(alloc).expect(rt, "memory");
    same(rt, reported.as_str(), text);
}

#[test]
fn reports_refusals(rt: HostRuntime) {
    for (at, (refusal, text)) in REFUSALS.iter().enumerate() {
        check_text(&rt, rt.alloc(), *refusal, at + 1, text);
    }
}

#[test]
fn comes_from_refused_memory(rt: HostRuntime) {
    same(&rt, Refusal::from(AllocError), Refusal::NoMemory);
    let failed = AllocFailed { value: 5 };
    same(&rt, Refusal::from(failed), Refusal::NoMemory);
}
