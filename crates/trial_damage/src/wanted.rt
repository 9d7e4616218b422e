ghost use Rattle.std.specs.Prelude.{◌≡◌, ◌↔◌, IsTrue};
ghost use Rattle.recovery.specs.Recovered.{recovery_of_answer};
ghost use Rattle.trial_damage.specs.Wanted.{answer_of, recovery_answered};

use crate::files::Files;
use crate::replay::replay_on;
use action_log::{LogState, read_log};
use image_files::{ImageState, Slot, read_image};
use recovery::Recovered;
use std::alloc::Global;
use world_actions::Refusal;

/// The answer that recovery has to give.
#[derive(Debug, Drop)]
pub enum Wanted {
    /// This world.
    World(Recovered),
    /// No image is open.
    NoImage,
    /// An image is bad.
    BadImage,
    /// A segment is bad.
    BadSegment,
    /// An action of the log is refused.
    BadReplay,
}

impl Wanted {
    /// Finds the answer that the definition of recovery requires for four files, from what each of
    /// them reads as. The error is `NoMemory`.
    pub fn of(alloc: Global, files: &Files) -> Result<Wanted, Refusal> {
        let (image_a, image_b) = (
            image_in(alloc, &files.image_a)?,
            image_in(alloc, &files.image_b)?,
        );
        let (log_a, log_b) = (log_in(alloc, &files.log_a)?, log_in(alloc, &files.log_b)?);
        let (Some(image_a), Some(image_b)) = (image_a, image_b) else {
            return Ok(Wanted::BadImage);
        };
        let (Some(log_a), Some(log_b)) = (log_a, log_b) else {
            return Ok(Wanted::BadSegment);
        };
        let Some(mut world) = newest(image_a, image_b) else {
            return Ok(Wanted::NoImage);
        };
        let (first, second) = if begins_at(world.from, &log_a) {
            (&log_a, &log_b)
        } else {
            (&log_b, &log_a)
        };
        if replay_on(&mut world, first) && replay_on(&mut world, second) {
            Ok(Wanted::World(world))
        } else {
            Ok(Wanted::BadReplay)
        }
    }

    /// True if this was answered.
    pub fn is(&self, answer: &Result<Recovered, Refusal>) -> bool
        ensures { IsTrue result ↔ (recovery_answered answer.now ≡ answer_of self.now) }
    {
        match (self, answer) {
            (Wanted::World(world), Ok(found)) => are_same(world, found),
            (Wanted::NoImage, Err(refusal)) => *refusal == Refusal::NoImage,
            (Wanted::BadImage, Err(refusal)) => *refusal == Refusal::BadImage,
            (Wanted::BadSegment | Wanted::BadReplay, Err(refusal)) => *refusal == Refusal::BadLog,
            _ => false,
        }
    }
}

// True if two worlds are the same, and are recovered from the same image.
fn are_same(one: &Recovered, other: &Recovered) -> bool
    ensures { IsTrue result ↔ (recovery_of_answer one.now ≡ recovery_of_answer other.now) }
{
    one.tick == other.tick
        && one.from == other.from
        && one.slot == other.slot
        && one.words.as_slice() == other.words.as_slice()
}

// Reads an image. Returns None if it is bad.
fn image_in(alloc: Global, bytes: &[u8]) -> Result<Option<ImageState>, Refusal> {
    match read_image(alloc, bytes) {
        Ok(state) => Ok(Some(state)),
        Err(Refusal::BadImage) => Ok(None),
        Err(refusal) => Err(refusal),
    }
}

// Reads a segment. Returns None if it is bad.
fn log_in(alloc: Global, bytes: &[u8]) -> Result<Option<LogState>, Refusal> {
    match read_log(alloc, bytes) {
        Ok(state) => Ok(Some(state)),
        Err(Refusal::BadLog) => Ok(None),
        Err(refusal) => Err(refusal),
    }
}

// The world of the open image with the greatest tick, which is image.a if both have it.
fn newest(image_a: ImageState, image_b: ImageState) -> Option<Recovered> {
    match (open_in(Slot::A, image_a), open_in(Slot::B, image_b)) {
        (Some(a), Some(b)) if a.tick < b.tick => Some(b),
        (Some(a), _) => Some(a),
        (None, b) => b,
    }
}

// The world of an open image.
fn open_in(slot: Slot, image: ImageState) -> Option<Recovered> {
    match image {
        ImageState::Closed => None,
        ImageState::Open { tick, words } => Some(Recovered {
            tick,
            from: tick,
            slot,
            words,
        }),
    }
}

fn begins_at(tick: u64, log: &LogState) -> bool {
    matches!(log, LogState::Open { base, .. } if *base == tick)
}
