use crate::outcome::Outcome;
use image_files::ImageState;

/// The tick and the words that an image must have.
#[derive(Drop)]
pub struct Known {
    pub tick: u64,
    pub words: Vec<u64>,
}

ghost use Rattle.std.specs.Prelude.{◌≡◌, ◌↔◌, ◌⊎◌, IsTrue};
ghost use Rattle.image_files.specs.Image.{Closed};
ghost use Rattle.recovery.specs.Recovered.{image_in};
ghost use Rattle.trial_crashes.specs.Known.{image_known};

/// The outcome of the file that isn't written. It must read as the newest image, or as closed
/// if there is none.
pub fn kept_outcome(state: &ImageState, newest: &Option<Known>) -> Outcome
    ensures known { (result ≡ Outcome.Before) ⊎ (result ≡ Outcome.Wrong) }
    ensures before { result ≡ Outcome.Before → image_in state.now ≡ image_known newest.now }
{
    if reads_as(state, newest) {
        Outcome::Before
    } else {
        Outcome::Wrong
    }
}

/// The outcome of the file that is written. It may read as closed, as the image that it had before,
/// or as the one that is written.
pub fn written_outcome(state: &ImageState, before: &Option<Known>, round: &Option<Known>) -> Outcome
    ensures closed { result ≡ Outcome.Closed → image_in state.now ≡ Closed }
    ensures before { result ≡ Outcome.Before → image_in state.now ≡ image_known before.now }
    ensures whole { result ≡ Outcome.Whole → image_in state.now ≡ image_known round.now }
{
    if reads_as(state, &None) {
        Outcome::Closed
    } else if reads_as(state, before) {
        Outcome::Before
    } else if reads_as(state, round) {
        Outcome::Whole
    } else {
        Outcome::Wrong
    }
}

// True if a file reads as this image, or is closed if there is none.
fn reads_as(state: &ImageState, known: &Option<Known>) -> bool
    ensures { IsTrue result ↔ (image_in state.now ≡ image_known known.now) }
{
    match (state, known) {
        (ImageState::Closed, None) => true,
        (ImageState::Open { tick, words }, Some(known)) => {
            *tick == known.tick && words.as_slice() == known.words.as_slice()
        }
        _ => false,
    }
}
