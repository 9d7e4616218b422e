//! The three workers of a world as they begin, and their steps in one thread. The steps are made
//! one at a time, in any order of the workers. After each step the four files are sound.
#![tactic(auto)]

mod laws;
mod next;
mod opened;
mod signals;
mod steps;
mod together;

pub use laws::stops_are_sound;
pub use next::Next;
pub use opened::{Gates, Opened};
pub use together::{Together, run_world};
