//! A world in memory beside its four files, whatever its store and whatever disks they are on.
//!
//! `Engine` has the store of the words, the keepers of the files and the records that wait for the
//! log. It plays one operation at a time, in one thread: a batch, the end of a tick, a mark, or a
//! step of a keeper. Contracts see it as a `World`. Each operation keeps it in step with its ticks
//! (`Follows`). So whatever a crash leaves of its files, recovery gives the world after one of them
//! (`followed_files_are_sound`).
#![tactic(auto)]

mod answers;
mod engine;
mod laws;

pub use answers::Answers;
pub use engine::{Engine, Parts, known_shut};
pub use laws::{event_laws, followed_files_are_sound, keeper_laws};
