//! A world with its store, its keepers and its four files, run one move at a time.
//!
//! A move is an action, a read, the end of a tick, a mark, a step of a keeper, a cover or a crash.
//! The device call of a keeper's step can be made to fail. A crash leaves some bytes of the four
//! files, and includes the restart. `run` carries the promise: whatever bytes a crash may leave
//! after any list of moves, recovery gives the world after the first n ended ticks. The number n is
//! not below the acknowledged count, and every open image is the world after exactly its tick.
#![tactic(auto)]

mod laws;
mod moves;
mod running;
mod world_core;

pub use laws::{cores_are_safe, cores_stay_written};
pub use moves::{Answer, Fate, Move};
pub use running::run;
pub use world_core::Core;
