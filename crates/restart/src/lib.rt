//! The parts of a start, and two relations. A store of words follows the images that are written of
//! it, and a whole world stays in step with its ticks.
//!
//! After a recovery, and for a fresh world, store and keepers are built new. The store is built
//! from the words, and marked if the start has a round. The image keeper begins with that round.
//! The log keeper has the start as its first job. From then on the words taken in a round, with
//! those that it has left, are the words at its mark. Writes in between don't change that, so its
//! image is the world at its tick. Store, images, log and queue stay in step with the ended ticks,
//! from the beginning of a start on, through each event (`worlds_go_on`). So a crash leaves files
//! from which recovery gives the world (`worlds_are_safe`).
#![tactic(auto)]

mod following;
mod in_step;
mod start;

pub use in_step::{worlds_are_safe, worlds_go_on};
pub use start::{QUEUE_RECORDS, gates_are_reported, has_round, store_of, zeros};
