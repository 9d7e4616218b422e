//! A world on four files in one thread: each batch is a tick, which is durable before
//! it is answered.
//!
//! `SerialWorld::open` recovers the world of the files, and runs its start. `batch` plays a batch
//! on the store, has the log write its tick, and answers once the log keeper has acknowledged it.
//! If `every` ticks have ended since the last mark or start, it marks the store and writes an
//! image. `play` does the same and returns a list of answers in place of a text. Between two
//! batches `read` returns a word, and `into_parts` takes the world apart. Whatever a crash leaves
//! of the files, recovery gives the world after the first n ended ticks, for some n not below
//! `acked` (`served_worlds_are_safe`).
#![tactic(auto)]

mod laws;
mod state;
mod world;

pub use laws::served_worlds_are_safe;
// A world that is served, whoever its clients are.
pub use world::{SerialWorld, SerialWorld as Served};
pub use world_start::fresh_files;
