//! Stores of words whose state at a mark can be taken while the words keep changing.
//!
//! `Capture` is the interface. A mark opens a round, which is the words at that moment. Takes hand
//! out the round cell by cell, while reads and writes continue. Code that only takes needs no more
//! than `Taker`. `PlainCopy` is the plainest such store. `accesses_write` states the effect of the
//! actions of `world_ticks` on a store's content. `copy_round` makes an image by a round.
#![tactic(auto)]

mod capture;
mod plain_copy;
mod rounds;
mod taker;

pub use capture::{Capture, accesses_write};
pub use plain_copy::PlainCopy;
pub use rounds::copy_round;
pub use taker::{Taken, Taker};
