//! Stores of words, and ticks: the batches of actions that change them.
//!
//! `Cells` is the store that actions need: its words are read and written one at a time. `Words` is
//! the plainest store. `act` does one action and adds it to the running tick. `replay` does a whole
//! tick again, for recovery. The contracts of both state their reads and writes, so that a store
//! may promise more about each access.
#![tactic(auto)]

mod after;
mod cells;
mod play;
mod tick;
mod words;

pub use after::actions_go_on;
pub use cells::Cells;
pub use play::{act, replay};
pub use tick::{TICK_ACTIONS, TICK_MAX, Tick};
pub use words::Words;
