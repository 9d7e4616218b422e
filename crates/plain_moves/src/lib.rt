//! Moves and answers of the core as plain values, which can be compared and kept.
#![tactic(auto)]

mod asked;
mod plain_answer;

pub use asked::Asked;
pub use plain_answer::PlainAnswer;
