//! The actions of clients on a world of numbered words, and the reasons to refuse them.
//!
//! `Action` is a change that a client asks for. `Refusal` is the reason why any call of the product
//! refuses. `check` decides an action from the two words that it can touch. Its contract gives the
//! effect on the whole world, so no layer above looks at an action's kind to decide it.
#![tactic(auto)]

mod action;
mod kinds;
mod refusal;
mod world;

pub use action::{Action, Change, check};
pub use refusal::{Refusal, one_code_each};
pub use world::{CELLS, LIMIT, effect_keeps_world};
