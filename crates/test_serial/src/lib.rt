//! Tests of `world_start` and `serial_world`: batches of sessions, damaged files, failures of each
//! call of a file, crashes, and files of the system. They make many worlds by `create_and_open`.
//!
//! A large value is dropped by a call of `drop`, which is proved much faster than its drop at
//! the end of a scope.
#![tactic(auto)]

mod created;
#[cfg(test)]
mod tests;

pub use created::create_and_open;
