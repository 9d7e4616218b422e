//! Tests of the core, move by move, and of scripts.
#![tactic(auto)]

#[cfg(test)]
mod tests;
