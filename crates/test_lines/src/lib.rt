//! Tests of actions and of a client's lines. They cover actions, the reading of lines, the requests
//! and answers of batches, and the output of sessions.
#![tactic(auto)]

#[cfg(test)]
mod tests;
