//! Tests of the stores of words: the plain copy, Zigzag, Ping-Pong, the pairs of seats of both
//! methods, and packed marks.
#![tactic(auto)]

#[cfg(test)]
mod tests;
