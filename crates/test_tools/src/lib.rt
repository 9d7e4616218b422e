//! Tests of the parts that programs share: command lines that start no work, measured times, and
//! their percentiles.
#![tactic(auto)]

#[cfg(test)]
mod tests;
