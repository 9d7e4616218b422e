//! The public surface. Each name that a program may build on is used here by its path and its
//! signature. A change of either fails to build here.
#![tactic(auto)]

#[cfg(test)]
mod tests;
