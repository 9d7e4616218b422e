//! A capture by the method Ping-Pong.
//!
//! The method is that of Cao et al., "Fast Checkpoint Recovery Algorithms for Frequently Consistent
//! Applications" (SIGMOD 2011). Beside the live words a store has two arrays of words, odd and
//! even, whose entries can be dirty. A write goes to the live word and to the current array, and
//! makes its entry there dirty. A mark only swaps the arrays. Takes then find in the previous array
//! the words that writes before the mark changed. They clean that array for the next mark.
#![tactic(auto)]

mod ping_pong;

pub use ping_pong::PingPong;
