//! A capture by the method Zigzag.
//!
//! The method is that of Cao et al., "Fast Checkpoint Recovery Algorithms for Frequently Consistent
//! Applications" (SIGMOD 2011). A store has two entries for each cell, and two marks. One mark
//! names the entry that reads take, and the other one the entry that writes go to. A call of `mark`
//! sets the write marks, and copies no word. Until the next such call no write reaches the other
//! entry, so takes hand out that entry.
#![tactic(auto)]

mod zigzag;

pub use zigzag::Zigzag;
