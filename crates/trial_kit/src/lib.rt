//! The common parts of the trials and measures. They are pseudorandom numbers, counts, tallies that
//! say when a trial passes, and the bytes that a crash leaves of a file. Others are stretches whose
//! allocations are refused or counted, measured times and their percentiles, and the exit status.
#![tactic(auto)]

mod counts;
mod cut_tally;
mod exit_code;
mod failure_tally;
mod latencies;
mod nanoseconds;
mod percentile;
mod random;
mod remains;
mod stop_tally;
mod stretch;

pub use counts::Counts;
pub use cut_tally::CutTally;
pub use exit_code::exit_code_of;
pub use failure_tally::{FAILING_FILES, FailureTally};
pub use latencies::Latencies;
pub use nanoseconds::nanoseconds_of;
pub use percentile::of_thousandths;
pub use random::Random;
pub use remains::left_by;
pub use stop_tally::StopTally;
pub use stretch::{count_each, end_stretch, refuse_each, refuse_one};
