//! One writer and one reader share the words of a world without a lock.
//!
//! The methods are Zigzag and Ping-Pong of Cao et al., "Fast Checkpoint Recovery Algorithms for
//! Frequently Consistent Applications", SIGMOD 2011. They work over one table of atomic words. Word
//! 0 is the phase: 0, or the tick of the open round. Two arrays follow it, with a word for each
//! cell. Two rows of mark words follow, with one mark a cell and 64 marks to a word. `Front` writes
//! and marks, and `Back` takes. Only the front stores words of cells, and never over a word that is
//! left of the open round. It opens a round by a store of the round's tick in the phase, and the
//! back ends the round by a store of 0. Until then only the back changes the marks of that round,
//! which it fetches word by word.
//!
//! So between any two steps the taken cells are those that were marked, round by round. When the
//! two seats meet, each learns if a round is open, and that the rounds agree. `Joined` keeps both
//! seats in one `Capture`, and lets them meet after each mark and each take.
#![tactic(auto)]

mod back;
mod front;
mod joined;
mod method;
mod pair;
mod signal;
mod steps;
mod table;
mod table_rule;
mod view;

pub use back::Back;
pub use front::{Front, accesses_keep};
pub use joined::Joined;
pub use method::{Kind, Method, Pong, Zig};
pub use pair::{meet, ping_pong_pair, seat_pair, zigzag_pair};
pub use signal::{SignalIn, SignalOut, cover_pair, meet_signal, signal_pair};
// A cover is the signal of the ticks of open images.
pub use signal::{SignalIn as CoverIn, SignalOut as CoverOut, meet_signal as meet_cover};
pub use view::{Round, Snapshot};
