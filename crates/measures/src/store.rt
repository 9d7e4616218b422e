use capture_core::{Capture, PlainCopy, Taker};
use ping_pong::PingPong;
use world_ticks::Cells;
use zigzag::Zigzag;

/// A store with rounds.
pub trait Store: Cells + Taker {
    /// Opens a round of the present words if it can. Returns true if it did.
    fn try_mark(&mut self) -> bool;

    /// Finds the opened round, if takes need that.
    fn find_round(&mut self);

    /// Ends the round, if marks need that. All its cells were taken.
    fn finish_round(&mut self);
}

impl Store for PlainCopy {
    fn try_mark(&mut self) -> bool {
        mark_closed(self)
    }

    fn find_round(&mut self) {}

    fn finish_round(&mut self) {}
}

impl Store for Zigzag {
    fn try_mark(&mut self) -> bool {
        mark_closed(self)
    }

    fn find_round(&mut self) {}

    fn finish_round(&mut self) {}
}

impl Store for PingPong {
    fn try_mark(&mut self) -> bool {
        mark_closed(self)
    }

    fn find_round(&mut self) {}

    fn finish_round(&mut self) {}
}

/// Opens a round if none is open. Returns true if it did.
pub fn mark_closed<C: Capture>(store: &mut C) -> bool {
    if store.open_round() {
        return false;
    }
    store.mark();
    true
}
