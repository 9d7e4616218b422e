//! The publisher, which reports the ticks of open images to the log writer.
ghost use Rattle.std.specs.Prelude.{◌≡◌, true};
ghost use Rattle.shared_capture.specs.SignalWord.{SignalState, with_number, AreStored};
ghost use Rattle.workers.specs.Publishing.{IsNext};

use shared_capture::{Back, Method, SignalIn, SignalOut, meet_signal};
use std::marker::Model;

/// Publishes the tick of a round's image while the back still has the round.
/// Contracts see the ticks.
#[derive(Drop)]
pub struct Publisher {
    covers: SignalOut,
}

impl Model for Publisher {
    ghost Value = { SignalState };

    ghost view = { λ publisher. publisher.covers };
}

impl Publisher {
    /// A publisher that stores ticks in this word.
    pub(crate) fn new(covers: SignalOut) -> Self
        ensures { result ≡ covers }
    {
        Publisher { covers }
    }

    /// Publishes the tick of an image that is open. A thread that later sees the end of the back's
    /// round finds the tick published.
    pub(crate) fn publish<M: Method>(&mut self, _back: &Back<M>, tick: u64)
        requires in_work { _back.now.working ≡ true }
        requires next { IsNext self.old tick }
        ensures { self.new ≡ with_number self.old tick }
    {
        self.covers.publish(tick);
    }

    /// Meets the seat that loads the ticks.
    pub(crate) fn meet(&mut self, from: &mut SignalIn)
        requires { self.old.pair ≡ from.old.pair }
        ensures same { (self.new ≡ self.old) × (from.new ≡ from.old) }
        ensures stored { AreStored self.new.numbers from.new.numbers }
    {
        meet_signal(&mut self.covers, from);
    }
}
