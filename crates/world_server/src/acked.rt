//! The acknowledged ticks of a server, from its log writer to the thread that writes its guard.
ghost use Rattle.std.specs.Prelude.{◌≡◌, ◌<◌, ◌≤◌, ◌++◌, ◌∷◌, [], ℕ, Some, slice_get};

use shared_capture::SignalOut;
use worker_threads::Acked;

/// Stores the greatest acknowledged tick in one word, each time that it is a greater one.
#[derive(Drop)]
pub struct AckedOut {
    out: SignalOut,
    newest: u64,
    ghost up_to: { (i earlier : ℕ) → slice_get out.numbers i ≡ Some earlier → earlier ≤ newest },
}

impl AckedOut {
    /// Stores the ticks after the recovered one.
    pub fn new(out: SignalOut, recovered: u64) -> Self
        requires { out.numbers ≡ [] }
        ensures { (result.out ≡ out) × (result.newest ≡ recovered) }
    {
        AckedOut {
            out,
            newest: recovered,
        }
    }

    /// Stores the acknowledged tick, if it is a new one.
    pub fn raise(&mut self, acked: Acked)
        ensures pair { self.new.out.pair ≡ self.old.out.pair }
        ensures stored { self.old.newest < acked.tick
            → (self.new.out.numbers ≡ self.old.out.numbers ++ acked.tick ∷ [])
            × (self.new.newest ≡ acked.tick) }
        ensures kept { acked.tick ≤ self.old.newest → self.new ≡ self.old }
    {
        let tick = acked.tick();
        if tick > self.newest {
            self.out.publish(tick);
            self.newest = tick;
        }
    }
}
