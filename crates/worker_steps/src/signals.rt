//! The signals between the workers, besides the items.
ghost use Rattle.std.specs.Prelude.{◌≡◌, [], IfOk};

use crossbeam_channel::{Receiver, Sender, bounded};
use shared_capture::{SignalIn, SignalOut, signal_pair};
use std::alloc::{AllocError, Global};

/// The two ends of each signal: the bell that wakes the checkpointer, the word of the newest open
/// image, and the word that says if the log is down.
#[derive(Drop)]
pub struct Signals {
    pub bell: (Sender<()>, Receiver<()>),
    pub images: (SignalOut, SignalIn),
    pub down: (SignalOut, SignalIn),
}

impl Signals {
    pub fn new(alloc: Global) -> Result<Signals, AllocError>
        ensures images { IfOk result (λ signals. (signals.images.0.pair ≡ signals.images.1.pair)
            × (signals.images.0.numbers ≡ []) × (signals.images.1.numbers ≡ [])) }
        ensures down { IfOk result (λ signals. (signals.down.0.pair ≡ signals.down.1.pair)
            × (signals.down.0.numbers ≡ []) × (signals.down.1.numbers ≡ [])) }
    {
        Ok(Signals {
            bell: bounded(alloc, 1)?,
            images: signal_pair(alloc)?,
            down: signal_pair(alloc)?,
        })
    }
}
