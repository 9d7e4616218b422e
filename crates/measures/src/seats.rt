ghost use Rattle.std.specs.Prelude.{◌≡◌, ◌<◌, [], All};
ghost use Rattle.shared_capture.specs.declared.view.Round.{Round};

use crate::store::Store;
use capture_core::{Taken, Taker};
use shared_capture::{Back, Front, Method};
use world_ticks::{Cells, TICK_MAX};

/// The seat that writes, and the tick of its next round.
#[derive(Drop)]
pub struct WritingSeat<M: Method> {
    front: Front<M>,
    tick: u64,
    ghost positive: { 0 < tick },
    ghost rising: { All (λ (r : Round). r.tick < tick) front.rounds },
}

impl<M: Method> WritingSeat<M> {
    /// The seat before its first round.
    pub fn new(front: Front<M>) -> Self
        requires { front.rounds ≡ [] }
    {
        WritingSeat { front, tick: 1 }
    }

    /// Opens a round if it can. Returns true if it did.
    pub fn try_mark(&mut self) -> bool {
        if self.tick > TICK_MAX || self.front.mark(self.tick).is_err() {
            return false;
        }
        self.tick += 1;
        true
    }
}

impl<M: Method> Cells for WritingSeat<M> {
    ghost words = { λ seat. seat.front.live };

    ghost accessed = { λ old access new. Unit {0} };

    fn len(&self) -> usize {
        self.front.len()
    }

    fn read(&mut self, i: usize) -> u64 {
        self.front.read(i)
    }

    fn write(&mut self, i: usize, v: u64) {
        self.front.write(i, v);
    }
}

/// Both seats of a pair in one thread. They never meet.
#[derive(Drop)]
pub struct Seats<M: Method> {
    front: WritingSeat<M>,
    back: Back<M>,
}

impl<M: Method> Seats<M> {
    /// Both seats before their first round.
    pub fn new(front: Front<M>, back: Back<M>) -> Self
        requires { front.rounds ≡ [] }
    {
        Seats {
            front: WritingSeat::new(front),
            back,
        }
    }
}

impl<M: Method> Cells for Seats<M> {
    ghost words = { λ seats. seats.front.front.live };

    ghost accessed = { λ old access new. Unit {0} };

    fn len(&self) -> usize {
        self.front.len()
    }

    fn read(&mut self, i: usize) -> u64 {
        self.front.read(i)
    }

    fn write(&mut self, i: usize, v: u64) {
        self.front.write(i, v);
    }
}

impl<M: Method> Taker for Seats<M> {
    ghost took = { λ old answer new. Unit {0} };

    fn take(&mut self) -> Option<Taken> {
        self.back.take()
    }
}

impl<M: Method> Store for Seats<M> {
    fn try_mark(&mut self) -> bool {
        self.front.try_mark()
    }

    fn find_round(&mut self) {
        self.back.look();
    }

    fn finish_round(&mut self) {
        end_taken(&mut self.back);
    }
}

/// Ends the round in work if all its cells were taken. Returns true if it did.
pub fn end_taken<M: Method>(back: &mut Back<M>) -> bool {
    if back.look().is_none() || back.take().is_some() {
        return false;
    }
    back.finish();
    true
}
