//! Both seats in one store.
ghost use Rattle.std.specs.Prelude.{◌≡◌, refl, [], ◌∷◌, true};
ghost use Rattle.world_ticks.specs.Cells.{writes_among};
ghost use Rattle.capture_core.specs.Content.{Content, content_after, Takes};
ghost use Rattle.shared_capture.specs.States.{HasNoneLeft, IsEven};
ghost use Rattle.shared_capture.specs.Joined.{IsJoined, AreFirst, content_of, entries};

use crate::back::Back;
use crate::front::Front;
use crate::method::Method;
use crate::pair::{meet, seat_pair};
use capture_core::{Capture, Taken, Taker};
use std::alloc::Global;
use std::marker::Model;
use world_actions::Refusal;
use world_ticks::Cells;

/// Both seats of a pair, as one capture.
#[derive(Drop)]
pub struct Joined<M: Method> {
    front: Front<M>,
    back: Back<M>,
}

impl<M: Method> Model for Joined<M> {
    ghost Value = { Content };

    ghost view = { λ j. content_of j.front j.back };

    ghost invariant = { λ j. IsJoined j.front j.back };
}

impl<M: Method> Joined<M> {
    /// Returns the two seats. No cell of a round may be left. Afterwards no round is open.
    pub fn split(self) -> (Front<M>, Back<M>)
        requires { self.left ≡ [] }
        ensures pair { result.0.pair ≡ result.1.pair }
        ensures words { (result.0.live ≡ self.live) × (result.0.touched ≡ self.touched) }
        ensures ended { IsEven result.0 result.1 }
        ensures ticks { AreFirst result.0.rounds }
    {
        let Joined {
            mut front,
            mut back,
        } = self;
        finish_round(&mut front, &mut back);
        (front, back)
    }
}

impl<M: Method> Cells for Joined<M> {
    ghost words = { λ store. store.live };

    ghost accessed = { λ old access new. new ≡ content_after old (writes_among (access ∷ [])) };

    fn len(&self) -> usize {
        self.front.len()
    }

    fn read(&mut self, i: usize) -> u64 {
        self.front.read(i)
    }

    fn write(&mut self, i: usize, v: u64) {
        self.front.write(i, v);
    }
}

impl<M: Method> Taker for Joined<M> {
    ghost took = { Takes };

    fn take(&mut self) -> Option<Taken> {
        let taken = self.back.take()?;
        meet(&mut self.front, &mut self.back);
        Some(taken)
    }
}

impl<M: Method> Capture for Joined<M> {
    ghost content = { λ store. store };

    ghost live_is_words = { λ store. refl };

    ghost after_access = { λ old new access accessed. accessed };

    ghost after_take = { λ old new answer takes. takes };

    fn build(alloc: Global, words: &[u64]) -> Result<Self, Refusal> {
        let (mut front, mut back) = seat_pair(alloc, Vec::from_slice(alloc, words)?)?;
        meet(&mut front, &mut back);
        Ok(Joined { front, back })
    }

    fn mark(&mut self) {
        finish_round(&mut self.front, &mut self.back);
        begin_round(&mut self.front, &mut self.back);
    }

    fn open_round(&self) -> bool {
        self.back.has_left()
    }
}

// Ends the round in work, all of whose cells were taken.
fn finish_round<M: Method>(front: &mut Front<M>, back: &mut Back<M>)
    requires joined { IsJoined front.old back.old }
    requires taken { HasNoneLeft back.old }
    ensures joined { IsJoined front.new back.new }
    ensures same { (front.new.live ≡ front.old.live) × (front.new.touched ≡ front.old.touched) }
    ensures ended { IsEven front.new back.new }
{
    if back.is_working() {
        back.finish();
        meet(front, back);
    }
}

// Opens a round. None is open before.
fn begin_round<M: Method>(front: &mut Front<M>, back: &mut Back<M>)
    requires joined { IsJoined front.old back.old }
    requires closed { front.old.closed ≡ true }
    ensures joined { IsJoined front.new back.new }
    ensures content { (content_of front.new back.new).left
        ≡ entries front.old.touched front.old.live }
    ensures live { front.new.live ≡ front.old.live }
{
    let Ok(()) = front.mark_words(1) else {
        unreachable!()
    };
    meet(front, back);
}
