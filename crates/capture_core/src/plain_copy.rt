ghost use Rattle.std.specs.Prelude.{◌≡◌, [], ◌∷◌, refl};
ghost use Rattle.world_ticks.specs.Cells.{writes_among};
ghost use Rattle.capture_core.specs.Content.{content_after, Takes};

use crate::capture::Capture;
use crate::taker::{Taken, Taker};
use std::alloc::Global;
use std::marker::Model;
use world_actions::Refusal;
use world_ticks::Cells;

/// The plainest capture. A mark copies all words into an array that was reserved before, and takes
/// hand out the copy.
#[derive(Drop)]
pub struct PlainCopy {
    live: Vec<u64>,
    copy: Vec<u64>,
    taken: usize,
}

impl Model for PlainCopy {
    ghost use Rattle.std.specs.Prelude.{◌≡◌, ◌≤◌, length, drop, All};
    ghost use Rattle.world_actions.specs.World.{IsWord};
    ghost use Rattle.capture_core.specs.Content.{Content, all_touched};

    ghost Value = { Content };

    ghost view = { λ store. all_touched store.live.items (drop store.taken store.copy.items) };

    ghost invariant = { λ store. (length store.copy.items ≡ length store.live.items)
        × (store.taken ≤ length store.live.items)
        × All IsWord store.live.items × All IsWord store.copy.items };
}

impl Cells for PlainCopy {
    ghost words = { λ store. store.live };

    ghost accessed = { λ old access new. new ≡ content_after old (writes_among (access ∷ [])) };

    fn len(&self) -> usize {
        self.live.len()
    }

    fn read(&mut self, i: usize) -> u64 {
        self.live[i]
    }

    fn write(&mut self, i: usize, v: u64) {
        self.live[i] = v;
    }
}

impl Taker for PlainCopy {
    ghost took = { Takes };

    fn take(&mut self) -> Option<Taken> {
        let word = *self.copy.get(self.taken)?;
        self.taken += 1;
        Some(Taken::Word(word))
    }
}

impl Capture for PlainCopy {
    ghost content = { λ store. store };

    ghost live_is_words = { λ store. refl };

    ghost after_access = { λ old new access accessed. accessed };

    ghost after_take = { λ old new answer takes. takes };

    fn build(alloc: Global, words: &[u64]) -> Result<Self, Refusal> {
        Ok(PlainCopy {
            live: Vec::from_slice(alloc, words)?,
            copy: Vec::from_slice(alloc, words)?,
            taken: words.len(),
        })
    }

    fn mark(&mut self) {
        self.copy.copy_from_slice(&self.live);
        self.taken = 0;
    }

    fn open_round(&self) -> bool {
        self.taken < self.copy.len()
    }
}
