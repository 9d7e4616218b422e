ghost use Rattle.std.specs.Prelude.{◌≡◌, ◌+◌, ◌≤◌, IfOk, OnOk};
ghost use Rattle.world_actions.specs.declared.world.TheConstants.{CELLS};

use crate::counted::{Calls, File, empty_file};
use crate::measuring::zeros;
use crate::moves::write_at_random;
use crate::store::mark_closed;
use capture_core::Capture;
use image_files::{HEADER_BYTES, ImageAnswer, ImageKeeper, WORD_BYTES, images_stay};
use std::alloc::Global;
use std::marker::Model;
use world_actions::Refusal;
use world_ticks::TICK_MAX;

/// Rounds of a store into two image files.
#[derive(Drop)]
pub struct Rounds<C: Capture> {
    keeper: ImageKeeper,
    store: C,
    image_a: File,
    image_b: File,
    tick: u64,
}

// Contracts see how many rounds were begun.
impl<C: Capture> Model for Rounds<C> {
    ghost use Rattle.std.specs.Prelude.{ℕ};
    ghost use Rattle.image_files.specs.Files.{FitsFiles};

    ghost Value = { ℕ };

    ghost view = { λ rounds. rounds.tick };

    ghost invariant = { λ rounds.
        FitsFiles rounds.keeper rounds.image_a.inner.content rounds.image_b.inner.content };
}

impl<C: Capture> Rounds<C> {
    /// A store of so many cells, each 0, before its first round.
    pub fn new(alloc: Global, cells: u32) -> Result<Self, Refusal>
        requires { (1 ≤ cells) × (cells ≤ CELLS) }
        ensures { IfOk result (λ rounds. rounds ≡ 0) }
    {
        images_stay::<File>();
        let words = zeros(alloc, cells as usize)?;
        let bytes = (HEADER_BYTES + WORD_BYTES * cells as usize) as u64;
        Ok(Rounds {
            keeper: ImageKeeper::new(alloc, cells, None, [false, false])?,
            store: C::build(alloc, &words)?,
            image_a: empty_file(alloc, bytes)?,
            image_b: empty_file(alloc, bytes)?,
            tick: 0,
        })
    }

    /// Writes so many cells at random.
    pub fn play(&mut self, seed: u64, times: u32) -> u64
        ensures { self.new ≡ self.old }
    {
        write_at_random(&mut self.store, seed, times)
    }

    /// Marks the store, and begins the round.
    pub fn begin(&mut self) -> Result<(), Refusal>
        ensures { OnOk result (self.new ≡ self.old + 1) }
    {
        if self.keeper.has_open_round() || self.tick >= TICK_MAX || !mark_closed(&mut self.store) {
            return Err(Refusal::Busy);
        }
        self.tick += 1;
        self.keeper.begin(self.tick);
        Ok(())
    }

    /// Writes the image of the round.
    pub fn write(&mut self) -> Result<(), Refusal>
        ensures { self.new ≡ self.old }
    {
        for _ in 0..self.keeper.left() {
            match self.step() {
                ImageAnswer::Opened(_) => return Ok(()),
                ImageAnswer::Working => {}
                ImageAnswer::Idle | ImageAnswer::Down => break,
            }
        }
        Err(Refusal::ImageDown)
    }

    fn step(&mut self) -> ImageAnswer
        ensures { self.new ≡ self.old }
    {
        self.keeper
            .step(&mut self.store, &mut self.image_a, &mut self.image_b)
    }

    /// Returns the calls on both files since it was last asked.
    pub fn take_calls(&mut self) -> Calls
        ensures { self.new ≡ self.old }
    {
        let calls = self.image_a.take_calls();
        calls.both(self.image_b.take_calls())
    }
}
