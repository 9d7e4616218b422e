ghost use Rattle.std.specs.Prelude.{◌≡◌, length, All, IfOk};
ghost use Rattle.world_actions.specs.World.{IsWord};

use crate::figures::{Figures, clock_time};
use crate::pair_speed::{PairSpeed, time_pair};
use crate::seats::Seats;
use crate::store::Store;
use crate::times::Times;
use anyhow::Error;
use capture_core::{Capture, PlainCopy};
use ping_pong::PingPong;
use shared_capture::{ping_pong_pair, zigzag_pair};
use std::alloc::{AllocError, Global};
use std::thread::Threads;
use std::time::Clock;
use world_ticks::Words;
use zigzag::Zigzag;

/// The cells of each store that is measured.
pub const CELLS: usize = 65_536;

/// Returns so many words, each 0.
pub fn zeros(alloc: Global, cells: usize) -> Result<Vec<u64>, AllocError>
    ensures limit { IfOk result (λ words. All IsWord words.items) }
    ensures cells { IfOk result (λ words. length words.items ≡ cells) }
{
    vec![in alloc; 0; cells]
}

/// How often each store is measured, one after the other.
const TURNS: u32 = 9;

/// The times of all stores.
#[derive(Drop)]
pub struct AllFigures {
    /// The nanoseconds of two calls of the clock.
    pub clock: Times,
    pub vector: Figures,
    pub plain_copy: Figures,
    pub zigzag: Figures,
    pub ping_pong: Figures,
    pub shared_zigzag: Figures,
    pub shared_ping_pong: Figures,
}

/// Measures all stores in turns.
pub fn measure_stores<R: Clock>(rt: &R, alloc: Global) -> Result<AllFigures, Error> {
    let mut all = AllFigures {
        clock: Times::new(alloc),
        vector: Figures::new(alloc),
        plain_copy: Figures::new(alloc),
        zigzag: Figures::new(alloc),
        ping_pong: Figures::new(alloc),
        shared_zigzag: Figures::new(alloc),
        shared_ping_pong: Figures::new(alloc),
    };
    for _ in 0..TURNS {
        let clock = clock_time(rt, alloc)?;
        all.clock.push(clock)?;
        all.measure_owned(rt, alloc, clock)?;
        all.measure_shared(rt, alloc, clock)?;
    }
    Ok(all)
}

impl AllFigures {
    /// The sum of the words that were read and taken.
    pub fn sum(&self) -> u64 {
        self.vector
            .sum
            .wrapping_add(self.plain_copy.sum)
            .wrapping_add(self.zigzag.sum)
            .wrapping_add(self.ping_pong.sum)
            .wrapping_add(self.shared_zigzag.sum)
            .wrapping_add(self.shared_ping_pong.sum)
    }

    fn measure_owned<R: Clock>(&mut self, rt: &R, alloc: Global, clock: u64) -> Result<(), Error> {
        let words = zeros(alloc, CELLS)?;
        let mut vector = Words::new(zeros(alloc, CELLS)?);
        self.vector.time_cells(rt, &mut vector)?;
        let plain_copy = PlainCopy::build(alloc, &words)?;
        measure(rt, clock, &mut self.plain_copy, plain_copy)?;
        let zigzag = Zigzag::new(alloc, &words)?;
        measure(rt, clock, &mut self.zigzag, zigzag)?;
        let ping_pong = PingPong::new(alloc, &words)?;
        measure(rt, clock, &mut self.ping_pong, ping_pong)
    }

    fn measure_shared<R: Clock>(&mut self, rt: &R, alloc: Global, clock: u64) -> Result<(), Error> {
        let (front, back) = zigzag_pair(alloc, zeros(alloc, CELLS)?)?;
        measure(rt, clock, &mut self.shared_zigzag, Seats::new(front, back))?;
        let (front, back) = ping_pong_pair(alloc, zeros(alloc, CELLS)?)?;
        measure(
            rt,
            clock,
            &mut self.shared_ping_pong,
            Seats::new(front, back),
        )
    }
}

fn measure<R: Clock, S: Store + Drop>(
    rt: &R,
    clock: u64,
    figures: &mut Figures,
    mut store: S,
) -> Result<(), Error> {
    figures.time_cells(rt, &mut store)?;
    figures.time_rounds(rt, clock, &mut store)
}

/// Measures two threads at a pair of seats of the method Zigzag.
pub fn measure_zigzag_pair<R: Threads + Clock + Sync>(
    rt: &R,
    alloc: Global,
) -> Result<PairSpeed, Error> {
    let (front, back) = zigzag_pair(alloc, zeros(alloc, CELLS)?)?;
    Ok(time_pair(rt, CELLS, front, back)?)
}

/// Measures the same for the method Ping-Pong.
pub fn measure_ping_pong_pair<R: Threads + Clock + Sync>(
    rt: &R,
    alloc: Global,
) -> Result<PairSpeed, Error> {
    let (front, back) = ping_pong_pair(alloc, zeros(alloc, CELLS)?)?;
    Ok(time_pair(rt, CELLS, front, back)?)
}
