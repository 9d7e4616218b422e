use crate::moves::{read_at_random, take_cells, write_at_random, write_in_order};
use crate::store::Store;
use crate::times::{Times, picoseconds};
use anyhow::Error;
use std::alloc::Global;
use std::time::{Clock, Instant};
use trial_kit::nanoseconds_of;
use world_ticks::Cells;

/// How many reads or writes are timed at once.
const TIMES: u32 = 1 << 22;

/// How many passes over the cells make as many writes.
const PASSES: u32 = 64;

/// How many marks are timed in a turn.
const MARKS: u32 = 112;

/// How many cells are written before each mark.
const WRITES: u32 = 1024;

/// How often the clock is timed in a turn.
const CLOCKS: u32 = 1000;

/// The seed of the cells and words, so that they are the same for each store.
const SEED: u64 = 1;

/// Times of one store: those of marks in nanoseconds, the others in picoseconds for one cell.
#[derive(Drop)]
pub struct Figures {
    pub random_write: Times,
    pub ordered_write: Times,
    pub random_read: Times,
    pub take: Times,
    pub mark: Times,
    /// The sum of the words that were read and taken. It is printed, so that the compiler can't
    /// leave out a read or a take.
    pub sum: u64,
}

impl Figures {
    /// Figures without a time.
    pub fn new(alloc: Global) -> Self {
        Figures {
            random_write: Times::new(alloc),
            ordered_write: Times::new(alloc),
            random_read: Times::new(alloc),
            take: Times::new(alloc),
            mark: Times::new(alloc),
            sum: 0,
        }
    }

    /// Times reads and writes once. The first pass over the cells isn't timed.
    pub fn time_cells<R: Clock, C: Cells>(&mut self, rt: &R, store: &mut C) -> Result<(), Error> {
        write_in_order(store, 1);
        let start = Instant::now(rt)?;
        let number = write_at_random(store, SEED, TIMES);
        let time = nanoseconds_of(start.elapsed(rt)?);
        self.random_write.push(picoseconds(time, u64::from(TIMES)))?;
        let start = Instant::now(rt)?;
        write_in_order(store, PASSES);
        let time = nanoseconds_of(start.elapsed(rt)?);
        self.ordered_write
            .push(picoseconds(time, u64::from(TIMES)))?;
        let start = Instant::now(rt)?;
        let sum = read_at_random(store, number, TIMES);
        let time = nanoseconds_of(start.elapsed(rt)?);
        self.random_read.push(picoseconds(time, u64::from(TIMES)))?;
        self.sum = self.sum.wrapping_add(sum);
        Ok(())
    }

    /// Times marks, less the clock's own time, and the takes of their rounds.
    pub fn time_rounds<R: Clock, S: Store>(
        &mut self,
        rt: &R,
        clock: u64,
        store: &mut S,
    ) -> Result<(), Error> {
        let mut number = SEED;
        let (mut time, mut takes) = (0u64, 0u64);
        for _ in 0..MARKS {
            number = write_at_random(store, number, WRITES);
            self.time_mark(rt, clock, store)?;
            store.find_round();
            let cells = store.len();
            let start = Instant::now(rt)?;
            let sum = take_cells(store, cells);
            time = time.saturating_add(nanoseconds_of(start.elapsed(rt)?));
            takes = takes.saturating_add(cells as u64);
            store.finish_round();
            self.sum = self.sum.wrapping_add(sum);
        }
        Ok(self.take.push(picoseconds(time, takes))?)
    }

    // Times a mark. It calls the clock once before, because the first call after many
    // writes takes longer.
    fn time_mark<R: Clock, S: Store>(
        &mut self,
        rt: &R,
        clock: u64,
        store: &mut S,
    ) -> Result<(), Error> {
        let _before = Instant::now(rt)?;
        let start = Instant::now(rt)?;
        let is_open = store.try_mark();
        let time = nanoseconds_of(start.elapsed(rt)?);
        if is_open {
            self.mark.push(time.saturating_sub(clock))?;
        }
        Ok(())
    }
}

/// Measures the nanoseconds between two calls of the clock, one right after the other.
pub fn clock_time<R: Clock>(rt: &R, alloc: Global) -> Result<u64, Error> {
    let mut times = Times::new(alloc);
    for _ in 0..CLOCKS {
        let start = Instant::now(rt)?;
        times.push(nanoseconds_of(start.elapsed(rt)?))?;
    }
    Ok(times.median())
}
