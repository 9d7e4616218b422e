use capture_core::{Taken, Taker};
use world_ticks::Cells;

/// The next pseudorandom number.
pub fn next(number: u64) -> u64 {
    number
        .wrapping_mul(6_364_136_223_846_793_005)
        .wrapping_add(1_442_695_040_888_963_407)
}

/// Writes so many cells of a store of 65,536, at random. Returns the last pseudorandom number.
pub fn write_at_random<C: Cells>(store: &mut C, seed: u64, times: u32) -> u64 {
    let mut number = seed;
    for _ in 0..times {
        number = next(number);
        let cell = (number >> 48) as usize;
        if cell < store.len() {
            store.write(cell, number >> 20);
        }
    }
    number
}

/// Writes all cells in order, so many times.
pub fn write_in_order<C: Cells>(store: &mut C, passes: u32) {
    for pass in 0..passes {
        for cell in 0..store.len() {
            if cell < store.len() {
                store.write(cell, u64::from(pass));
            }
        }
    }
}

/// Reads so many cells at random. Returns the sum of their words.
pub fn read_at_random<C: Cells>(store: &mut C, seed: u64, times: u32) -> u64 {
    let mut number = seed;
    let mut sum = 0u64;
    for _ in 0..times {
        number = next(number);
        let cell = (number >> 48) as usize;
        if cell < store.len() {
            sum = sum.wrapping_add(store.read(cell));
        }
    }
    sum
}

/// Takes so many cells. Returns the sum of their words.
pub fn take_cells<T: Taker>(taker: &mut T, cells: usize) -> u64 {
    let mut sum = 0u64;
    for _ in 0..cells {
        if let Some(Taken::Word(word)) = taker.take() {
            sum = sum.wrapping_add(word);
        }
    }
    sum
}
