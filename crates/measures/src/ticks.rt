use crate::moves::next;
use action_log::SEGMENT_TICKS;
use std::alloc::Global;
use world_actions::{Action, Refusal};
use world_ticks::Tick;

/// How many actions each tick has.
pub const ACTIONS: usize = 4;

/// How many actions a full segment has.
pub const SEGMENT_ACTIONS: u64 = (SEGMENT_TICKS * ACTIONS) as u64;

/// A tick of four actions on two cells of 65,536: a set, an addition, a transfer and another
/// addition. If words are below 2^50, none of them is refused.
pub fn busy_tick(alloc: Global, number: u64) -> Result<Tick, Refusal> {
    let first = cell_of(number);
    let second = first ^ 1;
    let mut tick = Tick::new(alloc);
    tick.reserve(ACTIONS)?;
    tick.push_reserved(Action::Set {
        cell: first,
        value: number % 1000 + 1000,
    });
    tick.push_reserved(Action::Add { cell: first, by: 5 });
    tick.push_reserved(Action::Transfer {
        from: first,
        to: second,
        amount: 700,
    });
    tick.push_reserved(Action::Add {
        cell: second,
        by: -699,
    });
    Ok(tick)
}

// A pseudorandom cell below 65,536.
fn cell_of(number: u64) -> u32 {
    (next(next(number)) >> 48) as u32
}

/// The ticks of a full segment.
pub fn segment_ticks(alloc: Global) -> Result<Vec<Tick>, Refusal> {
    let mut ticks = Vec::with_capacity(alloc, SEGMENT_TICKS)?;
    push_ticks(alloc, &mut ticks)?;
    Ok(ticks)
}

fn push_ticks(alloc: Global, ticks: &mut Vec<Tick>) -> Result<(), Refusal> {
    for number in 0..SEGMENT_TICKS {
        ticks.push(busy_tick(alloc, number as u64)?)?;
    }
    Ok(())
}
