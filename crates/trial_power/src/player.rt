use crate::recorded::Clock;
use batches::{Batch, Request};
use client_service::Remote;
use sessions::World;
use std::alloc::Global;
use std::sync::Wait;
use std::sync::atomic::Ordering;
use workers::Asker;
use world_actions::{Action, Refusal};

/// A tick that was answered to a player, the cell to which it added one, and the
/// moment of the answer.
#[derive(Clone, Copy, Debug, PartialEq, Eq)]
pub struct Answered {
    pub moment: u64,
    pub tick: u64,
    pub cell: u32,
}

/// Plays so many batches, each of which adds one to the player's cell. Returns the answers.
pub fn play<R: Wait + Copy>(
    rt: &R,
    alloc: Global,
    asker: Asker,
    clock: &Clock,
    cell: u32,
    batches: u32,
) -> Result<Vec<Answered>, Refusal> {
    let mut world = Remote::new(*rt, alloc, asker);
    let batch = one_more(alloc, cell)?;
    let mut answered = Vec::new(alloc);
    let mut text = Vec::new(alloc);
    for _ in 0..batches {
        world.batch(&batch, &mut text)?;
        let moment = clock.fetch_add(1, Ordering::SeqCst);
        let tick = tick_in(&text).ok_or(Refusal::BadLine)?;
        answered.push(Answered { moment, tick, cell })?;
    }
    Ok(answered)
}

/// A batch that adds one to a cell.
pub fn one_more(alloc: Global, cell: u32) -> Result<Batch, Refusal> {
    let mut batch = Batch::new(alloc)?;
    batch.push_reserved(Request::Act(Action::Add { cell, by: 1 }));
    Ok(batch)
}

/// The number in `tick NUMBER: +`.
pub fn tick_in(text: &[u8]) -> Option<u64> {
    let digits = text.strip_prefix(b"tick ")?;
    let mut number = 0_u64;
    for byte in digits {
        if !byte.is_ascii_digit() {
            break;
        }
        let digit = u64::from(byte.saturating_sub(b'0'));
        number = number.checked_mul(10)?.checked_add(digit)?;
    }
    Some(number)
}
