//! The parts of a start: its store, and its round if it has one.
ghost use Rattle.std.specs.Prelude.{◌≡◌, ℕ, List, All, replicate, IfOk, IfErr};
ghost use Rattle.world_actions.specs.World.{IsWord};
ghost use Rattle.image_files.specs.Files.{ReportsShut};
ghost use Rattle.restart.specs.Start.{has_round, IsBuilt, is_shut};

use capture_core::Capture;
use image_files::Slot;
use std::alloc::Global;
use world_actions::Refusal;

/// The number of records that may wait for the log of a world, in the queue of its keeper and
/// on the way there.
pub const QUEUE_RECORDS: usize = 64;

/// True if a start at this tick has a round. `newest` is the file and the tick of the newest image.
pub fn has_round(newest: Option<(Slot, u64)>, tick: u64) -> bool
    ensures { result ≡ has_round newest tick }
{
    match newest {
        None => true,
        Some((_, from)) => from < tick,
    }
}

/// Builds the store of a start, and marks it if the start has a round.
pub fn store_of<C: Capture>(alloc: Global, words: &[u64], round: bool) -> Result<C, Refusal>
    requires { All IsWord words.now }
    ensures built { IfOk result (λ store. IsBuilt words.now round (C.content store)) }
    ensures memory { IfErr result (λ refusal. refusal ≡ Refusal.NoMemory) }
{
    let mut store = C::build(alloc, words)?;
    if round {
        store.mark();
    }
    Ok(store)
}

/// Law: the test if a gate is shut is right for any bytes.
pub fn gates_are_reported()
    ensures { (file : List ℕ) → ReportsShut (is_shut file) file }
{}

/// Returns the words of a fresh world.
pub fn zeros(alloc: Global, cells: u32) -> Result<Vec<u64>, Refusal>
    ensures zeros { IfOk result (λ words. words.items ≡ replicate cells 0) }
    ensures memory { IfErr result (λ refusal. refusal ≡ Refusal.NoMemory) }
{
    Ok(vec![in alloc; 0; cells as usize]?)
}
