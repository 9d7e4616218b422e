//! A batch on the front.
ghost use Rattle.std.specs.Prelude.{◌≡◌, ◌+◌, ◌<◌, false, IfOk, IfErr, OnOk, OnErr};
ghost use Rattle.world_ticks.specs.declared.tick.TheConstants.{TICK_MAX};
ghost use Rattle.action_log.specs.declared.format.TheConstants.{SEGMENT_TICKS};
ghost use Rattle.batches.specs.Answer.{answer, accepted_of, words_after};
ghost use Rattle.shared_capture.specs.States.{HasFlags, KeepsUntouched, SameRounds};
ghost use Rattle.workers.specs.Worlds.{IsRefusedTick};

use action_log::tick_refusal;
use batches::{Batch, answer_text};
use shared_capture::{Front, Method, accesses_keep};
use std::alloc::Global;
use world_actions::Refusal;
use world_ticks::Tick;

/// Runs a batch on the front as the next tick. Returns its accepted actions, and the line that
/// answers it, which is in the memory of `buffer` if that suffices. `ended` says how many ticks
/// ended, and `since` how many of them since the last mark or start.
pub fn play<M: Method>(
    alloc: Global,
    buffer: Vec<u8>,
    front: &mut Front<M>,
    b: &Batch,
    ended: u64,
    since: u64,
) -> Result<(Tick, Vec<u8>), Refusal>
    ensures tick { IfOk result (λ played. played.0.list ≡ accepted_of b.now.list front.old.live) }
    ensures text { IfOk result (λ played. played.1.items
        ≡ answer b.now.list front.old.live (ended + 1)) }
    ensures words { OnOk result (front.new.live ≡ words_after b.now.list front.old.live) }
    ensures rounds { SameRounds front.old front.new }
    ensures untouched { HasFlags front.old → KeepsUntouched front.old front.new }
    ensures room { OnOk result ((ended < TICK_MAX) × (since < SEGMENT_TICKS)) }
    ensures refused { IfErr result (IsRefusedTick false ended since) }
    ensures unchanged { OnErr result (front.new ≡ front.old) }
{
    accesses_keep();
    if let Some(reason) = tick_refusal(false, ended, since) {
        return Err(reason);
    }
    let mut tick = Tick::new(alloc);
    let mut text = buffer;
    match answer_text(&mut text, front, &mut tick, b, ended + 1) {
        Ok(()) => Ok((tick, text)),
        Err(reason) => Err(reason),
    }
}
