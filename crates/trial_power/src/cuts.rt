use crate::replay::{Calls, Replay, cut, go_on};
use crate::ticks::Ticks;
use disk_model::FourFiles;
use image_files::Slot;
use recovery::Recovered;
use std::alloc::Global;
use trial_kit::{CutTally, Random};
use world_actions::Refusal;

/// Cuts the power at so many random moments up to the last one, in order, and judges the world that
/// is recovered after each.
pub fn try_cuts(
    alloc: Global,
    mut files: FourFiles<Replay>,
    calls: &Calls<'_>,
    ticks: &Ticks,
    last: u64,
    cuts: u64,
    random: &mut Random,
) -> Result<CutTally, Refusal> {
    let mut tally = CutTally::new();
    let part = last.checked_div(cuts).unwrap_or(0);
    for i in 0..cuts {
        let moment = part
            .saturating_mul(i)
            .saturating_add(random.below(part.saturating_add(1)));
        let is_uncertain = go_on(&mut files, calls, moment)?;
        tally.cuts = tally.cuts.saturating_add(1);
        tally.uncertain = tally.uncertain.saturating_add(u64::from(is_uncertain));
        match cut(alloc, &files, random) {
            Ok(found) => judge(&found, ticks, moment, &mut tally),
            Err(Refusal::NoMemory) => return Err(Refusal::NoMemory),
            Err(_) => tally.wrong = tally.wrong.saturating_add(1),
        }
    }
    Ok(tally)
}

// Counts the world that recovery found after a power cut at this moment.
fn judge(found: &Recovered, ticks: &Ticks, moment: u64, tally: &mut CutTally) {
    let answered = ticks.answered_before(moment);
    if found.tick < answered || !ticks.leads_to(found) {
        tally.wrong = tally.wrong.saturating_add(1);
    }
    if found.tick > answered {
        tally.kept_more = tally.kept_more.saturating_add(1);
    }
    match found.slot {
        Slot::A => tally.from_a = tally.from_a.saturating_add(1),
        Slot::B => tally.from_b = tally.from_b.saturating_add(1),
    }
}
