ghost use Rattle.std.specs.Prelude.{◌≡◌, ◌<◌, false, IfNone};
ghost use Rattle.world_ticks.specs.declared.tick.TheConstants.{TICK_MAX};
ghost use Rattle.action_log.specs.declared.format.TheConstants.{SEGMENT_TICKS};
ghost use Rattle.action_log.specs.Refusals.{tick_refusal};

use crate::format::SEGMENT_TICKS;
use world_actions::Refusal;
use world_ticks::TICK_MAX;

/// Returns the reason why no further tick may end, if there is one. `down` is true if the log
/// is down. `ended` is the number of ended ticks, and `since` the number of those since the
/// last mark or start.
pub fn tick_refusal(down: bool, ended: u64, since: u64) -> Option<Refusal>
    ensures refusal { result ≡ tick_refusal down ended since }
    ensures room { IfNone result ((down ≡ false) × (ended < TICK_MAX) × (since < SEGMENT_TICKS)) }
{
    if down {
        Some(Refusal::LogDown)
    } else if ended >= TICK_MAX {
        Some(Refusal::TicksEnded)
    } else if since >= SEGMENT_TICKS as u64 {
        Some(Refusal::SegmentFull)
    } else {
        None
    }
}
