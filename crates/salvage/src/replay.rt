//! Which ticks of a segment are accepted again.
ghost use Rattle.world_actions.specs.World.{IsWorld};
ghost use Rattle.salvage.specs.Parts.{IsKept};
ghost use Rattle.salvage.specs.Replay.{IsReplayed};

use crate::log_part::{LogPart, part_before};
use action_log::{held_log, segments_read_once};
use recovery::Recovered;
use world_ticks::Words;

/// Replays what was kept of a segment on a world, if the segment begins at that world's tick. It
/// cuts off the group of the first refused action, with all groups after it. It takes no memory.
pub fn replayed_part(world: Recovered, bytes: &[u8], formed: LogPart) -> LogPart
    requires world { IsWorld world.words.items }
    requires kept { IsKept bytes.now formed }
    ensures part { IsReplayed world.tick world.words.items bytes.now formed result }
    ensures kept { IsKept bytes.now result }
{
    segments_read_once();
    let Ok(Some(log)) = held_log(formed.kept(bytes)) else {
        return formed;
    };
    if log.base != world.tick {
        return formed;
    }
    match log.replay(&mut Words::new(world.words)) {
        Ok(_) => formed,
        Err(leading) => part_before(log.base, leading),
    }
}
