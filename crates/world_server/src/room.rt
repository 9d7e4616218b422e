//! The room for ticks that is left until batches are refused with 6.
ghost use Rattle.std.specs.Prelude.{◌≡◌, ◌↔◌, ◌≤◌, true, IsTrue};
ghost use Rattle.world_server.specs.Room.{room_after, quarters_of, reported_room};

use action_log::SEGMENT_TICKS;

/// How many ticks may end after a mark or a start.
const TICKS: u64 = SEGMENT_TICKS as u64;

/// A server whose images are down and that ends then has no more room than this for ticks.
const LAST_TICKS: u64 = 8_192;

/// How many quarters of the room had been used up at the last look.
#[derive(Clone, Copy, Debug, PartialEq, Eq)]
pub struct Room {
    quarters: u64,
}

impl Room {
    /// All the room that there is.
    pub fn new() -> Self
        ensures { result.quarters ≡ 0 }
    {
        Room { quarters: 0 }
    }

    /// Takes how many ticks have ended since the last mark or start. It returns the room that is
    /// left if a quarter more of it has been used up. If images are written it returns none but
    /// the last room, which is 0.
    pub fn used(&mut self, since: u64, images_down: bool) -> Option<u64>
        ensures quarters { self.new.quarters ≡ quarters_of since }
        ensures reported { result ≡ reported_room self.old.quarters since images_down }
    {
        let before = self.quarters;
        self.quarters = quarters_of(since);
        let left = room_after(since);
        if self.quarters > before && (images_down || left == 0) {
            Some(left)
        } else {
            None
        }
    }
}

/// How many ticks may still end, if `since` have ended since the last mark or start.
pub fn room_after(since: u64) -> u64
    ensures { result ≡ room_after since }
{
    TICKS.saturating_sub(since)
}

// How many quarters of the room are used up.
fn quarters_of(since: u64) -> u64
    ensures { result ≡ quarters_of since }
{
    since / (TICKS / 4)
}

/// True if a server is left for its room. It exits by that, its images are down, and little room is
/// left.
pub fn is_left_for_room(exits: bool, images_down: bool, since: u64) -> bool
    ensures { IsTrue result
        ↔ ((exits ≡ true) × (images_down ≡ true) × (room_after since ≤ 8192)) }
{
    exits && images_down && room_after(since) <= LAST_TICKS
}
