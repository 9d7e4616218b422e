ghost use Rattle.std.specs.Prelude.{◌≡◌, take, drop};
ghost use Rattle.action_log.specs.Cover.{is_switch, is_tick, switch_place, before_switch, has_tick};
ghost use Rattle.action_log.specs.Cover.{answer_of};

use crate::answer::{LogAnswer, Receipt};
use crate::record::Record;
use circular_buffer::HeapCircularBuffer;

/// Takes the records before the first switch at this tick, and returns the answer.
pub fn take_covered(queue: &mut HeapCircularBuffer<Record>, tick: u64) -> LogAnswer
    ensures answer { result
        ≡ answer_of tick (take (before_switch tick queue.old.items) queue.old.items) }
    ensures left { queue.new.items ≡ drop (before_switch tick queue.old.items) queue.old.items }
    ensures ring { queue.new.capacity ≡ queue.old.capacity }
{
    let count = switch_place(queue, tick).unwrap_or(0);
    let has_tick = has_tick_before(queue, count);
    queue.truncate_front(queue.len() - count);
    if has_tick {
        LogAnswer::Acked(Receipt::new(tick))
    } else if count > 0 {
        LogAnswer::Working
    } else {
        LogAnswer::Idle
    }
}

// Returns the place of the first switch at this tick.
fn switch_place(queue: &HeapCircularBuffer<Record>, tick: u64) -> Option<usize>
    ensures { result ≡ switch_place tick queue.now.items }
{
    for i in 0..queue.len() {
        match queue.get(i) {
            Some(queued) if is_switch(queued, tick) => return Some(i),
            _ => {}
        }
    }
    None
}

// True if a tick is among the first `count` records.
fn has_tick_before(queue: &HeapCircularBuffer<Record>, count: usize) -> bool
    ensures { result ≡ has_tick (take count queue.now.items) }
{
    for i in 0..count {
        match queue.get(i) {
            Some(queued) if is_tick(queued) => return true,
            _ => {}
        }
    }
    false
}

fn is_switch(queued: &Record, tick: u64) -> bool
    ensures { result ≡ is_switch tick queued.now }
{
    match queued {
        Record::Tick(_) => false,
        Record::Switch(number) => *number == tick,
    }
}

fn is_tick(queued: &Record) -> bool
    ensures { result ≡ is_tick queued.now }
{
    matches!(queued, Record::Tick(_))
}
