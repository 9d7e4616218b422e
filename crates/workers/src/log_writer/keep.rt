//! The handling of a popped item.
ghost use Rattle.std.specs.Prelude.{◌≡◌, ◌+◌, ◌<◌, ◌≤◌, ◌++◌, [], length};
ghost use Rattle.world_ticks.specs.declared.tick.TheConstants.{TICK_MAX};
ghost use Rattle.action_log.specs.Progress.{QueueFollows, end_of};
ghost use Rattle.workers.specs.Items.{Goes, end_after, record_of};
ghost use Rattle.workers.specs.Answering.{AreNext, answers_of};
ghost use Rattle.workers.specs.Logging.{is_stop};

use super::answers::Answers;
use crate::item::{Ended, Item};
use action_log::{LogKeeper, Record, log_queues};
use circular_buffer::HeapCircularBuffer;
use std::sync::Wait;

/// Queues the record of an item, and lets its answer wait. Returns true if the item
/// was the last one.
pub(crate) fn keep(
    keeper: &LogKeeper,
    ring: &mut HeapCircularBuffer<Record>,
    answers: &mut Answers,
    item: Item,
) -> bool
    requires follows { QueueFollows keeper.now ring.old.items }
    requires goes { Goes (end_of keeper.now ring.old.items) item }
    requires next { answers.old.answered + length answers.old.waiting
        ≡ (end_of keeper.now ring.old.items).base + (end_of keeper.now ring.old.items).count }
    requires most { (end_of keeper.now ring.old.items).base
        + (end_of keeper.now ring.old.items).count ≤ TICK_MAX }
    requires ring { length ring.old.items < ring.old.capacity }
    requires room { length answers.old.waiting < answers.old.room }
    ensures follows { QueueFollows keeper.now ring.new.items }
    ensures end { end_of keeper.now ring.new.items
        ≡ end_after (end_of keeper.now ring.old.items) item }
    ensures records { ring.new ≡ record ring.old { items = ring.old.items ++ record_of item } }
    ensures answers { answers.new
        ≡ record answers.old { waiting = answers.old.waiting ++ answers_of item } }
    ensures last { result ≡ is_stop item }
{
    log_queues();
    match item {
        Item::Start(_) => unreachable!(),
        Item::Tick(ended) => {
            let Ended { tick, answer } = ended;
            let _ = ring.try_push_back(Record::Tick(tick));
            answers.push(answer);
            false
        }
        Item::Switch(number) => {
            let _ = ring.try_push_back(Record::Switch(number));
            false
        }
        Item::Stop => true,
    }
}

/// Loses the answer of an item: the log is down. Returns true if the item was the last one.
pub(crate) fn lose<R: Wait>(rt: &R, answers: &mut Answers, item: Item) -> bool
    requires none { answers.old.waiting ≡ [] }
    requires next { AreNext answers.old.answered (answers_of item) }
    ensures answers { answers.new
        ≡ record answers.old { answered = answers.old.answered + length (answers_of item) } }
    ensures last { result ≡ is_stop item }
{
    match item {
        Item::Start(_) | Item::Switch(_) => false,
        Item::Tick(ended) => {
            answers.lose(rt, ended.answer);
            false
        }
        Item::Stop => true,
    }
}
