//! A step of the log.
ghost use Rattle.std.specs.Prelude.{◌≡◌, ◌≢◌, ◌↔◌, ◌<◌, true, false, IsTrue};
ghost use Rattle.disk_model.specs.Disk.{OneCalledAtMostOnce};
ghost use Rattle.action_log.specs.declared.answer.LogAnswer.TheVariants.{Idle, Down};
ghost use Rattle.action_log.specs.Cover.{uncovered, cover_answer};
ghost use Rattle.action_log.specs.Files.{FitsFiles};
ghost use Rattle.action_log.specs.Logs.{Logs};
ghost use Rattle.action_log.specs.Progress.{QueueFollows, end_of, work_of};
ghost use Rattle.workers.specs.Covering.{Advances};
ghost use Rattle.workers.specs.Logging.{LogStands, LogReportsFaults, receipt_in, receipt_of};

use super::Log;
use action_log::{LogAnswer, Record, log_outcomes};
use circular_buffer::HeapCircularBuffer;
use disk_model::Disk;

/// Takes the records from the queue that the open image of this tick has. If it has none of them,
/// the keeper makes its next step.
pub(crate) fn advance<D: Disk + Drop>(
    log: &mut Log<D>,
    queue: &mut HeapCircularBuffer<Record>,
    tick: u64,
) -> LogAnswer
    requires fits { IsTrue D.honest
        → FitsFiles log.old.keeper (D.content log.old.a) (D.content log.old.b) }
    requires follows { QueueFollows log.old.keeper queue.old.items }
    ensures covers { cover_answer log.old.keeper tick queue.old.items ≢ Idle → (log.new ≡ log.old)
        × (result ≡ cover_answer log.old.keeper tick queue.old.items)
        × (queue.new.items ≡ uncovered log.old.keeper tick queue.old.items) }
    ensures advances { IsTrue D.honest → (logs : Logs)
        → LogStands D.Disk log.old logs
        → (next : Logs) × LogStands D.Disk log.new next
        × Advances tick logs queue.old.items result next queue.new.items }
    ensures started { log.old.keeper.starting ≡ false → log.new.keeper.starting ≡ false }
    ensures fits { IsTrue D.honest
        → FitsFiles log.new.keeper (D.content log.new.a) (D.content log.new.b) }
    ensures follows { QueueFollows log.new.keeper queue.new.items }
    ensures end { end_of log.new.keeper queue.new.items ≡ end_of log.old.keeper queue.old.items }
    ensures ring { queue.new.capacity ≡ queue.old.capacity }
    ensures receipt { result ≢ Down
        → receipt_in result ≡ receipt_of log.old.keeper tick queue.old.items log.new.keeper }
    ensures down { (result ≡ Down) ↔ (log.new.keeper.down ≡ true) }
    ensures faults { LogReportsFaults D.faults log.old log.new }
    ensures calls { OneCalledAtMostOnce D.called log.old.a log.new.a log.old.b log.new.b }
    ensures lowers { log.new.keeper.down ≡ false → 0 < work_of log.old.keeper queue.old.items
        → work_of log.new.keeper queue.new.items < work_of log.old.keeper queue.old.items }
{
    log_outcomes::<D>();
    match log.keeper.cover(queue, tick) {
        LogAnswer::Idle => log.keeper.step(queue, &mut log.a, &mut log.b),
        covered => covered,
    }
}
