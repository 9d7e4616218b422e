//! The workers once no thread has them any more.
ghost use Rattle.std.specs.Prelude.{◌≡◌};
ghost use Rattle.shared_capture.specs.States.{MetBack};
ghost use Rattle.workers.specs.Channel.{AreOneChannel};
ghost use Rattle.workers.specs.Mutating.{IsMutator};
ghost use Rattle.workers.specs.Imaging.{IsCheckpointer};
ghost use Rattle.workers.specs.Logging.{IsLogging};
ghost use Rattle.workers.specs.Meeting.{HaveMet};

use crate::checkpointer::Checkpointer;
use crate::gate::Gate;
use crate::item_channel::compare;
use crate::log_writer::LogWriter;
use crate::mutator::Mutator;
use disk_model::Disk;
use shared_capture::{Method, meet, meet_signal};

/// Lets the ends of a world's workers meet: their seats, their channel and their two words. It also
/// states the invariant of each worker, for callers that see a worker only as a value.
pub fn meet_workers<M: Method, D: Disk + Drop, A: Gate + Drop, B: Gate + Drop, C: Gate + Drop>(
    mutator: &mut Mutator<M, A>,
    checkpointer: &mut Checkpointer<M, D, B>,
    log_writer: &mut LogWriter<D, C>,
)
    requires pair { mutator.old.front.pair ≡ checkpointer.old.back.pair }
    requires channel { AreOneChannel log_writer.old.from.end mutator.old.to.end }
    requires word { log_writer.old.covers.pair ≡ checkpointer.old.covers.pair }
    requires flag { mutator.old.heard.pair ≡ log_writer.old.reported_down.pair }
    ensures met { HaveMet mutator.new checkpointer.new log_writer.new }
    ensures mutator { mutator.new ≡ record mutator.old {
      front = record mutator.old.front { closed = mutator.new.front.closed };
    } }
    ensures checkpointer { checkpointer.new
        ≡ record checkpointer.old { back = checkpointer.new.back } }
    ensures back { MetBack checkpointer.old.back checkpointer.new.back }
    ensures log_writer { log_writer.new ≡ log_writer.old }
    ensures is_mutator { IsMutator mutator.new }
    ensures is_checkpointer { IsCheckpointer D.Disk checkpointer.new }
    ensures is_log_writer { IsLogging D.Disk log_writer.new }
{
    meet(&mut mutator.front, &mut checkpointer.back);
    compare(&mut mutator.to, &mut log_writer.from);
    checkpointer.covers.meet(&mut log_writer.covers);
    meet_signal(&mut log_writer.reported_down, &mut mutator.heard);
}
