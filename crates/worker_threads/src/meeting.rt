ghost use Rattle.std.specs.Prelude.{◌≡◌, true, IsTrue};
ghost use Rattle.disk_model.specs.FourFiles.{EachFile, StaysFilled};
ghost use Rattle.shared_capture.specs.States.{MetBack};
ghost use Rattle.workers.specs.Meeting.{HeardOnlyOfDown};
ghost use Rattle.worker_steps.specs.Stopped.{AreSound, HasPlayed};
ghost use Rattle.worker_threads.specs.Opening.{files_of};

use crate::threads::StoppedWorkers;
use disk_model::Disk;
use shared_capture::Method;
use worker_steps::stops_are_sound;
use workers::{Gate, meet_workers};

/// Brings the ends of a world's workers together. Then, on disks that keep to the disk model, the
/// four files are sound for the ticks with which the workers began and those that they played. No
/// acknowledged tick can be lost. No crash empties a file that had a byte when they began. Each
/// tick is a batch that was asked for, each session's in its order, and has its answer.
pub fn meet_stopped<M: Method, D: Disk + Drop, A: Gate + Drop, B: Gate + Drop, C: Gate + Drop>(
    stopped: &mut StoppedWorkers<M, D, A, B, C>,
)
    ensures sound { IsTrue D.honest
        → AreSound D.Disk stopped.new.mutator stopped.new.checkpointer stopped.new.log_writer }
    ensures filled { IsTrue D.honest
        → EachFile (files_of stopped.new.checkpointer.opening stopped.new.log_writer.opening)
        (files_of stopped.new.checkpointer.images stopped.new.log_writer.log)
        (StaysFilled D.Disk) }
    ensures played { HasPlayed stopped.new.mutator }
    ensures mutator { stopped.new.mutator ≡ record stopped.old.mutator {
      front = record stopped.old.mutator.front { closed = stopped.new.mutator.front.closed };
    } }
    ensures checkpointer { stopped.new.checkpointer
        ≡ record stopped.old.checkpointer { back = stopped.new.checkpointer.back; over = true } }
    ensures back { MetBack stopped.old.checkpointer.back stopped.new.checkpointer.back }
    ensures log_writer { stopped.new.log_writer ≡ stopped.old.log_writer }
    ensures heard { HeardOnlyOfDown stopped.new.mutator.heard.numbers stopped.new.log_writer.down }
{
    stops_are_sound::<D>();
    meet_workers(
        &mut stopped.mutator,
        &mut stopped.checkpointer,
        &mut stopped.log_writer,
    );
}
