//! The work of each worker in its thread until it ends.
ghost use Rattle.std.specs.Prelude.{◌≡◌, false};
ghost use Rattle.worker_threads.specs.Kept.{StopsFront, MayTake, StopsBack, MayWrite, StopsLog};

use crate::watch::{Acked, TickWatch, Watch};
use crate::work::Work;
use disk_model::Disk;
use shared_capture::Method;
use std::sync::Wait;
use workers::{Checkpointer, Gate, LogWriter, Mutator};

#[tactic(auto, using(crate::proofs::Keeping::begins))]
// Runs the batches of the sessions until the last one is gone. Then the other workers learn
// that no more comes.
fn play_batches<R: Wait, M: Method, G: Gate + Drop, W: TickWatch>(
    rt: &R,
    watch: &mut W,
    mut mutator: Mutator<M, G>,
) -> Mutator<M, G>
    ensures { StopsFront mutator result }
{
    for _ in rt.forever() {
        if mutator.turn(rt).is_none() {
            mutator.stop(rt);
            return mutator;
        }
        watch.ticks_ended(mutator.ended(), mutator.since());
    }
    unreachable!()
}

// Writes the images of the rounds until no more is opened.
fn write_images<R: Wait, M: Method, D: Disk + Drop, G: Gate + Drop, W: Watch<D>>(
    rt: &R,
    watch: &mut W,
    mut checkpointer: Checkpointer<M, D, G>,
) -> Checkpointer<M, D, G>
    requires { MayTake checkpointer }
    ensures { StopsBack checkpointer result }
{
    for _ in rt.forever() {
        if checkpointer.is_over() {
            break;
        }
        if let Some(tick) = checkpointer.turn(rt) {
            watch.image_opened(tick);
        }
    }
    if checkpointer.is_down() {
        watch.images_down(checkpointer.images());
    }
    checkpointer
}

// Writes the log until no more is pushed.
fn write_log<R: Wait, D: Disk + Drop, G: Gate + Drop, W: Watch<D>>(
    rt: &R,
    watch: &mut W,
    mut log_writer: LogWriter<D, G>,
) -> LogWriter<D, G>
    requires { MayWrite log_writer }
    ensures { StopsLog log_writer result }
{
    for _ in rt.forever() {
        if log_writer.is_over() {
            break;
        }
        let was_down = log_writer.is_down();
        log_writer.turn(rt);
        watch.ticks_acked(Acked::of(&log_writer));
        if log_writer.is_down() && !was_down {
            watch.log_down(log_writer.acked(), log_writer.log());
        }
    }
    log_writer
}

impl<M: Method, G: Gate + Drop, W: TickWatch + Drop> Work<W> for Mutator<M, G> {
    ghost use Rattle.std.specs.Prelude.{⊤};
    ghost use Rattle.worker_threads.specs.Kept.{StopsFront};

    ghost ready = { λ mutator. ⊤ };

    ghost ended = { StopsFront };

    fn work<R: Wait>(self, rt: &R, mut watch: W) -> Self {
        play_batches(rt, &mut watch, self)
    }
}

impl<M: Method, D: Disk + Drop, G: Gate + Drop, W: Watch<D> + Drop> Work<W>
    for Checkpointer<M, D, G> {
    ghost use Rattle.worker_threads.specs.Kept.{MayTake, StopsBack};

    ghost ready = { MayTake };

    ghost ended = { StopsBack };

    fn work<R: Wait>(self, rt: &R, mut watch: W) -> Self {
        write_images(rt, &mut watch, self)
    }
}

impl<D: Disk + Drop, G: Gate + Drop, W: Watch<D> + Drop> Work<W> for LogWriter<D, G> {
    ghost use Rattle.worker_threads.specs.Kept.{MayWrite, StopsLog};

    ghost ready = { MayWrite };

    ghost ended = { StopsLog };

    fn work<R: Wait>(self, rt: &R, mut watch: W) -> Self {
        write_log(rt, &mut watch, self)
    }
}
