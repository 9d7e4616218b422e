//! A step of one worker, whatever state it is in.
ghost use Rattle.workers.specs.declared.gate.Place.TheVariants.{Tick};
ghost use Rattle.workers.specs.Gates.{MayGo, MayStick};
ghost use Rattle.workers.specs.Imaging.{KeepsBack};
ghost use Rattle.workers.specs.Mutating.{Pays, StopsPlay};
ghost use Rattle.worker_steps.specs.Kept.{KeepsFront, KeepsLog};
ghost use Rattle.worker_steps.specs.Running.{MayPlay, MayOpen, MayPop, LogGoes, ImageGoes};

use disk_model::Disk;
use shared_capture::Method;
use std::sync::Wait;
use workers::{Checkpointer, Gate, LogWriter, Mutator};

/// Runs the next batch, if there is one, and owes its tick.
pub fn owe_next_tick<R: Wait, M: Method, G: Gate + Drop>(rt: &R, mutator: &mut Mutator<M, G>)
    ensures keeps { KeepsFront mutator.old mutator.new }
    ensures made { MayPlay (MayGo G.answers Tick) (MayStick G.answers Tick)
        mutator.old mutator.new }
{
    let _ = mutator.owe_next_tick(rt);
}

/// Opens a round, if one is due, and owes its switch.
pub fn owe_due_switch<M: Method, G: Gate + Drop>(mutator: &mut Mutator<M, G>)
    ensures keeps { KeepsFront mutator.old mutator.new }
    ensures made { MayOpen mutator.old mutator.new }
{
    mutator.owe_due_switch();
}

/// Pushes the owed item.
pub fn pay<R: Wait, M: Method, G: Gate + Drop>(rt: &R, mutator: &mut Mutator<M, G>)
    ensures keeps { KeepsFront mutator.old mutator.new }
    ensures made { Pays mutator.old mutator.new }
{
    mutator.pay(rt);
}

/// Reports that no more comes.
pub fn stop<R: Wait, M: Method, G: Gate + Drop>(rt: &R, mutator: &mut Mutator<M, G>)
    ensures keeps { KeepsFront mutator.old mutator.new }
    ensures made { StopsPlay mutator.old mutator.new }
{
    mutator.stop(rt);
}

/// Pops an item, unless the last one was popped.
pub fn pop<R: Wait, D: Disk + Drop, G: Gate + Drop>(rt: &R, log_writer: &mut LogWriter<D, G>)
    ensures keeps { KeepsLog log_writer.old log_writer.new }
    ensures made { MayPop log_writer.old log_writer.new }
{
    if !log_writer.is_over() {
        log_writer.pop(rt);
    }
}

/// Makes a step of the log, or refuses the answers that can't be posted.
pub fn write_log<R: Wait, D: Disk + Drop, G: Gate + Drop>(rt: &R, log_writer: &mut LogWriter<D, G>)
    ensures keeps { KeepsLog log_writer.old log_writer.new }
    ensures made { LogGoes G.answers D.Disk log_writer.old log_writer.new }
{
    if log_writer.is_down() {
        return;
    }
    if log_writer.has_work() {
        log_writer.step(rt);
    } else {
        log_writer.settle(rt);
    }
}

/// Looks for a round and begins its image, or makes a step of the round in work.
pub fn write_image<R: Wait, M: Method, D: Disk + Drop, G: Gate + Drop>(
    rt: &R,
    checkpointer: &mut Checkpointer<M, D, G>,
)
    ensures keeps { KeepsBack checkpointer.old checkpointer.new }
    ensures made { ImageGoes G.answers D.Disk checkpointer.old checkpointer.new }
{
    if checkpointer.is_over() {
        return;
    }
    if !checkpointer.images().keeper.has_open_round() {
        checkpointer.begin();
    } else if checkpointer.images().keeper.left() > 0 {
        checkpointer.step(rt);
    }
}
