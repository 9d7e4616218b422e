//! Workers that are held for good, each after a given number of its steps.
ghost use Rattle.std.specs.Prelude.{IsTrue, IfOk};
ghost use Rattle.worker_steps.specs.Stopped.{StaysSound};
ghost use Rattle.worker_steps.specs.Begun.{IsWhole};

use crate::meeting::meet_stopped;
use crate::threads::{NotBegun, StoppedWorkers, no_memory, start, stop};
use crate::watch::Watch;
use disk_model::Disk;
use shared_capture::Method;
use std::alloc::Global;
use std::sync::Wait;
use std::thread::Threads;
use worker_steps::{Gates, Opened};
use workers::{AskChannel, Cut, Spins};

/// Starts the workers of a world, gives `play` the channel of their batches, and waits until the
/// workers have ended. They end once the channel and its sessions are gone. Each worker makes as
/// many steps as its cut says, and none after them. Wherever the three workers are held, the
/// files are sound for the ticks that were there and those that were pushed, on disks that keep
/// to the disk model.
pub fn stop_after<
    R: Threads + Wait + Copy + Send + 'static,
    M: Method + Send + 'static,
    D: Disk + Drop + Send + 'static,
    W: Watch<D> + Clone + Send + 'static,
    F: FnOnce(AskChannel),
>(
    rt: &R,
    alloc: Global,
    cuts: Gates<Cut, Cut, Cut>,
    watch: W,
    opened: Opened<M, D>,
    every: u32,
    play: F,
) -> Result<StoppedWorkers<M, D, Cut, Cut, Cut>, NotBegun<D>>
    requires whole { IsWhole D.Disk opened }
    requires plays { F.IsAlwaysCallable play }
    ensures sound { IsTrue D.honest → IfOk result (λ stopped.
        StaysSound D.Disk opened stopped.mutator stopped.checkpointer stopped.log_writer) }
{
    let Ok(spins) = Spins::on_this_machine(rt, alloc) else {
        return Err(no_memory(opened));
    };
    let (workers, sessions) = start(rt, alloc, cuts, watch, opened, every, &spins)?;
    play(sessions);
    let mut stopped = stop(rt, workers);
    meet_stopped(&mut stopped);
    Ok(stopped)
}
