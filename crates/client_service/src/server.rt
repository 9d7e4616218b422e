ghost use Rattle.std.specs.Prelude.{◌≡◌, ◌≢◌, ◌+◌, ◌≤◌, IsTrue, IfOk, IfErr};
ghost use Rattle.disk_model.specs.FourFiles.{EachFile, StaysFilled};
ghost use Rattle.workers.specs.Meeting.{HeardOnlyOfDown};
ghost use Rattle.worker_steps.specs.Stopped.{StaysSound, HasPlayed};
ghost use Rattle.worker_steps.specs.Begun.{IsWhole};
ghost use Rattle.worker_threads.specs.Opening.{files_of};
ghost use Rattle.client_service.specs.Accepting.{LeavesFiles};

use crate::accept::{Accepted, Admission, Closed, accept_sessions};
use crate::door::Door;
use disk_model::Disk;
use shared_capture::Method;
use std::alloc::Global;
use std::sync::Wait;
use std::thread::Threads;
use std::time::Clock;
use transports::Listener;
use worker_steps::{Gates, Opened};
use worker_threads::{NotBegun, StoppedWorkers, Watch, meet_stopped, no_memory, start, stop};
use workers::{Gate, Spins};

/// The workers and the listener of a server that has stopped.
#[derive(Drop)]
pub struct Stopped<M: Method, D: Disk + Drop, A: Gate + Drop, B: Gate + Drop, C: Gate + Drop> {
    pub workers: StoppedWorkers<M, D, A, B, C>,
    pub accepted: Accepted,
}

/// Why a server doesn't run to its end.
#[derive(Drop)]
pub enum NotServed<D: Disk + Drop> {
    NotBegun(NotBegun<D>),
    /// The door said that the server is to be left: its workers and sessions may run on, up to
    /// the program's end.
    Left,
}

impl<D: Disk + Drop> From<NotBegun<D>> for NotServed<D> {
    ghost use Rattle.std.specs.Prelude.{◌≡◌};
    ghost use Rattle.client_service.specs.declared.server.NotServed.TheVariants as reason;

    ghost from_gives = { λ refused served. served ≡ reason.NotBegun refused };

    fn from(refused: NotBegun<D>) -> Self {
        NotServed::NotBegun(refused)
    }
}

/// Serves the connections of a listener by the workers of a world, and stops the workers after
/// the last one, also if the listener fails. A round is due after every `every` ticks. On disks
/// that keep to the disk model the files are then sound for all ticks that were played. Each
/// session's batches were taken in its order, none left out, and played at most once. If the
/// workers can't be started no thread is left running, and no connection is accepted. If the
/// server is left, its threads run on.
pub fn serve_clients<
    R: Threads + Wait + Clock + Copy + Send + 'static,
    M: Method + Send + 'static,
    D: Disk + Drop + Send + 'static,
    A: Gate + Drop + Send + 'static,
    B: Gate + Drop + Send + 'static,
    C: Gate + Drop + Send + 'static,
    W: Watch<D> + Door + Clone + Drop + Send + 'static,
>(
    rt: &R,
    alloc: Global,
    gates: Gates<A, B, C>,
    watch: W,
    opened: Opened<M, D>,
    every: u32,
    listener: Listener,
    admission: Admission,
) -> Result<Stopped<M, D, A, B, C>, NotServed<D>>
    requires { IsWhole D.Disk opened }
    ensures all { IfOk result (λ stopped. stopped.accepted.closed ≡ Closed.AllCame
        → stopped.accepted.connections ≡ admission.clients) }
    ensures some { IfOk result (λ stopped. stopped.accepted.connections ≤ admission.clients) }
    ensures stays { IfOk result (λ stopped. stopped.accepted.closed ≢ Closed.Left) }
    ensures joined { IfOk result (λ stopped. stopped.accepted.connections
        ≡ stopped.accepted.sessions.count + stopped.accepted.unserved) }
    ensures idle { IfOk result (λ stopped. stopped.accepted.sessions.idle ≡ admission.idle) }
    ensures began { IfOk result (λ stopped. (stopped.workers.mutator.opening ≡ opened.front.live)
        × (stopped.workers.checkpointer.opening ≡ opened.images)
        × (stopped.workers.log_writer.opening ≡ opened.log)) }
    ensures sound { IsTrue D.honest → IfOk result (λ stopped.
        StaysSound D.Disk opened stopped.workers.mutator stopped.workers.checkpointer
        stopped.workers.log_writer) }
    ensures filled { IsTrue D.honest → IfOk result (λ stopped.
        EachFile (files_of opened.images opened.log)
        (files_of stopped.workers.checkpointer.images stopped.workers.log_writer.log)
        (StaysFilled D.Disk)) }
    ensures played { IfOk result (λ stopped. HasPlayed stopped.workers.mutator) }
    ensures acked { IfOk result (λ stopped. opened.ended ≤ stopped.workers.log_writer.acked) }
    ensures every { IfOk result (λ stopped. stopped.workers.mutator.every ≡ every) }
    ensures heard { IfOk result (λ stopped.
        HeardOnlyOfDown stopped.workers.mutator.heard.numbers stopped.workers.log_writer.down) }
    ensures refused { IfErr result (LeavesFiles (files_of opened.images opened.log)) }
{
    let door: Result<_, _> = watch.clone();
    let (Ok(door), Ok(spins)) = (door, Spins::on_this_machine(rt, alloc)) else {
        return Err(NotServed::NotBegun(no_memory(opened)));
    };
    let (workers, asks) = start(rt, alloc, gates, watch, opened, every, &spins)?;
    let accepted = accept_sessions(rt, alloc, listener, admission, asks, spins, door);
    if let Closed::Left = accepted.closed {
        return Err(NotServed::Left);
    }
    let mut stopped = stop(rt, workers);
    meet_stopped(&mut stopped);
    Ok(Stopped {
        workers: stopped,
        accepted,
    })
}
