//! The start and the stop of a world's workers, and their ends.
ghost use Rattle.std.specs.Prelude.{◌≡◌, true, IfOk, IfErr, IfSome};
ghost use Rattle.std.specs.Thread.{IsSend};
ghost use Rattle.workers.specs.AskChannel.{AreOneAskChannel};
ghost use Rattle.workers.specs.Channel.{AreOneChannel};
ghost use Rattle.worker_steps.specs.Stopped.{acknowledged_by};
ghost use Rattle.worker_steps.specs.Begun.{IsWhole, IsBegun, workers_of};
ghost use Rattle.worker_threads.specs.Kept.{MayTake, MayWrite, StopsFront, StopsBack, StopsLog};
ghost use Rattle.worker_threads.specs.Opening.{GivesBack, files_of};

use crate::promises::{SameCheckpointer, SameLogWriter, SameMutator};
use crate::watch::{TickWatch, Watch};
use crate::work::spawn;
use crate::world_opening::into_files;
use action_log::Record;
use circular_buffer::HeapCircularBuffer;
use disk_model::{Disk, FourFiles};
use shared_capture::{Back, Front, Method, SignalIn, SignalOut};
use std::alloc::{AllocError, Global};
use std::marker::Model;
use std::snapshot::Snapshot;
use std::sync::Wait;
use std::thread::{PromisedHandle, Threads};
use worker_steps::{Gates, Opened, Together};
use workers::{
    AskChannel, AskReceiver, Checkpointer, Gate, ItemReceiver, ItemSender, LogWriter, Mutator,
    Spins, Waiting,
};
use world_ticks::Tick;

/// The reasons why workers can't be started.
#[derive(Clone, Copy, Debug, PartialEq, Eq)]
pub enum NotStarted {
    NoMemory,
    /// The system gives no more threads.
    NoThread,
}

impl From<AllocError> for NotStarted {
    ghost use Rattle.std.specs.Prelude.{◌≡◌};
    ghost use Rattle.worker_threads.specs.declared.threads.NotStarted.TheVariants.{NoMemory};

    ghost from_gives = { λ _ reason. reason ≡ NoMemory };

    fn from(_: AllocError) -> Self {
        NotStarted::NoMemory
    }
}

/// Why the workers of a world aren't started. Its files are given back if no worker ran.
#[derive(Drop)]
pub struct NotBegun<D: Disk + Drop> {
    pub why: NotStarted,
    pub files: Option<FourFiles<D>>,
}

/// The workers of a world, each in its thread. Contracts see them as they began. If this is
/// dropped, they run on.
#[derive(Drop)]
pub struct Workers<M: Method, D: Disk + Drop, A: Gate + Drop, B: Gate + Drop, C: Gate + Drop> {
    mutator: PromisedHandle<Mutator<M, A>, SameMutator<M, A>>,
    checkpointer: PromisedHandle<Checkpointer<M, D, B>, SameCheckpointer<M, D, B>>,
    log_writer: PromisedHandle<LogWriter<D, C>, SameLogWriter<D, C>>,
}

impl<M: Method, D: Disk + Drop, A: Gate + Drop, B: Gate + Drop, C: Gate + Drop> Model
    for Workers<M, D, A, B, C> {
    ghost use Rattle.worker_steps.specs.Begun.{Started, workers_of, AreTogether};

    ghost Value = { Started D };

    ghost view = { λ w. workers_of w.mutator.promise.0.value w.checkpointer.promise.0.value
        w.log_writer.promise.0.value };

    ghost invariant = { λ w. AreTogether (workers_of w.mutator.promise.0.value
        w.checkpointer.promise.0.value w.log_writer.promise.0.value) };
}

/// The workers of a world once they have ended.
#[derive(Drop)]
pub struct StoppedWorkers<
    M: Method,
    D: Disk + Drop,
    A: Gate + Drop,
    B: Gate + Drop,
    C: Gate + Drop,
> {
    pub mutator: Mutator<M, A>,
    pub checkpointer: Checkpointer<M, D, B>,
    pub log_writer: LogWriter<D, C>,
    ghost pair: { mutator.front.pair ≡ checkpointer.back.pair },
    ghost channel: { AreOneChannel log_writer.from.end mutator.to.end },
    ghost word: { log_writer.covers.pair ≡ checkpointer.covers.pair },
    ghost flag: { mutator.heard.pair ≡ log_writer.reported_down.pair },
    ghost over: { checkpointer.over ≡ true },
}

impl<M: Method, D: Disk + Drop, A: Gate + Drop, B: Gate + Drop, C: Gate + Drop> StoppedWorkers<
    M,
    D,
    A,
    B,
    C,
> {
    /// The greatest tick that is acknowledged: by a receipt of the log, or by an image
    /// that was opened.
    pub fn acked(&self) -> u64
        ensures { result ≡ acknowledged_by self.now.checkpointer self.now.log_writer }
    {
        let logged = self.log_writer.acked();
        match self.checkpointer.images().keeper.newest() {
            Some((_, tick)) if tick > logged => tick,
            _ => logged,
        }
    }
}

/// Starts the workers of a world. A round is due after every `every` ticks. The batches that the
/// sessions of the returned channel send are run. The workers spin for work like this. The log
/// writer gets the watch itself, the others get clones. If the start is refused, no thread is left
/// running.
pub fn start<
    R: Threads + Wait + Copy + Send + 'static,
    M: Method + Send + 'static,
    D: Disk + Drop + Send + 'static,
    A: Gate + Drop + Send + 'static,
    B: Gate + Drop + Send + 'static,
    C: Gate + Drop + Send + 'static,
    W: Watch<D> + Clone + Send + 'static,
>(
    rt: &R,
    alloc: Global,
    gates: Gates<A, B, C>,
    watch: W,
    opened: Opened<M, D>,
    every: u32,
    spins: &Spins,
) -> Result<(Workers<M, D, A, B, C>, AskChannel), NotBegun<D>>
    requires { IsWhole D.Disk opened }
    ensures begun { IfOk result (λ made. IsBegun opened every made.0) }
    ensures asks { IfOk result (λ made. AreOneAskChannel made.0.mutator.asks.end made.1.end) }
    ensures sessions { IfOk result (λ made. made.1.next ≡ 0) }
    ensures refused { IfErr result (GivesBack (files_of opened.images opened.log)) }
{
    let Ok((sessions, mut asks)) = AskChannel::open(alloc) else {
        return Err(no_memory(opened));
    };
    let Ok(copies) = copies(&watch, spins) else {
        return Err(no_memory(opened));
    };
    let (watch_too, last_watch, spins, spins_too) = copies;
    asks.spin_by(spins);
    match Together::begin(rt, alloc, gates, opened, asks, every) {
        Ok(begun) => {
            let mut begun = begun;
            begun.log_writer.spin_by(spins_too);
            start_threads(rt, (watch_too, last_watch, watch), begun, sessions)
        }
        Err(opened) => Err(no_memory(opened)),
    }
}

// Copies for the workers: of the watch, and of the count of spins.
fn copies<W: Clone>(watch: &W, spins: &Spins) -> Result<(W, W, Spins, Spins), AllocError> {
    let (watch_too, last_watch) = (watch.clone()?, watch.clone()?);
    Ok((watch_too, last_watch, spins.clone()?, spins.clone()?))
}

/// The refusal of a start for which there is no memory.
pub fn no_memory<M: Method, D: Disk + Drop>(opened: Opened<M, D>) -> NotBegun<D>
    ensures { GivesBack (files_of opened.images opened.log) result }
{
    let why = NotStarted::NoMemory;
    let files = Some(into_files(opened.images, opened.log));
    NotBegun { why, files }
}

// Starts the threads, that of the mutator first, which has no file. If one can't be made, the
// others end: the mutator once no session can send a batch, and then the log writer.
fn start_threads<
    R: Threads + Wait + Copy + Send + 'static,
    M: Method + Send + 'static,
    D: Disk + Drop + Send + 'static,
    A: Gate + Drop + Send + 'static,
    B: Gate + Drop + Send + 'static,
    C: Gate + Drop + Send + 'static,
    W: Watch<D> + Clone + Send + 'static,
>(
    rt: &R,
    watches: (W, W, W),
    begun: Together<M, D, A, B, C>,
    sessions: AskChannel,
) -> Result<(Workers<M, D, A, B, C>, AskChannel), NotBegun<D>>
    requires takes { MayTake begun.checkpointer }
    requires writes { MayWrite begun.log_writer }
    ensures workers { IfOk result (λ made.
        made.0 ≡ workers_of begun.mutator begun.checkpointer begun.log_writer) }
    ensures sessions { IfOk result (λ made. made.1 ≡ sessions) }
    ensures refused { IfErr result
        (GivesBack (files_of begun.checkpointer.images begun.log_writer.log)) }
{
    let why = NotStarted::NoThread;
    let Some(mutator) = start_mutator(rt, watches.0, begun.mutator) else {
        let images = begun.checkpointer.into_images();
        let files = Some(into_files(images, begun.log_writer.into_log()));
        return Err(NotBegun { why, files });
    };
    let log_writer = start_log_writer(rt, watches.2, begun.log_writer);
    let checkpointer = start_checkpointer(rt, watches.1, begun.checkpointer);
    match (log_writer, checkpointer) {
        (Some(log_writer), Some(checkpointer)) => {
            let workers = Workers {
                mutator,
                checkpointer,
                log_writer,
            };
            Ok((workers, sessions))
        }
        (log_writer, checkpointer) => {
            drop(sessions);
            mutator.join(rt);
            if let Some(log_writer) = log_writer {
                log_writer.join(rt);
            }
            if let Some(checkpointer) = checkpointer {
                checkpointer.join(rt);
            }
            Err(NotBegun { why, files: None })
        }
    }
}

// Shows that values of this type may cross threads.
fn crosses<T: Send>()
    ensures { IsSend T.row }
{}

fn start_mutator<
    R: Threads + Wait + Copy + Send + 'static,
    M: Method + Send + 'static,
    G: Gate + Drop + Send + 'static,
    W: TickWatch + Drop + Send + 'static,
>(
    rt: &R,
    watch: W,
    mutator: Mutator<M, G>,
) -> Option<PromisedHandle<Mutator<M, G>, SameMutator<M, G>>>
    ensures { IfSome result (λ handle. handle.promise.0.value ≡ mutator) }
{
    crosses::<AskReceiver>();
    crosses::<Front<M>>();
    crosses::<ItemSender>();
    crosses::<SignalIn>();
    crosses::<Tick>();
    crosses::<Waiting>();
    let same = SameMutator(Snapshot::of(&mutator));
    spawn(rt, same, watch, mutator)
}

fn start_checkpointer<
    R: Threads + Wait + Copy + Send + 'static,
    M: Method + Send + 'static,
    D: Disk + Drop + Send + 'static,
    G: Gate + Drop + Send + 'static,
    W: Watch<D> + Clone + Send + 'static,
>(
    rt: &R,
    watch: W,
    checkpointer: Checkpointer<M, D, G>,
) -> Option<PromisedHandle<Checkpointer<M, D, G>, SameCheckpointer<M, D, G>>>
    requires { MayTake checkpointer }
    ensures { IfSome result (λ handle. handle.promise.0.value ≡ checkpointer) }
{
    crosses::<Back<M>>();
    crosses::<SignalOut>();
    let same = SameCheckpointer(Snapshot::of(&checkpointer));
    spawn(rt, same, watch, checkpointer)
}

fn start_log_writer<
    R: Threads + Wait + Copy + Send + 'static,
    D: Disk + Drop + Send + 'static,
    G: Gate + Drop + Send + 'static,
    W: Watch<D> + Clone + Send + 'static,
>(
    rt: &R,
    watch: W,
    log_writer: LogWriter<D, G>,
) -> Option<PromisedHandle<LogWriter<D, G>, SameLogWriter<D, G>>>
    requires { MayWrite log_writer }
    ensures { IfSome result (λ handle. handle.promise.0.value ≡ log_writer) }
{
    crosses::<ItemReceiver>();
    crosses::<SignalIn>();
    crosses::<HeapCircularBuffer<Record>>();
    crosses::<HeapCircularBuffer<Waiting>>();
    crosses::<SignalOut>();
    let same = SameLogWriter(Snapshot::of(&log_writer));
    spawn(rt, same, watch, log_writer)
}

/// Waits until the workers have ended, which they do once no session can send a batch any more.
pub fn stop<R: Threads, M: Method, D: Disk + Drop, A: Gate + Drop, B: Gate + Drop, C: Gate + Drop>(
    rt: &R,
    workers: Workers<M, D, A, B, C>,
) -> StoppedWorkers<M, D, A, B, C>
    ensures mutator { StopsFront workers.mutator result.mutator }
    ensures checkpointer { StopsBack workers.checkpointer result.checkpointer }
    ensures log_writer { StopsLog workers.log_writer result.log_writer }
{
    StoppedWorkers {
        mutator: workers.mutator.join(rt),
        checkpointer: workers.checkpointer.join(rt),
        log_writer: workers.log_writer.join(rt),
    }
}
