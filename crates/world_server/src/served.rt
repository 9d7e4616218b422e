//! A world that a server serves, from its four files as they were to the files as they are left.
ghost use Rattle.std.specs.Prelude.{◌≡◌, ◌≤◌, ◌++◌, ◌∷◌, [], Option, None, IsTrue, IfOk};
ghost use Rattle.std.specs.Prelude.{IfErr, IfSome, MatchResult};
ghost use Rattle.disk_model.specs.FourFiles.{EachFile, StaysFilled};
ghost use Rattle.worker_steps.specs.Begun.{IsWhole};
ghost use Rattle.worker_steps.specs.Stopped.{StaysSound, HasPlayed};
ghost use Rattle.worker_threads.specs.Opening.{files_of};
ghost use Rattle.client_service.specs.Accepting.{LeavesFiles};
ghost use Rattle.world_folder.specs.declared.lost.Finding.{Finding as Named};
ghost use Rattle.world_folder.specs.declared.lost.OnLoss.{OnLoss};
ghost use Rattle.world_folder.specs.Lost.{JudgedIn, lost_in};
ghost use Rattle.world_server.specs.Serving.{EndsServing, StopsWith};
ghost use Rattle.world_server.specs.Served.{recovered_line, finding_lines, stopped_line};
ghost use Rattle.world_server.specs.Served.{failure_lines, failure_by};
ghost use Rattle.world_server.specs.Served.{RecoversTo, KeepsWorld, StandsOpened, GoesOnSound};
ghost use Rattle.world_server.specs.Served.{LeavesWorld, FailsFor, GivesBack, EndsAsFailed};
ghost use Rattle.world_server.specs.Served.{given_files};

use crate::frontend::Frontend;
use crate::line::Line;
use crate::service::Every;
use crate::standing::{Losses, ending_of_left};
use capture_core::PlainCopy;
use client_service::{Admission, Closed, Door, NotServed, Stopped, serve_clients};
use disk_model::{Disk, FourFiles};
use shared_capture::Method;
use std::alloc::Global;
use std::sync::Wait;
use std::thread::Threads;
use std::time::Clock;
use worker_steps::{Gates, Opened};
use worker_threads::{NotStarted, Watch, into_files, start_world};
use workers::Open;
use world_actions::Refusal;
use world_folder::{
    Checked, Checks, Ending, Failure, Finding, NotRecovered, ServerEnding, WorldReport,
    recover_checked,
};

/// A world that was served, once its server has stopped.
#[derive(Drop)]
pub struct Served<M: Method, D: Disk + Drop> {
    /// The world with which it began.
    pub recovered: WorldReport,
    pub stopped: Stopped<M, D, Open, Open, Open>,
}

/// Why a world isn't served to its end.
#[derive(Drop)]
pub enum WorldFailure<D: Disk + Drop> {
    /// No world is recovered from the files.
    NotRecovered(FourFiles<D>, NotRecovered),
    /// The start of this world failed.
    NotStarted(WorldReport, FourFiles<D>, Refusal),
    /// No client can come to it, or no worker can be started.
    NotOpened(WorldReport, FourFiles<D>, Failure),
    /// There are threads for some of its workers only, or the server was left while they run on.
    NotRun(WorldReport, Ending),
}

/// Serves the world of four files. It recovers the world, names or refuses what the checks find,
/// and prints which world it is. It runs its start, lets the clients in, and stops the workers
/// after the last client. It then prints how far play came. On disks that keep to the disk model
/// the files are sound throughout. A refusal leaves them with the same world. A server leaves them
/// with all that was acknowledged. No crash empties a file that had a byte. Each session's batches
/// are taken in its order, none left out, and played at most once, each as a tick of its own.
pub fn serve_world<
    R: Threads + Wait + Clock + Copy + Send + 'static,
    M: Method + Send + 'static,
    D: Disk + Drop + Send + 'static,
    W: Watch<D> + Door + Clone + Drop + Send + 'static,
    F: Frontend<M, D, W>,
>(
    rt: &R,
    alloc: Global,
    front: &mut F,
    files: FourFiles<D>,
    every: Every,
    admission: Admission,
    checks: Checks,
) -> Result<Served<M, D>, WorldFailure<D>>
    ensures recovered { IsTrue D.honest → IfOk result (λ served.
        RecoversTo D.content files served.stopped.workers.mutator.opening served.recovered) }
    ensures whole { IsTrue D.honest → checks.lost ≡ OnLoss.Refuse → IfOk result (λ served.
        lost_in D.content checks.lost served.recovered.tick served.recovered.from files ≡ None) }
    ensures newest { checks.older ≡ OnLoss.Refuse → IfOk result (λ served.
        IfSome checks.guard (λ guard. guard.acked ≤ served.recovered.tick)) }
    ensures sound { IsTrue D.honest → IfOk result (λ served.
        GoesOnSound D.Disk files served.recovered.tick served.stopped.workers.mutator
        served.stopped.workers.checkpointer served.stopped.workers.log_writer) }
    ensures played { IfOk result (λ served. HasPlayed served.stopped.workers.mutator) }
    ensures left { IsTrue D.honest → IfErr result (LeavesWorld D.Disk files) }
    ensures reason { IfErr result (FailsFor D.Disk checks files) }
    ensures filled { IsTrue D.honest → MatchResult result
        (λ served. EachFile files (files_of served.stopped.workers.checkpointer.images
        served.stopped.workers.log_writer.log) (StaysFilled D.Disk))
        (λ failure. IfSome (given_files failure) (λ left.
        EachFile files left (StaysFilled D.Disk))) }
    ensures printed { IsTrue F.known → MatchResult result
        (λ served. F.printed front.new ≡ F.printed front.old ++ recovered_line served.recovered
        ∷ stopped_line served.stopped.workers.mutator served.stopped.workers.checkpointer
        served.stopped.workers.log_writer ∷ [])
        (λ failure. F.printed front.new ≡ F.printed front.old ++ failure_lines failure) }
    ensures judged { IsTrue F.known → IsTrue D.honest
        → IfOk result (λ served. (finding : Option Named)
        × JudgedIn D.content checks served.recovered.tick served.recovered.from files finding
        × (F.noted front.new ≡ F.noted front.old ++ finding_lines finding)) }
    ensures ends { IfErr result EndsAsFailed }
    ensures all { IfOk result (λ served. served.stopped.accepted.closed ≡ Closed.AllCame
        → served.stopped.accepted.connections ≡ admission.clients) }
    ensures idle { IfOk result (λ served.
        served.stopped.accepted.sessions.idle ≡ admission.idle) }
    ensures every { IfOk result (λ served. served.stopped.workers.mutator.every ≡ every.0) }
{
    let (recovered, opened) = open_files::<M, D, W, F>(alloc, front, files, checks)?;
    serve_opened(rt, alloc, front, recovered, opened, every, admission)
}

// Recovers the world of the files, prints which one it is, and runs its start to the end.
fn open_files<M: Method, D: Disk + Drop, W, F: Frontend<M, D, W>>(
    alloc: Global,
    front: &mut F,
    files: FourFiles<D>,
    checks: Checks,
) -> Result<(WorldReport, Opened<M, D>), WorldFailure<D>>
    ensures begins { IfOk result (λ made. IsWhole D.Disk made.1) }
    ensures tick { IfOk result (λ made. made.1.ended ≡ made.0.tick) }
    ensures recovered { IsTrue D.honest
        → IfOk result (λ made. RecoversTo D.content files made.1.front.live made.0) }
    ensures whole { IsTrue D.honest → checks.lost ≡ OnLoss.Refuse
        → IfOk result (λ made. lost_in D.content checks.lost made.0.tick made.0.from files ≡ None) }
    ensures newest { checks.older ≡ OnLoss.Refuse → IfOk result (λ made.
        IfSome checks.guard (λ guard. guard.acked ≤ made.0.tick)) }
    ensures stands { IsTrue D.honest
        → IfOk result (λ made. StandsOpened D.Disk files made.0.tick
        made.1.front.live made.1.images made.1.log) }
    ensures keeps { IsTrue D.honest → IfOk result (λ made.
        KeepsWorld D.Disk files made.0.tick (files_of made.1.images made.1.log)) }
    ensures filled { IsTrue D.honest → MatchResult result
        (λ made. EachFile files (files_of made.1.images made.1.log) (StaysFilled D.Disk))
        (λ failure. IfSome (given_files failure) (λ left.
        EachFile files left (StaysFilled D.Disk))) }
    ensures left { IsTrue D.honest → IfErr result (LeavesWorld D.Disk files) }
    ensures reason { IfErr result (FailsFor D.Disk checks files) }
    ensures printed { IsTrue F.known → MatchResult result
        (λ made. F.printed front.new ≡ F.printed front.old ++ recovered_line made.0 ∷ [])
        (λ failure. F.printed front.new ≡ F.printed front.old ++ failure_lines failure) }
    ensures judged { IsTrue F.known → IsTrue D.honest
        → IfOk result (λ made. (finding : Option Named)
        × JudgedIn D.content checks made.0.tick made.0.from files finding
        × (F.noted front.new ≡ F.noted front.old ++ finding_lines finding)) }
    ensures ends { IfErr result EndsAsFailed }
{
    match recover_checked::<PlainCopy, D>(alloc, files, checks) {
        Ok(found) => {
            let Checked { begun, finding } = found;
            let recovered = WorldReport {
                tick: begun.engine.ended(),
                from: begun.from,
            };
            announce::<M, D, W, F>(front, recovered, finding);
            match start_world::<M, PlainCopy, D>(alloc, begun) {
                Ok(opened) => Ok((recovered, opened)),
                Err((files, refusal)) => Err(WorldFailure::NotStarted(recovered, files, refusal)),
            }
        }
        Err((files, why)) => Err(WorldFailure::NotRecovered(files, why)),
    }
}

// Prints which world was recovered, and names what was found of a loss.
fn announce<M: Method, D: Disk + Drop, W, F: Frontend<M, D, W>>(
    front: &mut F,
    recovered: WorldReport,
    finding: Option<Finding>,
)
    ensures printed { IsTrue F.known
        → F.printed front.new ≡ F.printed front.old ++ recovered_line recovered ∷ [] }
    ensures noted { IsTrue F.known
        → F.noted front.new ≡ F.noted front.old ++ finding_lines finding }
{
    front.print(Line::Recovered {
        ended: recovered.tick,
        from: recovered.from,
    });
    if let Some(finding) = finding {
        front.note(Line::Found(finding));
    }
}

// Lets the clients of an open world in, and serves them until the last one has gone.
fn serve_opened<
    R: Threads + Wait + Clock + Copy + Send + 'static,
    M: Method + Send + 'static,
    D: Disk + Drop + Send + 'static,
    W: Watch<D> + Door + Clone + Drop + Send + 'static,
    F: Frontend<M, D, W>,
>(
    rt: &R,
    alloc: Global,
    front: &mut F,
    recovered: WorldReport,
    opened: Opened<M, D>,
    every: Every,
    admission: Admission,
) -> Result<Served<M, D>, WorldFailure<D>>
    requires { IsWhole D.Disk opened }
    ensures recovered { IfOk result (λ served. served.recovered ≡ recovered) }
    ensures opening { IfOk result (λ served.
        served.stopped.workers.mutator.opening ≡ opened.front.live) }
    ensures sound { IsTrue D.honest → IfOk result (λ served.
        StaysSound D.Disk opened served.stopped.workers.mutator
        served.stopped.workers.checkpointer served.stopped.workers.log_writer) }
    ensures filled { IsTrue D.honest → IfOk result (λ served.
        EachFile (files_of opened.images opened.log)
        (files_of served.stopped.workers.checkpointer.images
        served.stopped.workers.log_writer.log) (StaysFilled D.Disk)) }
    ensures played { IfOk result (λ served. HasPlayed served.stopped.workers.mutator) }
    ensures acked { IfOk result (λ served. opened.ended ≤ served.stopped.workers.log_writer.acked) }
    ensures left { IfErr result (GivesBack recovered (files_of opened.images opened.log)) }
    ensures printed { IsTrue F.known → MatchResult result
        (λ served. F.printed front.new ≡ F.printed front.old
        ++ stopped_line served.stopped.workers.mutator served.stopped.workers.checkpointer
        served.stopped.workers.log_writer ∷ [])
        (λ failure. F.printed front.new ≡ F.printed front.old) }
    ensures noted { IsTrue F.known → F.noted front.new ≡ F.noted front.old }
    ensures ends { IfErr result EndsAsFailed }
    ensures all { IfOk result (λ served. served.stopped.accepted.closed ≡ Closed.AllCame
        → served.stopped.accepted.connections ≡ admission.clients) }
    ensures idle { IfOk result (λ served.
        served.stopped.accepted.sessions.idle ≡ admission.idle) }
    ensures every { IfOk result (λ served. served.stopped.workers.mutator.every ≡ every.0) }
{
    let gates = Gates {
        mutator: Open,
        checkpointer: Open,
        log_writer: Open,
    };
    match front.open(&opened) {
        Ok((listener, watch)) => match serve_clients(
            rt, alloc, gates, watch, opened, every.0, listener, admission,
        ) {
            Ok(stopped) => {
                front.print(line_of(&stopped));
                Ok(Served { recovered, stopped })
            }
            Err(reason) => Err(not_served(recovered, reason, front.losses())),
        },
        Err(failure) => {
            let files = into_files(opened.images, opened.log);
            Err(WorldFailure::NotOpened(recovered, files, failure))
        }
    }
}

// The line of a server that has stopped.
fn line_of<M: Method, D: Disk + Drop>(stopped: &Stopped<M, D, Open, Open, Open>) -> Line
    ensures { result ≡ stopped_line stopped.now.workers.mutator stopped.now.workers.checkpointer
        stopped.now.workers.log_writer }
{
    Line::Stopped {
        ended: stopped.workers.mutator.ended(),
        acked: stopped.workers.acked(),
    }
}

// Why a world isn't served to its end, by a server of which so much is lost.
fn not_served<D: Disk + Drop>(
    recovered: WorldReport,
    reason: NotServed<D>,
    lost: Losses,
) -> WorldFailure<D>
    ensures by { result ≡ failure_by recovered lost reason }
    ensures ends { EndsAsFailed result }
    ensures left { (files : FourFiles D) → LeavesFiles files reason
        → GivesBack recovered files result }
{
    match reason {
        NotServed::NotBegun(refused) => {
            let failure = match refused.why {
                NotStarted::NoMemory => Failure::Refused(Refusal::NoMemory),
                NotStarted::NoThread => Failure::NoThread,
            };
            match refused.files {
                Some(files) => WorldFailure::NotOpened(recovered, files, failure),
                None => WorldFailure::NotRun(recovered, Ending::Failed(failure)),
            }
        }
        NotServed::Left => WorldFailure::NotRun(recovered, ending_of_left(lost)),
    }
}

impl<M: Method, D: Disk + Drop> Served<M, D> {
    /// How the program ends: by the log, else by the images, else by the listener.
    pub fn ending(&self) -> Ending
        ensures stops { StopsWith self.now.stopped.workers.log_writer.down
            self.now.stopped.workers.checkpointer.images.keeper.phase
            self.now.stopped.accepted.closed result }
        ensures ends { EndsServing result }
    {
        if self.stopped.workers.log_writer.is_down() {
            return Ending::Stopped(ServerEnding::LogDown);
        }
        if self.stopped.workers.checkpointer.is_down() {
            return Ending::Stopped(ServerEnding::ImagesDown);
        }
        match self.stopped.accepted.closed {
            Closed::AllCame => Ending::Ran,
            Closed::NoMemory => Ending::Failed(Failure::Refused(Refusal::NoMemory)),
            Closed::Failed(_) => Ending::Stopped(ServerEnding::ListenerFailed),
            Closed::Left => Ending::Stopped(ServerEnding::LogDown),
        }
    }
}
