//! A server of the world in a folder, from the opening of its files to their end.
ghost use Rattle.std.specs.Prelude.{◌≡◌, ◌≢◌, ◌≤◌, false, None, IsTrue, IfOk, IfErr, IfSome};
ghost use Rattle.std.specs.Prelude.{MatchResult};
ghost use Rattle.disk_model.specs.FourFiles.{EachFile, KeepsFile, mapped};
ghost use Rattle.worker_steps.specs.Stopped.{HasPlayed};
ghost use Rattle.world_folder.specs.Ending.{ReportsFailure};
ghost use Rattle.world_folder.specs.Failing.{first_failure};
ghost use Rattle.world_folder.specs.Lost.{lost_in};
ghost use Rattle.world_folder.specs.declared.lost.Lost.{Lost};
ghost use Rattle.world_server.specs.FolderRun.{IfServed, LeavesFiles, IsLeftBy, FollowsService};
ghost use Rattle.world_server.specs.FolderRun.{HoldsFiles};
ghost use Rattle.world_server.specs.Serving.{EndsServing, StopsWith, StopsAndPrints};
ghost use Rattle.world_server.specs.Served.{EndsAsFailed, EndsBy, RecoversTo};

use crate::frontend::{Frontend, IntoFrontend, ServedDisk};
use crate::lines::Lines;
use crate::runtime::{LookUp, Runtime, ThreadRuntime};
use crate::served::{Served, WorldFailure, serve_world};
use crate::service::Service;
use crate::system_frontend::SystemStreams;
use client_service::Door;
use disk_model::{Disk, FourFiles};
use file_disk::{FileDisk, Pace, Valve};
use file_readers::read_files;
use shared_capture::{Kind, Method, Pong, Zig};
use std::alloc::{AllocError, Global};
use std::net::{Net, TcpListener, TcpStream};
use std::snapshot::Snapshot;
use std::sync::Wait;
use std::thread::Threads;
use std::time::Clock;
use worker_threads::Watch;
use world_actions::Refusal;
use world_folder::{
    Checks, Ending, Failure, Folder, Guard, NotRecovered, OnLoss, SystemFolder, WorldFault,
    WorldReport, failure_of, open_files, stands_in,
};

/// A server's run over the four files of a folder, from their opening to its end.
#[derive(Drop)]
pub struct FolderRun<M: Method, D: Disk + Drop> {
    /// The files as they were opened.
    pub opened: Snapshot<FourFiles<D>>,
    /// The files as they are left.
    pub left: Left<M, D>,
    /// How the program ends.
    pub ending: Ending,
}

/// The files of a server that has ended.
#[derive(Drop)]
pub enum Left<M: Method, D: Disk + Drop> {
    /// A world was served from them.
    Served(Served<M, D>),
    /// They were only read.
    Read(FourFiles<D>),
    /// This world was recovered from them, and no client was let in.
    Recovered(WorldReport, FourFiles<D>),
    /// Workers may have them, up to the program's end.
    Given(WorldReport),
}

/// Serves the world in a folder of the system. It prints which world was recovered, where it
/// listens, and how far play came.
pub fn serve<
    R: Runtime
        + Wait
        + Clock
        + LookUp
        + Net<Listener = TcpListener, Stream = TcpStream>
        + Copy
        + Send
        + 'static,
>(rt: &R, service: &Service<'_>) -> Ending
    ensures ends { EndsServing result }
{
    let served = match service.method {
        Kind::Zigzag => serve_by::<R, Zig>(rt, service),
        Kind::PingPong => serve_by::<R, Pong>(rt, service),
    };
    Ending::of_either(served)
}

// Serves by this method, which has to be the one that is asked for.
fn serve_by<R: Runtime + ThreadRuntime + Copy + Send + 'static, M: Method + Send + 'static>(
    rt: &R,
    service: &Service<'_>,
) -> Result<Ending, Failure>
    requires { service.now.method ≡ M.KIND }
    ensures ok { IfOk result EndsServing }
{
    let streams = SystemStreams::start(rt, service)?;
    let mut folder = SystemFolder::new(rt, service.folder);
    let run = serve_folder::<R, M, FileDisk, Lines<R>, _, _>(rt, &mut folder, streams, service)?;
    Ok(run.ending)
}

/// Serves the world of the four files in a folder. It holds their locks, and reads the world's
/// guard first. Once they are opened only `serve_world` calls the files, except to read which of
/// them is damaged.
pub fn serve_folder<
    R: Threads + Wait + Clock + Copy + Send + 'static,
    M: Method + Send + 'static,
    D: ServedDisk + Drop + Send + 'static,
    W: Watch<D> + Door + Clone + Drop + Send + 'static,
    F: Folder<File = D>,
    S: IntoFrontend<M, D, W> + Drop,
>(rt: &R, folder: &mut F, streams: S, service: &Service<'_>) -> Result<FolderRun<M, D>, Failure>
    requires method { service.now.method ≡ M.KIND }
    requires streams { S.serves streams service.now }
    ensures held { IsTrue F.honest → IfOk result (λ run.
        HoldsFiles F.identity service.now run (F.history folder.old) (F.history folder.new)) }
    ensures left { IsTrue D.honest → IfOk result (λ run.
        LeavesFiles D.Disk run.opened.value run.left) }
    ensures recovered { IsTrue D.honest → IfOk result (λ run. IfServed run.left (λ served.
        RecoversTo D.content run.opened.value served.stopped.workers.mutator.opening
        served.recovered)) }
    ensures whole { IsTrue D.honest → service.now.on_loss ≡ OnLoss.Refuse
        → IfOk result (λ run. IfServed run.left (λ served. lost_in D.content OnLoss.Refuse
        served.recovered.tick served.recovered.from run.opened.value ≡ None)) }
    ensures played { IfOk result (λ run. IfServed run.left (λ served.
        HasPlayed served.stopped.workers.mutator)) }
    ensures settings { IfOk result (λ run. IfServed run.left (λ served.
        FollowsService service.now served.stopped.workers.mutator served.stopped.accepted)) }
    ensures stops { IfOk result (λ run. IfServed run.left (λ served. StopsAndPrints
        served.stopped.workers.log_writer.down
        served.stopped.workers.checkpointer.images.keeper.phase served.stopped.accepted.closed
        run.ending)) }
    ensures ends { IfOk result (λ run. EndsServing run.ending) }
{
    let files = open_files(folder)?;
    let opened = Snapshot::of(&files);
    let (left, ending) = match folder.read_guard() {
        Ok(guard) => serve_files(rt, folder, streams, service, files, guard),
        Err(failure) => (Left::Read(files), Ending::Failed(failure)),
    };
    Ok(FolderRun {
        opened,
        left,
        ending,
    })
}

// Serves the world of the files of a folder, which has this guard.
fn serve_files<
    R: Threads + Wait + Clock + Copy + Send + 'static,
    M: Method + Send + 'static,
    D: ServedDisk + Drop + Send + 'static,
    W: Watch<D> + Door + Clone + Drop + Send + 'static,
    F: Folder<File = D>,
    S: IntoFrontend<M, D, W> + Drop,
>(
    rt: &R,
    folder: &F,
    streams: S,
    service: &Service<'_>,
    files: FourFiles<D>,
    guard: Option<Guard>,
) -> (Left<M, D>, Ending)
    ensures left { IsTrue D.honest → LeavesFiles D.Disk files result.0 }
    ensures recovered { IsTrue D.honest → IfServed result.0 (λ served.
        RecoversTo D.content files served.stopped.workers.mutator.opening served.recovered) }
    ensures newest { IfServed result.0 (λ served. service.now.accepts_loss ≡ false
        → IfSome guard (λ guard. guard.acked ≤ served.recovered.tick)) }
    ensures whole { IsTrue D.honest → service.now.on_loss ≡ OnLoss.Refuse
        → IfServed result.0 (λ served. lost_in D.content OnLoss.Refuse
        served.recovered.tick served.recovered.from files ≡ None) }
    ensures played { IfServed result.0 (λ served. HasPlayed served.stopped.workers.mutator) }
    ensures settings { IfServed result.0 (λ served.
        FollowsService service.now served.stopped.workers.mutator served.stopped.accepted) }
    ensures stops { IfServed result.0 (λ served. StopsAndPrints
        served.stopped.workers.log_writer.down
        served.stopped.workers.checkpointer.images.keeper.phase served.stopped.accepted.closed
        result.1) }
    ensures ends { EndsServing result.1 }
{
    let mut files = files;
    let (pace, valve) = match hold_back(folder.alloc(), &mut files) {
        Ok(held_back) => held_back,
        Err(_) => {
            let failure = Failure::Refused(Refusal::NoMemory);
            return (Left::Read(files), Ending::Failed(failure));
        }
    };
    let mut front = streams.into_frontend(guard, pace, valve);
    let (every, admission, checks) = (
        service.due_after(),
        service.admission(),
        service.checks(guard),
    );
    let served = serve_world::<R, M, D, W, S::Frontend>(
        rt,
        folder.alloc(),
        &mut front,
        files,
        every,
        admission,
        checks,
    );
    let (left, ending) = ended(folder, served);
    (left, front.finish(ending))
}

// Paces both image files, and puts both log files behind a valve.
fn hold_back<D: ServedDisk>(
    alloc: Global,
    files: &mut FourFiles<D>,
) -> Result<(Pace, Valve), AllocError>
    ensures same { files.new ≡ files.old }
{
    let (pace, valve) = (Pace::new(alloc)?, Valve::new(alloc)?);
    files.image_a.pace(pace.clone()?);
    files.image_b.pace(pace.clone()?);
    files.log_a.stop_by(valve.clone()?);
    files.log_b.stop_by(valve.clone()?);
    Ok((pace, valve))
}

// The files and the ending of a server that has served its world, or hasn't.
fn ended<M: Method, D: ServedDisk + Drop, F: Folder<File = D>>(
    folder: &F,
    served: Result<Served<M, D>, WorldFailure<D>>,
) -> (Left<M, D>, Ending)
    requires { IfErr served EndsAsFailed }
    ensures left { IsLeftBy D.Disk served result.0 }
    ensures stops { MatchResult served (λ served. StopsWith served.stopped.workers.log_writer.down
        served.stopped.workers.checkpointer.images.keeper.phase served.stopped.accepted.closed
        result.1)
        (λ failure. EndsBy failure result.1) }
    ensures ends { EndsServing result.1 }
{
    match served {
        Ok(served) => {
            let ending = served.ending();
            (Left::Served(served), ending)
        }
        Err(WorldFailure::NotRecovered(mut files, why)) => {
            let failure = failure_of_files(folder, &mut files, why);
            (Left::Read(files), Ending::Failed(failure))
        }
        Err(WorldFailure::NotStarted(world, files, refusal)) => {
            let failure = not_started(folder, &files, refusal);
            (Left::Recovered(world, files), Ending::Failed(failure))
        }
        Err(WorldFailure::NotOpened(world, files, failure)) => {
            (Left::Recovered(world, files), Ending::Failed(failure))
        }
        Err(WorldFailure::NotRun(world, ending)) => (Left::Given(world), ending),
    }
}

// The failure of a server that recovers no world from the files, which it may read again.
fn failure_of_files<F: Folder>(
    folder: &F,
    files: &mut FourFiles<F::File>,
    why: NotRecovered,
) -> Failure
    ensures lost { (lost : Lost) → why ≡ NotRecovered.Lost lost
        → result ≡ Failure.NoWorld (WorldFault.Lost lost) }
    ensures kept { IsTrue F.File.honest → EachFile files.old files.new (KeepsFile F.File.Disk) }
{
    match why {
        NotRecovered::Lost(lost) => Failure::NoWorld(WorldFault::Lost(lost)),
        NotRecovered::Refused(Refusal::Device) => failure_of(folder, files),
        NotRecovered::Refused(refusal) => failure_of_damage(folder.alloc(), files, refusal),
    }
}

// The failure of a server whose recovery refuses the files: it names the file that is damaged.
fn failure_of_damage<D: Disk>(alloc: Global, files: &mut FourFiles<D>, refusal: Refusal) -> Failure
    ensures kept { IsTrue D.honest → EachFile files.old files.new (KeepsFile D.Disk) }
{
    if let Refusal::NoImage | Refusal::BadImage | Refusal::BadLog = refusal
        && let Ok(bytes) = read_files(alloc, files)
        && let Err(fault) = stands_in(alloc, &bytes, Checks::of(OnLoss::Warn))
    {
        return Failure::NoWorld(fault);
    }
    Failure::Refused(refusal)
}

// The failure of a server whose start failed: it names the file that failed.
fn not_started<F: Folder>(folder: &F, files: &FourFiles<F::File>, refusal: Refusal) -> Failure
    ensures device { IsTrue F.File.honest → refusal ≡ Refusal.Device
        → ReportsFailure (F.path folder.now) (first_failure (mapped F.File.failure files.now))
        result }
    ensures other { refusal ≢ Refusal.Device → result ≡ Failure.Refused refusal }
{
    match refusal {
        Refusal::Device => failure_of(folder, files),
        refusal => Failure::Refused(refusal),
    }
}
