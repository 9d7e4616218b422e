//! The front of a server on the system: its standard streams, and its port or its socket.
ghost use Rattle.std.specs.Prelude.{◌≡◌, ◌≢◌, IfErr, IfOk, IfSome};
ghost use Rattle.world_server.specs.FolderRun.{seconds_of};
ghost use Rattle.world_server.specs.Serving.{EndsServing};

use crate::acked::AckedOut;
use crate::endpoint::Endpoint;
use crate::frontend::{Frontend, IntoFrontend};
use crate::guarding::{GuardKeeper, started_guard};
use crate::heartbeat::Heartbeat;
use crate::kept::kept_files;
use crate::line::Line;
use crate::lines::Lines;
use crate::reporter::{Reports, start_reporter};
use crate::room::Room;
use crate::runtime::{LookUp, Runtime, ThreadRuntime};
use crate::service::{Address, Service};
use crate::socket::listen_at;
use crate::standing::{Losses, Standing};
use crate::streams::{Streams, note_line, print_line};
use crate::watchdog::{Watched, start_watchdog};
use client_service::Pulse;
use crossbeam_channel::{Receiver, Sender, bounded};
use disk_model::Disk;
use file_disk::{FileDisk, Pace, Valve};
use shared_capture::{Method, signal_pair};
use std::alloc::{AllocError, Global};
use std::fs::{File, Files};
use std::net::{Net, TcpListener, TcpStream};
use std::sync::{Arc, Wait};
use std::thread::Threads;
use std::time::{Clock, Duration};
use transports::{Listener, LocalPort};
use worker_steps::Opened;
use worker_threads::NotStarted;
use workers::ImageWriter;
use world_actions::Refusal;
use world_folder::{Ending, Failure, Guard, NoPort, blame, path_of};

/// For how many seconds the end of the program waits for the last guard.
const PATIENCE_SECONDS: u64 = 1;

/// The streams of a server, and the place where it listens once its world is open.
#[derive(Drop)]
pub struct SystemFrontend<'a, R: Wait + Clock + Net + Files + Copy> {
    rt: R,
    service: Service<'a>,
    /// Missing if the system gives no thread for them. Lines are then printed at once, and no
    /// client is let in.
    streams: Option<Streams>,
    standing: Arc<Standing, Global>,
    /// Prints the figures of the server, if they are asked for.
    reports: Option<Reports>,
    /// Takes the server for the thread that looks at it.
    watchdog: Option<Sender<Watched>>,
    /// The guard of the world as it was before.
    guard: Option<Guard>,
    /// Fails once the thread that writes the guard has ended.
    guarded: Option<Receiver<()>>,
    endpoint: Option<Arc<Endpoint, Global>>,
    /// The pace of the image files.
    pace: Pace,
    /// The valve of the log files.
    valve: Valve,
}

/// The streams of a server that holds no files yet.
#[derive(Drop)]
pub struct SystemStreams<'a, R: Wait + Clock + Net + Files + Copy> {
    rt: R,
    service: Service<'a>,
    streams: Option<Streams>,
    standing: Arc<Standing, Global>,
    reports: Option<Reports>,
    watchdog: Option<Sender<Watched>>,
}

impl<'a, R: Runtime + ThreadRuntime + Copy + Send + 'static> SystemStreams<'a, R> {
    /// Starts the threads of the streams.
    pub fn start(rt: &R, service: &Service<'a>) -> Result<Self, Failure>
        ensures service { IfOk result (λ made. made.service ≡ service.now) }
        ensures reports { IfOk result (λ made. IfSome made.streams
            (λ _. seconds_of made.reports ≡ service.now.report)) }
    {
        let Ok(standing) = Arc::new(rt.alloc(), Standing::new()) else {
            return Err(Failure::Refused(Refusal::NoMemory));
        };
        let (streams, reports, watchdog) = match start_threads(rt, service) {
            Ok((streams, reports, watchdog)) => (Some(streams), reports, Some(watchdog)),
            Err(NotStarted::NoThread) => (None, None, None),
            Err(NotStarted::NoMemory) => return Err(Failure::Refused(Refusal::NoMemory)),
        };
        Ok(SystemStreams {
            rt: *rt,
            service: *service,
            streams,
            standing,
            reports,
            watchdog,
        })
    }
}

impl<'a, R: Runtime + ThreadRuntime + Copy + Send + 'static, M: Method> IntoFrontend<
    M,
    FileDisk,
    Lines<R>,
> for SystemStreams<'a, R> {
    type Frontend = SystemFrontend<'a, R>;

    ghost serves = { λ made service. (made.service ≡ service)
        × IfSome made.streams (λ _. seconds_of made.reports ≡ service.report) };

    fn into_frontend(self, guard: Option<Guard>, pace: Pace, valve: Valve) -> Self::Frontend {
        let SystemStreams {
            rt,
            service,
            streams,
            standing,
            reports,
            watchdog,
        } = self;
        if guard.is_some() {
            // A start counts as a sign of life.
            let _ = rt.touch_guard(service.folder);
        }
        SystemFrontend {
            rt,
            service,
            streams,
            standing,
            reports,
            watchdog,
            guard,
            guarded: None,
            endpoint: None,
            pace,
            valve,
        }
    }
}

impl<'a, R: Runtime + ThreadRuntime + Copy + Send + 'static, M: Method> Frontend<
    M,
    FileDisk,
    Lines<R>,
> for SystemFrontend<'a, R> {
    ghost use Rattle.std.specs.Prelude.{false, []};

    ghost known = { false };

    ghost printed = { λ front. [] };

    ghost noted = { λ front. [] };

    fn print(&mut self, line: Line) {
        print_line(&self.rt, &self.service, &self.streams, line);
    }

    fn note(&mut self, line: Line) {
        note_line(&self.rt, &self.service, &self.streams, line);
    }

    fn open(&mut self, opened: &Opened<M, FileDisk>) -> Result<(Listener, Lines<R>), Failure> {
        let (listener, endpoint, lines, guarded) = let_in(self, opened)?;
        self.endpoint = Some(endpoint);
        self.guarded = guarded;
        Ok((listener, lines))
    }

    fn losses(&self) -> Losses {
        self.standing.losses()
    }

    // Stops listening, and waits a second at most for the last guard. It waits until the lines
    // have left, or for some seconds if a stream isn't read.
    fn finish(self, ending: Ending) -> Ending {
        let SystemFrontend {
            rt,
            service: _,
            streams,
            standing: _,
            reports: _,
            watchdog: _,
            guard: _,
            guarded,
            endpoint,
            pace: _,
            valve: _,
        } = self;
        if let Some(endpoint) = endpoint {
            endpoint.leave(&rt);
        }
        if let Some(guarded) = guarded {
            let _ = guarded.recv_timeout(&rt, Duration::from_secs(PATIENCE_SECONDS));
        }
        match streams {
            Some(streams) => streams.finish(&rt, ending),
            None => ending,
        }
    }
}

type LetIn<R> = (
    Listener,
    Arc<Endpoint, Global>,
    Lines<R>,
    Option<Receiver<()>>,
);

// Lets the clients of an open world in, if there are threads for the lines of its server.
fn let_in<R: ThreadRuntime + Files<File = File> + AllocGlobal + Copy, M: Method>(
    front: &SystemFrontend<'_, R>,
    world: &Opened<M, FileDisk>,
) -> Result<LetIn<R>, Failure> {
    let Some(streams) = &front.streams else {
        return Err(Failure::NoThread);
    };
    let (listener, endpoint) = listen(&front.rt, front.service.address)?;
    match lines_of(front, streams, endpoint.clone()?, world) {
        Ok((lines, guarded)) => {
            if front.service.every.is_none() {
                streams.errors.print(&front.rt, Line::ManyImages);
            }
            Ok((listener, endpoint, lines, guarded))
        }
        Err(ending) => {
            endpoint.leave(&front.rt);
            Err(ending)
        }
    }
}

// The lines of the server of an open world. A thread looks at it from now on.
fn lines_of<R: Wait + Clock + LookUp + Net + Files<File = File> + AllocGlobal + Copy, M: Method>(
    front: &SystemFrontend<'_, R>,
    streams: &Streams,
    endpoint: Arc<Endpoint, Global>,
    world: &Opened<M, FileDisk>,
) -> Result<(Lines<R>, Option<Receiver<()>>), Failure> {
    let alloc = front.rt.alloc();
    let pulse = pulse_for(front, world)?;
    let files = kept_files(alloc, front.service.folder, &world.images, &world.log)?;
    let files = Arc::new(alloc, files).map_err(|_: _| AllocError)?;
    let (wake, woken) = bounded(alloc, 1)?;
    let (done, guarded) = bounded(alloc, 1)?;
    let (acked, guard) = guard_for(front, streams, world, &pulse)?;
    let service = &front.service;
    let is_guarded = guard.is_some();
    if let Some(watchdog) = &front.watchdog {
        let watched = Watched {
            endpoint: endpoint.clone()?,
            files: files.clone()?,
            folder: File::open(&front.rt, service.folder).ok(),
            errors: streams.errors.clone()?,
            standing: front.standing.clone()?,
            exit_when_images_down: service.exit_when_images_down,
            valve: if service.exits_when_replaced {
                Some(front.valve.clone()?)
            } else {
                None
            },
            down_since: None,
            woken,
            guard,
            done,
        };
        let _ = watchdog.try_send(&front.rt, watched);
    }
    let lines = Lines {
        rt: front.rt,
        endpoint,
        files,
        output: streams.output.clone()?,
        errors: streams.errors.clone()?,
        standing: front.standing.clone()?,
        exits_when_log_down: service.exits_when_log_down,
        exits_when_images_down: service.exit_when_images_down.is_some(),
        exit_when_closed: service.exit_when_closed,
        closed_at: None,
        pulse,
        pace: front.pace.clone()?,
        room: Room::new(),
        wake,
        acked,
    };
    let guarded = if is_guarded { Some(guarded) } else { None };
    Ok((lines, guarded))
}

type Guarded = (Option<AckedOut>, Option<GuardKeeper>);

// The keeper of the guard of an open world, and the word by which it knows the acknowledged ticks.
// The guard of the start is written. A world that has no guard gets one if that is asked for.
fn guard_for<R: Wait + Clock + LookUp + Net + Files<File = File> + AllocGlobal + Copy, M: Method>(
    front: &SystemFrontend<'_, R>,
    streams: &Streams,
    world: &Opened<M, FileDisk>,
    pulse: &Option<Arc<Pulse, Global>>,
) -> Result<Guarded, Failure> {
    let (rt, service) = (&front.rt, &front.service);
    let Some(pulse) = pulse else {
        return Ok((None, None));
    };
    if !is_guarded(front) {
        return Ok((None, None));
    }
    let tick = world.ended;
    if let Some(guard) = front.guard {
        if guard.acked > tick {
            streams.errors.print(rt, Line::LossAccepted(tick));
        }
    }
    let guard = started_guard(rt, front.guard, tick, newest_image(&world.images));
    let answer = rt.put_guard(service.folder, &guard);
    let failed = answer.is_err();
    if let Err(error) = answer {
        streams.errors.print(rt, Line::GuardFailed(error));
    }
    let (out, acked) = signal_pair(rt.alloc())?;
    let keeper = GuardKeeper {
        folder: path_of(rt.alloc(), service.folder, "")?,
        heartbeat: Heartbeat::new(pulse.clone()?),
        written: guard,
        acked,
        tried_at: None,
        failed,
    };
    Ok((Some(AckedOut::new(out, tick)), Some(keeper)))
}

// The counts of a server that has opened this world.
fn pulse_of<M: Method>(world: &Opened<M, FileDisk>) -> Pulse {
    Pulse::new(world.ended, newest_image(&world.images))
}

// The tick of the newest image, which each world has once its start has ended.
fn newest_image<D: Disk>(images: &ImageWriter<D>) -> u64
    ensures { IfSome images.now.keeper.newest (λ newest. result ≡ newest.1) }
{
    match images.keeper.newest() {
        Some((_, tick)) => tick,
        None => 0,
    }
}

// True if the world of a server has a guard, or gets one.
fn is_guarded<R: Wait + Clock + Net + Files + Copy>(front: &SystemFrontend<'_, R>) -> bool {
    front.guard.is_some() || front.service.guards
}

// The counts of the server of this world, if its figures are printed or it has a guard. The thread
// of the figures begins with them.
fn pulse_for<R: Wait + Clock + Net + Files + AllocGlobal + Copy, M: Method>(
    front: &SystemFrontend<'_, R>,
    world: &Opened<M, FileDisk>,
) -> Result<Option<Arc<Pulse, Global>>, Failure> {
    if front.reports.is_none() && !is_guarded(front) {
        return Ok(None);
    }
    let pulse = Arc::new(front.rt.alloc(), pulse_of(world)).map_err(|_: _| AllocError)?;
    if let Some(reports) = &front.reports {
        reports.begin(&front.rt, pulse.clone()?);
    }
    Ok(Some(pulse))
}

type Started = (Streams, Option<Reports>, Sender<Watched>);

// Starts the threads of the streams, the one that prints figures if they are asked for, and the one
// that looks at the server.
fn start_threads<R: Runtime + ThreadRuntime + Copy + Send + 'static>(
    rt: &R,
    service: &Service<'_>,
) -> Result<Started, NotStarted>
    ensures { IfOk result (λ started. seconds_of started.1 ≡ service.now.report) }
{
    let streams = Streams::start(rt, service)?;
    let reports = match service.report {
        0 => None,
        seconds => Some(start_reporter(rt, rt.alloc(), seconds, streams.errors.clone()?)?),
    };
    let watchdog = start_watchdog(rt, rt.alloc())?;
    Ok((streams, reports, watchdog))
}

// A listener at this address, and its endpoint.
fn listen<R: Net<Listener = TcpListener, Stream = TcpStream> + Files<File = File> + AllocGlobal>(
    rt: &R,
    address: Address<'_>,
) -> Result<(Listener, Arc<Endpoint, Global>), Failure> {
    let (listener, endpoint) = match address {
        Address::Port(port) => match LocalPort(port).listen(rt) {
            Ok((listener, chosen)) => (listener, Endpoint::Port(chosen)),
            Err(error) => {
                let failed = NoPort { port, error };
                return Err(Failure::NoPort(failed));
            }
        },
        Address::Socket { path, mode } => {
            let (listener, file) = blame(rt.alloc(), "", path, listen_at(rt, path, mode))?;
            (listener, Endpoint::Socket(file))
        }
    };
    match Arc::new(rt.alloc(), endpoint) {
        Ok(endpoint) => Ok((listener, endpoint)),
        Err(failed) => {
            failed.value.leave(rt);
            Err(Failure::Refused(Refusal::NoMemory))
        }
    }
}
