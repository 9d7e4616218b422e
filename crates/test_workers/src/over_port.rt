//! A world on files in memory, served over a port from its four files to their end.
ghost use Rattle.std.specs.Prelude.{◌≡◌, ◌++◌, ◌∷◌, []};

use crate::folders::{each, world_bytes};
use crate::model_folder::ModelDisk;
use crate::same::same;
use crate::tcp::try_client;
use crate::worlds::{Report, Reporter, new_files};
use crate::{ModelFolder, Note};
use client_service::Admission;
use crossbeam_channel::{Sender, unbounded};
use disk_model::{Disk, ModelFile};
use file_disk::{Pace, Valve};
use shared_capture::{Kind, Method, Pong, Zig};
use std::alloc::Global;
use std::net::{Net, TcpListener, TcpStream};
use std::process::Abort;
use std::sync::Wait;
use std::thread::{self, JoinHandle, Threads};
use std::time::Clock;
use transports::Listener;
use worker_steps::Opened;
use world_actions::Refusal;
use world_folder::{Checks, Ending, Failure, Guard, OnLoss, Source, WorldReport};
use world_server::{
    Address, Clients, Every, FolderRun, Frontend, IntoFrontend, Left, Line, Losses, Service,
    serve_folder, serve_world,
};

const BATCHES: &[u8] = b"add 0 1\nget 0\nend\nadd 0 1\nget 0\nend\n";

const ANSWERS: &[u8] = b"tick 1: + =1\ntick 2: + =2\n";

// A batch of an action, a read, a refused action and a line that is none.
const BATCH: &[u8] = b"set 0 5\nget 0\nmove 0 1 9\nfoo\nend\n";

const FIRST: &[u8] = b"tick 1: + =5 -3 -16\n";

const SECOND: &[u8] = b"tick 2: + =5 -3 -16\n";

// How a server is run: after how many ticks an image is due, and for how many clients.
#[derive(Clone, Copy)]
struct Run {
    every: u32,
    clients: u32,
}

const EACH_TICK: Run = Run {
    every: 1,
    clients: 1,
};

const TWO_CLIENTS: Run = Run {
    every: 64,
    clients: 2,
};

// A port at which clients come, and the lines that are printed.
#[derive(Drop)]
struct Desk<R: Wait + Abort + Copy> {
    rt: R,
    listener: Option<Listener>,
    watch: Option<Reporter<R>>,
    printed: Vec<Line>,
    noted: Vec<Line>,
}

impl<R: Wait + Abort + Copy, M: Method, D: Disk + Drop> Frontend<M, D, Reporter<R>> for Desk<R> {
    ghost use Rattle.std.specs.Prelude.{true};

    ghost known = { true };

    ghost printed = { λ desk. desk.printed.items };

    ghost noted = { λ desk. desk.noted.items };

    fn print(&mut self, line: Line) {
        keep(&self.rt, &mut self.printed, line);
    }

    fn note(&mut self, line: Line) {
        keep(&self.rt, &mut self.noted, line);
    }

    fn open(&mut self, _opened: &Opened<M, D>) -> Result<(Listener, Reporter<R>), Failure> {
        match (self.listener.take(), self.watch.take()) {
            (Some(listener), Some(watch)) => Ok((listener, watch)),
            _ => Err(Failure::Refused(Refusal::Device)),
        }
    }

    fn losses(&self) -> Losses {
        Losses {
            log: false,
            images: false,
            listener: false,
        }
    }

    fn finish(self, ending: Ending) -> Ending {
        ending
    }
}

impl<R: Wait + Abort + Copy, M: Method> IntoFrontend<M, ModelDisk, Reporter<R>> for Desk<R> {
    type Frontend = Desk<R>;

    ghost serves = { λ _ _. Unit {0} };

    fn into_frontend(self, _guard: Option<Guard>, _pace: Pace, _valve: Valve) -> Desk<R> {
        self
    }
}

// Adds a line. A test has the memory for it, or ends.
fn keep(rt: &impl Abort, lines: &mut Vec<Line>, line: Line)
    ensures { lines.new.items ≡ lines.old.items ++ line ∷ [] }
{
    if lines.push(line).is_err() {
        rt.abort();
    }
}

fn desk_of<R: Wait + Abort + Copy>(
    rt: &R,
    alloc: Global,
    listener: Option<Listener>,
    to: Sender<Report>,
) -> Desk<R> {
    Desk {
        rt: *rt,
        listener,
        watch: Some(Reporter { rt: *rt, to }),
        printed: Vec::new(alloc),
        noted: Vec::new(alloc),
    }
}

// Serves a new world of two cells until two ticks were played. Checks what is printed, that clients
// were let in, and which world was recovered.
fn serve_two_ticks<
    M: Method + Send + 'static,
    R: Threads + Wait + Clock + Abort + Copy + Send + 'static,
>(rt: &R, alloc: Global, listener: Listener, run: Run) {
    let (to, heard) = unbounded(alloc).expect(rt, "a channel");
    let mut desk = desk_of(rt, alloc, Some(listener), to);
    let files = new_files(rt, alloc, 2);
    let served = serve_world::<R, M, ModelFile, Reporter<R>, Desk<R>>(
        rt,
        alloc,
        &mut desk,
        files,
        Every(run.every),
        Admission {
            clients: run.clients,
            idle: None,
        },
        Checks::of(OnLoss::Warn),
    );
    match served {
        Ok(served) => {
            same(
                rt,
                "the world",
                served.recovered,
                WorldReport { tick: 0, from: 0 },
            );
            same(
                rt,
                "ends well",
                matches!(served.ending(), Ending::Ran),
                true,
            );
        }
        Err(_) => panic!(rt; "not served"),
    }
    let are_printed = match desk.printed.as_slice() {
        [recovered, stopped] => {
            matches!(recovered, Line::Recovered { ended: 0, from: 0 })
                && matches!(stopped, Line::Stopped { ended: 2, acked: 2 })
        }
        _ => false,
    };
    same(rt, "the two lines", are_printed, true);
    let first = heard.try_recv(rt).ok();
    same(rt, "what is reported", first, Some(Report::Opened));
    same(rt, "lines on standard error", desk.noted.len(), 0);
}

fn start_server<
    M: Method + Send + 'static,
    R: Threads + Wait + Clock + Abort + Copy + Send + 'static,
>(rt: &R, alloc: Global, listener: Listener, run: Run) -> JoinHandle<()> {
    let here = *rt;
    let serve = move || serve_two_ticks::<M, R>(&here, alloc, listener, run);
    match thread::spawn(rt, serve) {
        Ok(server) => server,
        Err(_) => panic!(rt; "no thread"),
    }
}

// Serves clients that come one after the other. Each writes its input, and has to get its text.
fn try_served<
    M: Method + Send + 'static,
    R: Net<Listener = TcpListener, Stream = TcpStream>
        + Threads
        + Wait
        + Clock
        + Abort
        + Copy
        + Send
        + 'static,
>(rt: &R, alloc: Global, run: Run, clients: &[(&[u8], &[u8])]) {
    let listener = TcpListener::bind(rt, "127.0.0.1:0").expect(rt, "a port");
    let to = listener.local_addr().expect(rt, "an address");
    let server = start_server::<M, R>(rt, alloc, Listener::Tcp(listener), run);
    for (input, text) in clients {
        try_client(rt, alloc, to, input, text);
    }
    server.join(rt);
}

#[test]
fn world_in_files_is_served_over_a_port(rt: HostRuntime) {
    let clients = [(BATCHES, ANSWERS)];
    try_served::<Zig, HostRuntime>(&rt, rt.alloc(), EACH_TICK, &clients);
    try_served::<Pong, HostRuntime>(&rt, rt.alloc(), EACH_TICK, &clients);
}

#[test]
fn two_clients_play_one_after_the_other(rt: HostRuntime) {
    let clients = [(BATCH, FIRST), (BATCH, SECOND)];
    try_served::<Zig, HostRuntime>(&rt, rt.alloc(), TWO_CLIENTS, &clients);
    try_served::<Pong, HostRuntime>(&rt, rt.alloc(), TWO_CLIENTS, &clients);
}

const SERVICE: Service<'static> = Service {
    folder: "D",
    method: Kind::Zigzag,
    every: Some(Every(1)),
    address: Address::Port(0),
    clients: Clients(1),
    idle: None,
    report: 0,
    exit_when_closed: None,
    exits_when_log_down: false,
    exit_when_images_down: None,
    exits_when_replaced: false,
    on_loss: OnLoss::Refuse,
    guards: false,
    accepts_loss: false,
};

// Runs a server on a folder in memory.
fn run_in<R: Threads + Wait + Clock + Abort + Copy + Send + 'static>(
    rt: &R,
    folder: &mut ModelFolder<'_>,
    listener: Option<Listener>,
) -> FolderRun<Zig, ModelDisk> {
    let (to, _heard) = unbounded(folder.alloc()).expect(rt, "a channel");
    let desk = desk_of(rt, folder.alloc(), listener, to);
    let run = serve_folder::<R, Zig, ModelDisk, Reporter<R>, ModelFolder<'_>, Desk<R>>(
        rt, folder, desk, &SERVICE,
    );
    run.expect(rt, "four files")
}

// Serves a world of two cells from its folder, whose guard is read once the files are held.
fn serve_from_folder<R: Threads + Wait + Clock + Abort + Copy + Send + 'static>(
    rt: &R,
    alloc: Global,
    listener: Listener,
) {
    let mut folder = ModelFolder::new(alloc, "D", world_bytes(rt, alloc), each(true));
    let FolderRun { left, ending, .. } = run_in(rt, &mut folder, Some(listener));
    match left {
        Left::Served(served) => same(rt, "the ticks", served.stopped.workers.acked(), 2),
        _ => panic!(rt; "not served"),
    }
    same(rt, "ends well", matches!(ending, Ending::Ran), true);
    match folder.notes().first() {
        Some(Note::GuardRead(None)) => {}
        _ => panic!(rt; "the guard isn't read last"),
    }
}

#[test]
fn world_in_a_folder_is_served_over_a_port(rt: HostRuntime) {
    let (alloc, here) = (rt.alloc(), rt);
    let listener = TcpListener::bind(&rt, "127.0.0.1:0").expect(&rt, "a port");
    let to = listener.local_addr().expect(&rt, "an address");
    let serve = move || serve_from_folder(&here, alloc, Listener::Tcp(listener));
    let server = match thread::spawn(&rt, serve) {
        Ok(server) => server,
        Err(_) => panic!(&rt; "no thread"),
    };
    let answers = b"tick 1: + =6\ntick 2: + =7\n";
    try_client(&rt, alloc, to, BATCHES, answers);
    server.join(&rt);
}

#[test]
fn damaged_world_in_a_folder_is_only_read(rt: HostRuntime) {
    let mut bytes = world_bytes(&rt, rt.alloc());
    bytes.image_a.truncate(20);
    let mut folder = ModelFolder::new(rt.alloc(), "D", bytes, each(true));
    let run = run_in(&rt, &mut folder, None);
    same(&rt, "read", matches!(run.left, Left::Read(_)), true);
    same(
        &rt,
        "named",
        matches!(run.ending, Ending::Failed(Failure::NoWorld(_))),
        true,
    );
}
