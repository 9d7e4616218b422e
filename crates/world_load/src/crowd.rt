ghost use Rattle.std.specs.Prelude.{◌≡◌, ◌++◌, ◌⊎◌, IfOk, IsErr};

use crate::address::Address;
use crate::client::play;
use crate::counted::Counted;
use crate::failure::{Failure, not_connected};
use crate::load::Load;
use crate::progress::Progress;
use std::alloc::Global;
use std::io::BufReader;
use std::net::{Net, TcpStream};
use std::sync::{Arc, Wait};
use std::thread::{self, JoinHandle, Threads, sleep};
use std::time::{Clock, Duration, Instant};
use transports::Stream;
use trial_kit::Latencies;

/// How many milliseconds pass from a look at the clients' progress to the next one.
const PAUSE: u64 = 10;

/// The results of the clients together.
#[derive(Drop)]
pub struct Seen {
    pub latencies: Latencies,
    /// How long the clients played.
    pub milliseconds: u64,
}

type Handle = JoinHandle<Result<Vec<u64>, Failure>>;

/// Lets the clients of a load play against the server at an address, each in its own thread.
/// Meanwhile it prints on standard error, each second, how far they are.
pub fn run_crowd<
    R: Net<Stream = TcpStream> + Threads + Wait + Clock + Eprint + Copy + Send + 'static,
>(rt: &R, alloc: Global, address: Address<'_>, load: Load) -> Result<Seen, Failure> {
    let streams = connect(rt, alloc, address, load.connections)?;
    let progress = Arc::new(alloc, Progress::new())?;
    let begin = Instant::now(rt)?;
    let mut clients = Vec::with_capacity(alloc, streams.len())?;
    let started = start(rt, alloc, streams, load, &progress, &mut clients);
    if started.is_err() {
        progress.fail();
    }
    watch(rt, &progress, clients.len() as u64, begin)?;
    let latencies = join(rt, alloc, clients);
    let milliseconds = u64::try_from(begin.elapsed(rt)?.as_millis()).unwrap_or(u64::MAX);
    started?;
    Ok(Seen {
        latencies: Latencies::new(latencies?),
        milliseconds,
    })
}

// Opens this number of connections.
fn connect<R: Net<Stream = TcpStream>>(
    rt: &R,
    alloc: Global,
    address: Address<'_>,
    connections: u32,
) -> Result<Vec<Stream>, Failure> {
    let mut streams = Vec::with_capacity(alloc, connections as usize)?;
    for _ in 0..connections {
        match address.connect(rt) {
            Ok(stream) => streams.push(stream)?,
            Err(error) => return Err(not_connected(alloc, address, error)),
        }
    }
    Ok(streams)
}

// Gives each connection a client in a thread.
fn start<R: Threads + Clock + Copy + Send + 'static>(
    rt: &R,
    alloc: Global,
    streams: Vec<Stream>,
    load: Load,
    progress: &Arc<Progress, Global>,
    clients: &mut Vec<Handle>,
) -> Result<(), Failure> {
    for (seed, stream) in streams.into_iter().enumerate() {
        clients.push(start_client(rt, alloc, stream, load, seed as u64, progress.clone()?)?)?;
    }
    Ok(())
}

fn start_client<R: Threads + Clock + Copy + Send + 'static>(
    rt: &R,
    alloc: Global,
    stream: Stream,
    load: Load,
    seed: u64,
    progress: Arc<Progress, Global>,
) -> Result<Handle, Failure> {
    let here = *rt;
    let run = move || {
        let played = play_over(&here, alloc, &stream, &load, seed, &progress);
        if played.is_err() {
            progress.fail();
        }
        progress.client_ended();
        played
    };
    match thread::spawn(rt, run) {
        Ok(client) => Ok(client),
        Err(_) => Err(Failure::NoThread),
    }
}

// Plays over a stream, both ways.
fn play_over<R: Clock>(
    rt: &R,
    alloc: Global,
    stream: &Stream,
    load: &Load,
    seed: u64,
    progress: &Progress,
) -> Result<Vec<u64>, Failure> {
    let mut answers = BufReader::new(alloc, stream)?;
    let mut requests = stream;
    play(rt, alloc, &mut answers, &mut requests, load, seed, progress)
}

// Reports each second how many batches were answered, until all clients have ended.
fn watch<R: Wait + Clock + Eprint>(
    rt: &R,
    progress: &Progress,
    clients: u64,
    begin: Instant,
) -> Result<(), Failure> {
    let (mut seconds, mut before) = (0, 0);
    for _ in rt.forever() {
        if progress.ended() >= clients {
            break;
        }
        sleep(rt, Duration::from_millis(PAUSE));
        let now = begin.elapsed(rt)?.as_secs();
        if now > seconds {
            let batches = progress.batches();
            let more = batches.saturating_sub(before);
            let ticks = Counted {
                count: batches,
                noun: "tick",
            };
            let _ = eprintln!(rt; "{now} s: {ticks}, {more} of them since {seconds} s");
            (seconds, before) = (now, batches);
        }
    }
    Ok(())
}

// Waits for the clients: what all their batches waited, or why one ended too early.
fn join<R: Threads>(rt: &R, alloc: Global, clients: Vec<Handle>) -> Result<Vec<u64>, Failure> {
    let mut all = Ok(Vec::new(alloc));
    for client in clients {
        let played = client.join(rt);
        all = both(all, played);
    }
    all
}

// These latencies and those, or the first failure.
fn both(
    all: Result<Vec<u64>, Failure>,
    more: Result<Vec<u64>, Failure>,
) -> Result<Vec<u64>, Failure>
    ensures joined { IfOk result (λ list.
        IfOk all (λ these. IfOk more (λ those. list.items ≡ these.items ++ those.items))) }
    ensures fails { (IsErr all ⊎ IsErr more) → IsErr result }
{
    let mut all = all?;
    all.extend_from_slice(&more?)?;
    Ok(all)
}
