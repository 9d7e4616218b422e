use crate::running::{is_page, play};
use crate::same::same;
use batches::Request;
use client_service::{Accepted, Admission, Closed, Door, Unserved, accept_sessions};
use std::alloc::Global;
use std::io::{self, Read, Write};
use std::net::{Net, Shutdown, SocketAddr, TcpListener, TcpStream};
use std::process::Abort;
use std::sync::Wait;
use std::thread::{self, JoinHandle, Threads};
use std::time::Clock;
use transports::Listener;
use workers::{Ask, AskChannel, AskReceiver, Spins};
use world_actions::Refusal;

mod opening;

const BATCHES: &[u8] = b"set 0 5\nend\nget 0\nend\nend\nset 0 1\n";

const FAULTS: &[u8] = b"fault 6\nfault 12\nfault 21\n";

// Ignores each report.
#[derive(Clone, Copy)]
struct Nobody;

impl Door for Nobody {
    fn opened(&mut self) {}

    fn session_refused(&mut self, _why: Unserved) {}

    fn shortage_began(&mut self, _error: &io::Error) {}

    fn shortage_ended(&mut self) {}

    fn listener_failed(&mut self, _error: &io::Error) {}

    fn closed(&mut self) {}

    fn is_left(&self) -> bool {
        false
    }
}

// Refuses a batch, or drops one that begins with a read.
fn refuse<R: Wait>(rt: &R, ask: Ask) {
    let refusal = match ask.batch().requests().first() {
        Some(Request::Get(_)) => return,
        Some(_) => Refusal::SegmentFull,
        None => Refusal::TicksEnded,
    };
    ask.refuse(rt, refusal);
}

// Takes the place of the workers. It refuses or drops each batch, and counts them.
fn refuse_all<R: Wait>(rt: &R, asks: AskReceiver) -> u64 {
    let mut asks = asks;
    let mut count = 0u64;
    for _ in rt.forever() {
        let Some(ask) = asks.next(rt) else {
            break;
        };
        refuse(rt, ask);
        count = count.saturating_add(1);
    }
    count
}

fn start_refusing<R: Threads + Wait + Abort + Copy + Send + 'static>(
    rt: &R,
    asks: AskReceiver,
) -> JoinHandle<u64> {
    let here = *rt;
    match thread::spawn(rt, move || refuse_all(&here, asks)) {
        Ok(worker) => worker,
        Err(_) => panic!(rt; "no thread"),
    }
}

// A session whose batches are refused.
fn try_refusals<R: Threads + Wait + Abort + Copy + Send + 'static>(rt: &R, alloc: Global) {
    let (asks, asked) = AskChannel::open(alloc).expect(rt, "a channel");
    let worker = start_refusing(rt, asked);
    let page = play(rt, alloc, asks, BATCHES);
    is_page(rt, &page, FAULTS);
    same(rt, "batches that are refused", worker.join(rt), 3);
}

#[test]
fn answers_each_batch_of_a_session(rt: HostRuntime) {
    try_refusals(&rt, rt.alloc());
}

#[test]
fn reports_workers_that_are_gone(rt: HostRuntime) {
    let (asks, asked) = AskChannel::open(rt.alloc()).expect(&rt, "a channel");
    drop(asked);
    let page = play(&rt, rt.alloc(), asks, BATCHES);
    is_page(&rt, &page, b"fault 12\nfault 12\nfault 12\n");
}

// Writes all the input at once, and takes the answer to its end.
fn talk(stream: &mut TcpStream, input: &[u8], page: &mut Vec<u8>) -> io::Result<()> {
    stream.write_all(input)?;
    stream.shutdown(Shutdown::Write)?;
    stream.read_to_end(page)?;
    Ok(())
}

/// Asserts that a client that writes this input gets this text.
pub fn try_client<R: Net<Stream = TcpStream> + Abort>(
    rt: &R,
    alloc: Global,
    to: SocketAddr,
    input: &[u8],
    text: &[u8],
) {
    let mut stream = TcpStream::connect(rt, to).expect(rt, "a connection");
    let mut page = Vec::new(alloc);
    talk(&mut stream, input, &mut page).expect(rt, "an answer");
    same(rt, "what a client is answered", page.as_slice(), text);
}

fn start_accepting<R: Threads + Wait + Clock + Abort + Copy + Send + 'static>(
    rt: &R,
    alloc: Global,
    listener: Listener,
    asks: AskChannel,
) -> JoinHandle<Accepted> {
    let here = *rt;
    let spins = Spins::new(alloc, 1).expect(rt, "a count");
    let accept = move || accept_sessions(&here, alloc, listener, THREE, asks, spins, Nobody);
    match thread::spawn(rt, accept) {
        Ok(server) => server,
        Err(_) => panic!(rt; "no thread"),
    }
}

const THREE: Admission = Admission {
    clients: 3,
    idle: None,
};

// All clients came, and each had a session, which was joined.
fn all_were_served(rt: &impl Abort, accepted: &Accepted) {
    same(rt, "connections", accepted.connections, 3);
    same(rt, "sessions", accepted.sessions.count(), 3);
    same(rt, "unserved", accepted.unserved, 0);
    let all_came = matches!(accepted.closed, Closed::AllCame);
    same(rt, "whether all came", all_came, true);
}

fn try_port<R: Net<Stream = TcpStream> + Threads + Wait + Clock + Abort + Copy + Send + 'static>(
    rt: &R,
    alloc: Global,
    listener: TcpListener,
) {
    let to = listener.local_addr().expect(rt, "an address");
    let (asks, asked) = AskChannel::open(alloc).expect(rt, "a channel");
    let worker = start_refusing(rt, asked);
    let server = start_accepting(rt, alloc, Listener::Tcp(listener), asks);
    try_client(rt, alloc, to, b"set 0", b"");
    for _ in 0..2 {
        try_client(rt, alloc, to, BATCHES, FAULTS);
    }
    all_were_served(rt, &server.join(rt));
    same(rt, "batches that are refused", worker.join(rt), 6);
}

#[test]
fn serves_clients_of_a_port(rt: HostRuntime) {
    let listener = TcpListener::bind(&rt, "127.0.0.1:0").expect(&rt, "a port");
    try_port(&rt, rt.alloc(), listener);
}
