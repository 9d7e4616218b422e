//! Connections by a port and by a socket: each end reads the bytes that the other writes, and a
//! time-out ends a wait.
use crate::same::same;
use std::fs::Files;
use std::io::{self, ErrorKind, Read, Write};
use std::net::{Net, TcpListener, TcpStream};
use std::os::unix::net::{SocketAddr, UnixListener, UnixStream};
use std::process::Abort;
use std::time::Duration;
use transports::{Listener, Stream};

const WORD: &[u8; 4] = b"end\n";

const SILENCE_MILLISECONDS: u64 = 10;

// Writes a word at one end, and reads it at the other.
fn passed(from: &Stream, to: &Stream) -> io::Result<[u8; 4]> {
    let (mut writer, mut reader) = (from, to);
    writer.write_all(WORD)?;
    writer.flush()?;
    let mut word = [0; 4];
    reader.read_exact(&mut word)?;
    Ok(word)
}

// True if a read to which no byte comes ends by the time-out.
fn ends_by_silence(stream: &Stream) -> bool {
    let mut reader = stream;
    match reader.read(&mut [0]) {
        Ok(_) => false,
        Err(error) => error.kind() == ErrorKind::WouldBlock,
    }
}

// Accepts the connection of this client, and passes words both ways.
fn try_both_ways(rt: &impl Abort, listener: &Listener, client: &Stream) {
    let server = listener.accept().expect(rt, "a connection");
    let silence = Duration::from_millis(SILENCE_MILLISECONDS);
    server.set_up(Some(silence)).expect(rt, "a time-out");
    client.set_up(None).expect(rt, "no time-out");
    for (from, to) in [(client, &server), (&server, client)] {
        let word = passed(from, to).expect(rt, "a word");
        same(rt, "the word", word.as_slice(), WORD.as_slice());
    }
    same(rt, "silence ends a read", ends_by_silence(&server), true);
}

fn try_port<R: Net<Listener = TcpListener, Stream = TcpStream> + Abort>(rt: &R) {
    let listener = TcpListener::bind(rt, "127.0.0.1:0").expect(rt, "a port");
    let to = listener.local_addr().expect(rt, "an address");
    let client = TcpStream::connect(rt, to).expect(rt, "a connection");
    try_both_ways(rt, &Listener::Tcp(listener), &Stream::Tcp(client));
}

// A socket without a path gets a name from the system, and no file.
fn try_socket<R: Net + Files + Abort>(rt: &R) {
    let unnamed = SocketAddr::from_pathname("").expect(rt, "no path");
    let listener = UnixListener::bind_addr(rt, &unnamed).expect(rt, "a socket");
    let to = listener.local_addr().expect(rt, "a name");
    let client = UnixStream::connect_addr(rt, &to).expect(rt, "a connection");
    try_both_ways(rt, &Listener::Unix(listener), &Stream::Unix(client));
}

#[test]
fn connections_by_a_port_carry_bytes(rt: HostRuntime) {
    try_port(&rt);
}

#[test]
fn connections_by_a_socket_carry_bytes(rt: HostRuntime) {
    try_socket(&rt);
}
