//! The place where a server listens, as its threads know it.
ghost use Rattle.std.specs.Prelude.{◌≡◌};
ghost use Rattle.world_server.specs.Lines.{listening_line, closed_line};

use crate::line::Line;
use crate::socket::SocketFile;
use std::fs::Files;
use std::net::{Net, TcpStream};
use std::os::unix::net::UnixStream;
use std::time::Duration;
use transports::LocalPort;

/// How long the connection that wakes a server at a port may take.
const PATIENCE_MILLISECONDS: u64 = 100;

/// The port or the socket that a server listens on.
#[derive(Drop)]
pub enum Endpoint {
    Port(LocalPort),
    Socket(SocketFile),
}

impl Endpoint {
    /// Says that clients may come.
    pub fn listening(&self) -> Line
        ensures { result ≡ listening_line self.now }
    {
        match self {
            Endpoint::Port(port) => Line::Listening(port.0),
            Endpoint::Socket(_) => Line::ListeningAtSocket,
        }
    }

    /// Says that no more can come.
    pub fn closed(&self) -> Line
        ensures { result ≡ closed_line self.now }
    {
        match self {
            Endpoint::Port(_) => Line::PortClosed,
            Endpoint::Socket(_) => Line::SocketClosed,
        }
    }

    /// Wakes the server from a wait for clients, by its own connection. At a socket it waits while
    /// the system's queue of connections is full; a server with such a queue is awake.
    pub fn wake<R: Net>(&self, rt: &R) {
        match self {
            Endpoint::Port(port) => {
                let patience = Duration::from_millis(PATIENCE_MILLISECONDS);
                let _ = TcpStream::connect_timeout(rt, &port.address(), patience);
            }
            Endpoint::Socket(file) => {
                let _ = UnixStream::connect(rt, file.path.as_path());
            }
        }
    }

    /// Gives it up, at the server's end: the file of a socket is removed.
    pub fn leave<R: Files>(&self, rt: &R) {
        if let Endpoint::Socket(file) = self {
            file.remove(rt);
        }
    }
}
