use std::io;
use std::net::{Net, TcpStream};
use std::os::unix::net::UnixStream;
use transports::{LocalPort, Stream};

/// The address of a server.
#[derive(Clone, Copy, Debug)]
pub enum Address<'a> {
    /// A port of 127.0.0.1.
    Port(u16),
    /// The path of a socket's file.
    Socket(&'a str),
}

impl Address<'_> {
    /// Connects to the server, for batches that are answered one by one.
    pub fn connect<R: Net<Stream = TcpStream>>(self, rt: &R) -> io::Result<Stream> {
        let stream = match self {
            Address::Port(port) => {
                Stream::Tcp(TcpStream::connect(rt, LocalPort(port).address())?)
            }
            Address::Socket(path) => Stream::Unix(UnixStream::connect(rt, path)?),
        };
        stream.set_up(None)?;
        Ok(stream)
    }
}
