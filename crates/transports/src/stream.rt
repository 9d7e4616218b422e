ghost use Rattle.std.specs.Io.{ReadsAtMost, WritesAtMost};

use std::io::{self, Read, Write};
use std::net::{Shutdown, TcpStream};
use std::os::unix::net::UnixStream;
use std::time::Duration;

/// How many bytes of a client that isn't heard any more are read at once, and how often.
const DRAINED_BYTES: usize = 4_096;

const DRAINED_PIECES: usize = 4_096;

/// For how many seconds each of these reads waits.
const DRAIN_PATIENCE_SECONDS: u64 = 1;

/// A connection. Dropping it closes it.
#[derive(Drop)]
pub enum Stream {
    Tcp(TcpStream),
    Unix(UnixStream),
}

impl Stream {
    /// Sets it up for lines that are answered one by one. Each call that waits longer than this
    /// silence fails; without one it waits for ever.
    pub fn set_up(&self, silence: Option<Duration>) -> io::Result<()> {
        match self {
            Stream::Tcp(stream) => {
                stream.set_read_timeout(silence)?;
                stream.set_write_timeout(silence)?;
                stream.set_nodelay(true)
            }
            Stream::Unix(stream) => {
                stream.set_read_timeout(silence)?;
                stream.set_write_timeout(silence)
            }
        }
    }

    /// Sends nothing more, and reads what the client still sends: up to its end, to a pause of a
    /// second or to 16 MiB. A connection that is closed over unread bytes is reset, and its client
    /// may lose what was sent last.
    pub fn drain(&self) -> io::Result<()> {
        self.end_sending()?;
        let mut piece = [0; DRAINED_BYTES];
        for _ in 0..DRAINED_PIECES {
            if self.receive(&mut piece)? == 0 {
                break;
            }
        }
        Ok(())
    }

    fn end_sending(&self) -> io::Result<()> {
        let patience = Some(Duration::from_secs(DRAIN_PATIENCE_SECONDS));
        match self {
            Stream::Tcp(stream) => {
                stream.set_read_timeout(patience)?;
                stream.shutdown(Shutdown::Write)
            }
            Stream::Unix(stream) => {
                stream.set_read_timeout(patience)?;
                stream.shutdown(Shutdown::Write)
            }
        }
    }

    // Reads once.
    fn receive(&self, into: &mut [u8]) -> io::Result<usize>
        ensures { ReadsAtMost result into.new }
    {
        match self {
            Stream::Tcp(stream) => (&*stream).read(into),
            Stream::Unix(stream) => (&*stream).read(into),
        }
    }

    // Writes once.
    fn send(&self, bytes: &[u8]) -> io::Result<usize>
        ensures { WritesAtMost result bytes.now }
    {
        match self {
            Stream::Tcp(stream) => (&*stream).write(bytes),
            Stream::Unix(stream) => (&*stream).write(bytes),
        }
    }
}

impl Read for &Stream {
    fn read(&mut self, into: &mut [u8]) -> io::Result<usize> {
        self.receive(into)
    }
}

impl Write for &Stream {
    fn write(&mut self, bytes: &[u8]) -> io::Result<usize> {
        self.send(bytes)
    }

    fn flush(&mut self) -> io::Result<()> {
        Ok(())
    }
}
