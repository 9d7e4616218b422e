//! Connections that end by the silence of their clients.
ghost use Rattle.std.specs.Prelude.{◌≡◌};

use std::time::Duration;
use transports::Stream;

/// A client's connection. Each call on it that waits longer than so many seconds fails.
#[derive(Drop)]
pub struct Connection {
    stream: Stream,
    idle: Option<u32>,
}

impl Connection {
    /// Sets a stream up for such a silence. Without a number its calls wait for ever.
    pub fn of(stream: Stream, idle: Option<u32>) -> Self
        ensures { result.idle ≡ idle }
    {
        let silence = idle.map(|seconds| Duration::from_secs(u64::from(seconds)));
        let _ = stream.set_up(silence);
        Connection { stream, idle }
    }

    pub fn stream(&self) -> &Stream {
        &self.stream
    }
}
