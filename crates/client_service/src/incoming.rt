//! The clients that come to a listener, each counted once.
ghost use Rattle.std.specs.Prelude.{◌≡◌, ◌≢◌, ◌+◌, ◌<◌, OnOk, IfOk, IfErr};

use crate::connection::Connection;
use crate::failure::{AcceptFailure, failure_of};
use std::io;
use transports::Listener;

/// A listener, how many clients have come to it, and after how many seconds of silence their
/// connections end.
#[derive(Drop)]
pub struct Incoming {
    listener: Listener,
    came: u32,
    idle: Option<u32>,
}

impl Incoming {
    pub fn new(listener: Listener, idle: Option<u32>) -> Self
        ensures came { result.came ≡ 0 }
        ensures idle { result.idle ≡ idle }
    {
        Incoming {
            listener,
            came: 0,
            idle,
        }
    }

    /// Waits for the next client. One that left before it was accepted has come too.
    pub fn next(&mut self) -> Result<Connection, (AcceptFailure, io::Error)>
        requires { self.old.came < 4294967295 }
        ensures came { OnOk result (self.new.came ≡ self.old.came + 1) }
        ensures idle { IfOk result (λ connection. connection.idle ≡ self.old.idle) }
        ensures kept { self.new.idle ≡ self.old.idle }
        ensures left { IfErr result (λ why. why.0 ≡ AcceptFailure.OneClient
            → self.new.came ≡ self.old.came + 1) }
        ensures none { IfErr result (λ why. why.0 ≢ AcceptFailure.OneClient
            → self.new.came ≡ self.old.came) }
    {
        match self.listener.accept() {
            Ok(stream) => {
                self.came += 1;
                Ok(Connection::of(stream, self.idle))
            }
            Err(error) => {
                let failure = failure_of(&error);
                if failure == AcceptFailure::OneClient {
                    self.came += 1;
                }
                Err((failure, error))
            }
        }
    }

    /// How many have come.
    pub fn came(&self) -> u32
        ensures { result ≡ self.now.came }
    {
        self.came
    }

    /// Closes the listener. It returns how many came.
    pub fn close(self) -> u32
        ensures { result ≡ self.came }
    {
        self.came
    }
}
