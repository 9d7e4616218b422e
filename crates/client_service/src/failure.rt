//! Why an `accept` failed, and how long accepting waits after a shortage.
ghost use Rattle.std.specs.Prelude.{◌≡◌, ◌≢◌, ◌≤◌, ℤ, pos, Some, None};
ghost use Rattle.std.specs.IoError.{raw_os_error};
ghost use Rattle.client_service.specs.Accepting.{next_pause};

use crate::door::Door;
use libc::{ECONNABORTED, EINTR, EMFILE, ENOMEM};
use std::time::{Clock, Duration};
use std::{io, thread};

// Error numbers of the system that `libc` lacks.
const ENFILE: i32 = 23;

const ENOBUFS: i32 = 105;

/// Why an `accept` failed, by what follows for the next one.
#[derive(Clone, Copy, Debug, PartialEq, Eq)]
pub enum AcceptFailure {
    /// A signal interrupted it.
    Interrupted,
    /// The one client that had come has left.
    OneClient,
    /// There is no descriptor or no memory, which passes.
    Shortage,
    /// The listener accepts no more.
    Listener,
}

/// The failure that an error of `accept` means.
pub fn failure_of(error: &io::Error) -> AcceptFailure
    ensures interrupted { raw_os_error error.now ≡ Some (pos 4)
        → result ≡ AcceptFailure.Interrupted }
    ensures no_memory { raw_os_error error.now ≡ Some (pos 12) → result ≡ AcceptFailure.Shortage }
    ensures no_descriptor_of_the_system { raw_os_error error.now ≡ Some (pos 23)
        → result ≡ AcceptFailure.Shortage }
    ensures no_descriptor_of_the_process { raw_os_error error.now ≡ Some (pos 24)
        → result ≡ AcceptFailure.Shortage }
    ensures one_client { raw_os_error error.now ≡ Some (pos 103)
        → result ≡ AcceptFailure.OneClient }
    ensures no_buffer { raw_os_error error.now ≡ Some (pos 105) → result ≡ AcceptFailure.Shortage }
    ensures other { (code : ℤ) → raw_os_error error.now ≡ Some code → code ≢ pos 4
        → code ≢ pos 12 → code ≢ pos 23
        → code ≢ pos 24 → code ≢ pos 103 → code ≢ pos 105 → result ≡ AcceptFailure.Listener }
    ensures none { raw_os_error error.now ≡ None → result ≡ AcceptFailure.Listener }
{
    match error.raw_os_error() {
        Some(EINTR) => AcceptFailure::Interrupted,
        Some(ENOMEM | ENFILE | EMFILE | ENOBUFS) => AcceptFailure::Shortage,
        Some(ECONNABORTED) => AcceptFailure::OneClient,
        _ => AcceptFailure::Listener,
    }
}

/// How many milliseconds accepting waits when a shortage begins.
const FIRST_PAUSE: u64 = 10;

/// How many it waits at most.
const LONGEST_PAUSE: u64 = 1_000;

/// The shortage that accepting waits for, if there is one.
#[derive(Clone, Copy)]
pub struct Shortage {
    /// How many milliseconds it waited last, 0 outside a shortage.
    pause: u64,
    ghost bounded: { pause ≤ 1000 },
}

impl Shortage {
    /// No shortage.
    pub fn none() -> Self
        ensures { result.pause ≡ 0 }
    {
        Shortage { pause: 0 }
    }

    /// Waits twice as long as it did before, up to a second. The door hears of the first wait.
    pub fn wait<R: Clock, W: Door>(&mut self, rt: &R, door: &mut W, error: &io::Error)
        ensures { self.new.pause ≡ next_pause self.old.pause }
    {
        self.pause = if self.pause == 0 {
            door.shortage_began(error);
            FIRST_PAUSE
        } else {
            (2 * self.pause).min(LONGEST_PAUSE)
        };
        thread::sleep(rt, Duration::from_millis(self.pause));
    }

    /// A connection came: the door hears of it after a shortage.
    pub fn pass<W: Door>(&mut self, door: &mut W)
        ensures { self.new.pause ≡ 0 }
    {
        if self.pause > 0 {
            door.shortage_ended();
            self.pause = 0;
        }
    }
}
