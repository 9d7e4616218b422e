//! The lines of a running server.
ghost use Rattle.std.specs.Prelude.{◌≡◌, None, Some, IfSome};

use crate::acked::AckedOut;
use crate::endpoint::Endpoint;
use crate::kept::KeptFile;
use crate::line::{FailedFile, Line};
use crate::printer::Printer;
use crate::room::{Room, is_left_for_room};
use crate::standing::{Standing, is_overdue, passed_since};
use client_service::{Door, Pulse, Unserved};
use crossbeam_channel::Sender;
use disk_model::{FourFiles, WorldFile};
use file_disk::{FileDisk, Pace};
use std::alloc::{AllocError, Global};
use std::io;
use std::sync::{Arc, Wait};
use std::time::{Clock, Instant};
use worker_threads::{Acked, TickWatch, Watch};
use workers::{ImageWriter, Log};

/// Passes on what happens in a running server as lines, and never waits for their readers. It locks
/// the file that says what is down.
#[derive(Drop)]
pub struct Lines<R: Wait + Clock + Copy> {
    pub rt: R,
    /// The server listens there.
    pub endpoint: Arc<Endpoint, Global>,
    /// The files that it has open.
    pub files: Arc<FourFiles<KeptFile>, Global>,
    pub output: Printer,
    pub errors: Printer,
    pub standing: Arc<Standing, Global>,
    pub exits_when_log_down: bool,
    /// True if the server is left once its images are down and little room is left for ticks.
    pub exits_when_images_down: bool,
    /// For how many seconds it waits for clients once no more can come; without a number for ever.
    pub exit_when_closed: Option<u32>,
    /// The time since which no more can come, in the thread that accepts them.
    pub closed_at: Option<Instant>,
    /// The counts of the server, if its figures are printed or its world has a guard.
    pub pulse: Option<Arc<Pulse, Global>>,
    /// The pace of the image files.
    pub pace: Pace,
    /// The room for ticks, in the thread of the mutator.
    pub room: Room,
    /// Wakes the thread that looks at the server.
    pub wake: Sender<()>,
    /// Takes the acknowledged ticks, in the thread of the log writer, if the world has a guard. A
    /// clone has none.
    pub acked: Option<AckedOut>,
}

impl<R: Wait + Clock + Copy> Clone for Lines<R> {
    fn clone(&self) -> Result<Self, AllocError> {
        Ok(Lines {
            rt: self.rt,
            endpoint: self.endpoint.clone()?,
            files: self.files.clone()?,
            output: self.output.clone()?,
            errors: self.errors.clone()?,
            standing: self.standing.clone()?,
            exits_when_log_down: self.exits_when_log_down,
            exits_when_images_down: self.exits_when_images_down,
            exit_when_closed: self.exit_when_closed,
            closed_at: self.closed_at,
            pulse: match &self.pulse {
                Some(pulse) => Some(pulse.clone()?),
                None => None,
            },
            pace: self.pace.clone()?,
            room: self.room,
            wake: self.wake.clone()?,
            acked: None,
        })
    }
}

impl<R: Wait + Clock + Copy> Lines<R> {
    // Lets the server be left, and wakes it if it waits for clients.
    fn leave(&self) {
        self.standing.leave();
        self.wake();
    }

    // Wakes the thread that looks at the server. One that is awake already needs no second call.
    fn wake(&self) {
        let _ = self.wake.try_send(&self.rt, ());
    }

    // Prints how much room is left for ticks, and leaves the server if it may end by that.
    fn look_at_room(&mut self, since: u64) {
        let images_down = self.standing.are_images_down();
        if let Some(left) = self.room.used(since, images_down) {
            self.note(Line::RoomLeft(left));
        }
        if is_left_for_room(self.exits_when_images_down, images_down, since)
            && !self.standing.is_left()
        {
            self.leave();
        }
    }

    // Prints a line on standard error.
    fn note(&self, line: Line) {
        self.errors.print(&self.rt, line);
    }
}

impl<R: Wait + Clock + Copy> TickWatch for Lines<R> {
    fn ticks_ended(&mut self, ticks: u64, since: u64) {
        self.pace.ticks_ended(ticks);
        if let Some(pulse) = &self.pulse {
            pulse.ticks_ended(ticks, since);
        }
        self.look_at_room(since);
    }
}

impl<R: Wait + Clock + Copy> Watch<FileDisk> for Lines<R> {
    fn image_opened(&mut self, tick: u64) {
        if let Some(pulse) = &self.pulse {
            pulse.image_opened(tick);
        }
        self.standing.image_opened(tick);
        self.note(Line::ImageOpened(tick));
    }

    fn images_down(&mut self, images: &ImageWriter<FileDisk>) {
        self.standing.images_are_down();
        self.files.image_b.lock(&self.rt);
        let a = (WorldFile::ImageA, images.image_a.failure());
        let b = (WorldFile::ImageB, images.image_b.failure());
        self.note(Line::ImagesDown(first_failure(a, b)));
        self.wake();
    }

    fn ticks_acked(&mut self, acked: Acked) {
        if let Some(out) = &mut self.acked {
            out.raise(acked);
        }
    }

    fn log_down(&mut self, acked: u64, log: &Log<FileDisk>) {
        self.standing.log_is_down();
        self.files.log_a.lock(&self.rt);
        let a = (WorldFile::LogA, log.a.failure());
        let b = (WorldFile::LogB, log.b.failure());
        let failure = first_failure(a, b);
        self.note(Line::LogDown { acked, failure });
        if self.exits_when_log_down {
            self.leave();
        }
    }
}

impl<R: Wait + Clock + Copy> Door for Lines<R> {
    fn opened(&mut self) {
        self.output.print(&self.rt, self.endpoint.listening());
    }

    fn session_refused(&mut self, why: Unserved) {
        self.note(Line::SessionRefused(why));
    }

    fn shortage_began(&mut self, error: &io::Error) {
        self.note(Line::ShortageBegan(*error));
    }

    fn shortage_ended(&mut self) {
        self.note(Line::ShortageEnded);
    }

    fn listener_failed(&mut self, error: &io::Error) {
        self.standing.listener_is_down();
        self.note(Line::ListenerFailed(*error));
    }

    fn closed(&mut self) {
        self.closed_at = Instant::now(&self.rt).ok();
        self.note(self.endpoint.closed());
    }

    fn is_left(&self) -> bool {
        let passed = passed_since(&self.rt, self.closed_at);
        self.standing.is_left() || is_overdue(self.exit_when_closed, passed)
    }

    fn pulse(&self) -> Option<Arc<Pulse, Global>> {
        match &self.pulse {
            Some(pulse) => pulse.clone().ok(),
            None => None,
        }
    }
}

// The file of two that failed, and why.
fn first_failure(
    a: (WorldFile, Option<&io::Error>),
    b: (WorldFile, Option<&io::Error>),
) -> Option<FailedFile>
    ensures none { a.entry.1 ≡ None → b.entry.1 ≡ None → result ≡ None }
    ensures first { IfSome a.entry.1 (λ error. result
        ≡ Some (record { file = a.entry.0; error = error.now })) }
    ensures second { a.entry.1 ≡ None
        → IfSome b.entry.1 (λ error. result
        ≡ Some (record { file = b.entry.0; error = error.now })) }
{
    match (a, b) {
        ((file, Some(error)), _) | (_, (file, Some(error))) => Some(FailedFile {
            file,
            error: *error,
        }),
        _ => None,
    }
}
