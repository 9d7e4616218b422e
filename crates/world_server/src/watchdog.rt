//! A thread that looks at a running server twice a second, writes the guard of its world, and gives
//! signs of life.

use crate::endpoint::Endpoint;
use crate::guarding::GuardKeeper;
use crate::kept::KeptFile;
use crate::line::Line;
use crate::printer::Printer;
use crate::runtime::{LookUp, ThreadRuntime};
use crate::standing::{Standing, is_left_for_images, passed_since};
use crossbeam_channel::{Receiver, RecvTimeoutError, Sender, bounded};
use disk_model::{FourFiles, WorldFile};
use file_disk::{Valve, lock};
use std::alloc::Global;
use std::fs::File;
use std::io;
use std::sync::{Arc, Wait};
use std::thread::{self, Threads};
use std::time::{Clock, Duration, Instant};
use worker_threads::NotStarted;

/// How long it waits before it looks again, unless it is woken.
const PATIENCE_MILLISECONDS: u64 = 500;

/// The server that a thread looks at.
#[derive(Drop)]
pub struct Watched {
    /// The server listens there.
    pub endpoint: Arc<Endpoint, Global>,
    /// The files that it has open.
    pub files: Arc<FourFiles<KeptFile>, Global>,
    /// Their folder, if it could be opened. It is locked once a file was removed or replaced, so
    /// that the server is still seen.
    pub folder: Option<File>,
    pub errors: Printer,
    pub standing: Arc<Standing, Global>,
    /// After how many seconds without images it is left; without a number never.
    pub exit_when_images_down: Option<u32>,
    /// The valve of its log files, if it is left once a file was removed or replaced.
    pub valve: Option<Valve>,
    /// The time since which its images have been down.
    pub down_since: Option<Instant>,
    /// The thread looks at once each time that something comes here.
    pub woken: Receiver<()>,
    /// The guard of the world, if it has one.
    pub guard: Option<GuardKeeper>,
    /// Its receiver sees that the thread has ended, since this is dropped then.
    pub done: Sender<()>,
}

/// Starts a thread that waits for a server on the returned channel, and then looks at it twice a
/// second. It names the files that were removed or replaced. It wakes a server that is to be left
/// from its wait for clients. It ends then, or with the server.
pub fn start_watchdog<R: Threads + ThreadRuntime + Copy + Send + 'static>(
    rt: &R,
    alloc: Global,
) -> Result<Sender<Watched>, NotStarted> {
    let (to, begins) = bounded::<Watched, _>(alloc, 1)?;
    let here = *rt;
    let run = move || {
        if let Ok(watched) = begins.recv(&here) {
            watch(&here, watched);
        }
    };
    match thread::spawn(rt, run) {
        Ok(_) => Ok(to),
        Err(_) => Err(NotStarted::NoThread),
    }
}

fn watch<R: ThreadRuntime>(rt: &R, watched: Watched) {
    let mut watched = watched;
    let patience = Duration::from_millis(PATIENCE_MILLISECONDS);
    for _ in rt.forever() {
        if let Err(RecvTimeoutError::Disconnected) = watched.woken.recv_timeout(rt, patience) {
            watched.write_guard(rt);
            return;
        }
        watched.look(rt);
        if watched.standing.is_left() {
            watched.endpoint.wake(rt);
            watched.write_guard(rt);
            return;
        }
    }
}

impl Watched {
    // Looks at the files and the images.
    fn look<R: Wait + Clock + LookUp>(&mut self, rt: &R) {
        self.look_at_names(rt);
        self.look_at_images(rt);
        self.look_at_guard(rt);
    }

    fn look_at_names<R: Wait + Clock + LookUp>(&self, rt: &R) {
        self.look_at_name(rt, WorldFile::ImageA, &self.files.image_a);
        self.look_at_name(rt, WorldFile::ImageB, &self.files.image_b);
        self.look_at_name(rt, WorldFile::LogA, &self.files.log_a);
        self.look_at_name(rt, WorldFile::LogB, &self.files.log_b);
    }

    // True if a file was removed or replaced. The guard under its name may be another world's then.
    fn is_file_missed(&self) -> bool {
        self.files.image_a.is_missed()
            || self.files.image_b.is_missed()
            || self.files.log_a.is_missed()
            || self.files.log_b.is_missed()
    }

    // Writes the guard and gives a sign of life, if that is due and all files have their names.
    fn look_at_guard<R: Wait + Clock + LookUp>(&mut self, rt: &R) {
        if self.is_file_missed() {
            return;
        }
        let image = self.standing.image();
        let failed = match &mut self.guard {
            Some(guard) => {
                guard.heartbeat.look(rt, guard.folder.as_str());
                guard.look(rt, image)
            }
            None => None,
        };
        self.note_failed(rt, failed);
    }

    // Writes the last guard of a server, if all files have their names.
    fn write_guard<R: Wait + Clock + LookUp>(&mut self, rt: &R) {
        self.look_at_names(rt);
        if self.is_file_missed() {
            return;
        }
        let image = self.standing.image();
        let failed = match &mut self.guard {
            Some(guard) => guard.write(rt, image),
            None => None,
        };
        self.note_failed(rt, failed);
    }

    fn note_failed<R: Wait>(&self, rt: &R, failed: Option<io::Error>) {
        if let Some(error) = failed {
            self.errors.print(rt, Line::GuardFailed(error));
        }
    }

    // Says of a file once that it no longer stands under its name. The server is left then if that
    // is asked for, and answers no further tick.
    fn look_at_name<R: Wait + Clock + LookUp>(&self, rt: &R, file: WorldFile, kept: &KeptFile) {
        if !kept.is_newly_missed(rt) {
            return;
        }
        self.errors.print(rt, Line::FileMissed(file));
        if let Some(folder) = &self.folder {
            let _ = lock(rt, folder);
        }
        if let Some(valve) = &self.valve {
            valve.shut();
            self.standing.log_is_down();
            self.standing.leave();
        }
    }

    // Lets the server be left once its images have been down for as long as they may.
    fn look_at_images<R: Clock>(&mut self, rt: &R) {
        let images_down = self.standing.are_images_down();
        if images_down && self.down_since.is_none() {
            self.down_since = Instant::now(rt).ok();
        }
        let passed = passed_since(rt, self.down_since);
        if is_left_for_images(images_down, self.exit_when_images_down, passed) {
            self.standing.leave();
        }
    }
}
