ghost use Rattle.std.specs.Prelude.{◌≤◌, IfOk};
ghost use Rattle.world_actions.specs.declared.world.TheConstants.{CELLS};
ghost use Rattle.worker_steps.specs.Begun.{IsWhole};

use capture_core::PlainCopy;
use client_service::{Door, Unserved};
use crossbeam_channel::Sender;
use disk_model::{Disk, FourFiles, Fused, ModelFile};
use recovery::recover;
use shared_capture::Method;
use std::alloc::{AllocError, Global};
use std::io;
use std::process::Abort;
use std::sync::Wait;
use worker_steps::Opened;
use worker_threads::{Acked, TickWatch, Watch, start_world};
use workers::{ImageWriter, Log};
use world_actions::Refusal;
use world_start::{fresh_files, recover_world};

/// The reports of a running world.
#[derive(Clone, Copy, Debug, PartialEq, Eq)]
pub enum Report {
    ImageOpened(u64),
    ImagesDown,
    LogDown(u64),
    Opened,
    SessionRefused,
    Shortage,
    ListenerFailed,
    Closed,
}

/// Passes each report on.
#[derive(Drop)]
pub struct Reporter<R: Wait + Copy> {
    pub rt: R,
    pub to: Sender<Report>,
}

impl<R: Wait + Copy> Reporter<R> {
    fn report(&self, reported: Report) {
        let _ = self.to.send(&self.rt, reported);
    }
}

impl<R: Wait + Copy> Clone for Reporter<R> {
    fn clone(&self) -> Result<Self, AllocError> {
        Ok(Reporter {
            rt: self.rt,
            to: self.to.clone()?,
        })
    }
}

impl<R: Wait + Copy> TickWatch for Reporter<R> {
    fn ticks_ended(&mut self, _ticks: u64, _since: u64) {}
}

impl<R: Wait + Copy, D: Disk + Drop> Watch<D> for Reporter<R> {
    fn image_opened(&mut self, tick: u64) {
        self.report(Report::ImageOpened(tick));
    }

    fn images_down(&mut self, _images: &ImageWriter<D>) {
        self.report(Report::ImagesDown);
    }

    fn ticks_acked(&mut self, _acked: Acked) {}

    fn log_down(&mut self, acked: u64, _log: &Log<D>) {
        self.report(Report::LogDown(acked));
    }
}

impl<R: Wait + Copy> Door for Reporter<R> {
    fn opened(&mut self) {
        self.report(Report::Opened);
    }

    fn session_refused(&mut self, _why: Unserved) {
        self.report(Report::SessionRefused);
    }

    fn shortage_began(&mut self, _error: &io::Error) {
        self.report(Report::Shortage);
    }

    fn shortage_ended(&mut self) {}

    fn listener_failed(&mut self, _error: &io::Error) {
        self.report(Report::ListenerFailed);
    }

    fn closed(&mut self) {
        self.report(Report::Closed);
    }

    fn is_left(&self) -> bool {
        false
    }
}

fn file_of(rt: &impl Abort, alloc: Global, bytes: &[u8]) -> ModelFile {
    let bytes = Vec::from_slice(alloc, bytes).expect(rt, "memory for bytes");
    ModelFile::new(alloc, bytes).expect(rt, "memory for a file")
}

/// Four files. image.a has these bytes, and the others have none.
pub fn files_of(rt: &impl Abort, alloc: Global, image: &[u8]) -> FourFiles<ModelFile> {
    FourFiles {
        image_a: file_of(rt, alloc, image),
        image_b: file_of(rt, alloc, &[]),
        log_a: file_of(rt, alloc, &[]),
        log_b: file_of(rt, alloc, &[]),
    }
}

/// The files of a new world.
pub fn new_files(rt: &impl Abort, alloc: Global, cells: u32) -> FourFiles<ModelFile>
    requires { (1 ≤ cells) × (cells ≤ CELLS) }
{
    match fresh_files(alloc, cells, files_of(rt, alloc, &[])) {
        Ok(files) => files,
        Err((_, refusal)) => panic!(rt; "no new world: {refusal}"),
    }
}

/// The files of a new world of two cells. Each of them can be made to fail.
pub fn fused_files(rt: &impl Abort, alloc: Global) -> FourFiles<Fused<ModelFile>> {
    let FourFiles {
        image_a,
        image_b,
        log_a,
        log_b,
    } = new_files(rt, alloc, 2);
    FourFiles {
        image_a: Fused::new(image_a),
        image_b: Fused::new(image_b),
        log_a: Fused::new(log_a),
        log_b: Fused::new(log_b),
    }
}

/// The world in these files, recovered and started for its workers, and the tick of the image that
/// it was built from.
pub fn open_world<M: Method, D: Disk + Drop>(
    alloc: Global,
    files: FourFiles<D>,
) -> Result<(Opened<M, D>, u64), (FourFiles<D>, Refusal)>
    ensures { IfOk result (λ made.
        IsWhole D.Disk made.0) }
{
    let begun = recover_world::<PlainCopy, D>(alloc, files)?;
    let from = begun.from;
    let opened = start_world(alloc, begun)?;
    Ok((opened, from))
}

/// The world in these files, for its workers.
pub fn open_files<M: Method, D: Disk + Drop>(
    rt: &impl Abort,
    alloc: Global,
    files: FourFiles<D>,
) -> Opened<M, D>
    ensures { IsWhole D.Disk result }
{
    match open_world::<M, D>(alloc, files) {
        Ok((opened, _)) => opened,
        Err((_, refusal)) => panic!(rt; "no world: {refusal}"),
    }
}

/// Recovers a world of two cells from these bytes. Its second cell has to be 0. Returns the tick,
/// that of the image, and the word of the first cell.
pub fn found_in(
    rt: &impl Abort,
    alloc: Global,
    image_a: &[u8],
    image_b: &[u8],
    log_a: &[u8],
    log_b: &[u8],
) -> (u64, u64, u64) {
    let found = recover(alloc, image_a, image_b, log_a, log_b).expect(rt, "a world that stands");
    match found.words.as_slice() {
        [word, 0] => (found.tick, found.from, *word),
        _ => panic!(rt; "another world"),
    }
}

/// Does the same on the durable bytes of the files of workers.
pub fn stands_in(
    rt: &impl Abort,
    alloc: Global,
    images: &ImageWriter<ModelFile>,
    log: &Log<ModelFile>,
) -> (u64, u64, u64) {
    found_in(
        rt,
        alloc,
        images.image_a.durable(),
        images.image_b.durable(),
        log.a.durable(),
        log.b.durable(),
    )
}

/// Does the same on files that can be made to fail.
pub fn stands_in_fused(
    rt: &impl Abort,
    alloc: Global,
    images: &ImageWriter<Fused<ModelFile>>,
    log: &Log<Fused<ModelFile>>,
) -> (u64, u64, u64) {
    found_in(
        rt,
        alloc,
        images.image_a.inner().durable(),
        images.image_b.inner().durable(),
        log.a.inner().durable(),
        log.b.inner().durable(),
    )
}
