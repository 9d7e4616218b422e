use disk_model::Disk;
use worker_threads::{Acked, TickWatch, Watch};
use workers::{ImageWriter, Log};

/// Reports nothing. The workers are judged once they have ended.
#[derive(Clone, Copy)]
pub struct Quiet;

impl TickWatch for Quiet {
    fn ticks_ended(&mut self, _ticks: u64, _since: u64) {}
}

impl<D: Disk + Drop> Watch<D> for Quiet {
    fn image_opened(&mut self, _tick: u64) {}

    fn images_down(&mut self, _images: &ImageWriter<D>) {}

    fn ticks_acked(&mut self, _acked: Acked) {}

    fn log_down(&mut self, _acked: u64, _log: &Log<D>) {}
}
