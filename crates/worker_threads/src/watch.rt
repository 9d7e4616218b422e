ghost use Rattle.std.specs.Prelude.{◌≡◌};

use disk_model::Disk;
use workers::{Gate, ImageWriter, Log, LogWriter};

/// The greatest tick that a log writer had acknowledged when this was made of it.
#[derive(Clone, Copy, Debug, PartialEq, Eq)]
pub struct Acked {
    tick: u64,
}

impl Acked {
    /// That tick of this log writer.
    pub(crate) fn of<D: Disk + Drop, G: Gate + Drop>(log_writer: &LogWriter<D, G>) -> Self
        ensures { result.tick ≡ log_writer.now.acked }
    {
        Acked {
            tick: log_writer.acked(),
        }
    }

    pub fn tick(self) -> u64
        ensures { result ≡ self.tick }
    {
        self.tick
    }
}

/// Gets the reports of the mutator, in the mutator's own thread. No call may wait, since that
/// holds up each batch.
pub trait TickWatch {
    /// Hears how many ticks have ended in all, and since the last mark or start. It is called after
    /// each batch, even after one that was refused.
    fn ticks_ended(&mut self, ticks: u64, since: u64);
}

/// Gets the reports of the workers, each in the worker's own thread. No call may wait, since that
/// holds up the worker.
pub trait Watch<D: Disk + Drop>: TickWatch {
    /// The image of this tick was opened.
    fn image_opened(&mut self, tick: u64);

    /// No image is written any more: a call of one of its files failed.
    fn images_down(&mut self, images: &ImageWriter<D>);

    /// Ticks up to this one are acknowledged. It is called after each turn of the log writer, also
    /// if there is no new one.
    fn ticks_acked(&mut self, acked: Acked);

    /// No tick after this one is acknowledged.
    fn log_down(&mut self, acked: u64, log: &Log<D>);
}
