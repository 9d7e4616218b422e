ghost use Rattle.worker_steps.specs.Begun.{IsWhole};

use disk_model::Disk;
use shared_capture::Method;
use std::alloc::Global;
use std::sync::Wait;
use std::thread::Threads;
use worker_steps::{Gates, Opened};
use worker_threads::{Acked, TickWatch, Watch, Workers, start};
use workers::{AskChannel, ImageWriter, Log, Open, Spins};
use world_actions::Refusal;

/// Reports nothing. Failures are seen at the end of a run.
#[derive(Clone, Copy)]
struct Quiet;

impl TickWatch for Quiet {
    fn ticks_ended(&mut self, _ticks: u64, _since: u64) {}
}

impl<D: Disk + Drop> Watch<D> for Quiet {
    fn image_opened(&mut self, _tick: u64) {}

    fn images_down(&mut self, _images: &ImageWriter<D>) {}

    fn ticks_acked(&mut self, _acked: Acked) {}

    fn log_down(&mut self, _acked: u64, _log: &Log<D>) {}
}

/// Starts workers that nothing holds and that report nothing.
pub fn start_quiet<
    R: Threads + Wait + Copy + Send + 'static,
    M: Method + Send + 'static,
    D: Disk + Drop + Send + 'static,
>(
    rt: &R,
    alloc: Global,
    opened: Opened<M, D>,
    every: u32,
) -> Result<(Workers<M, D, Open, Open, Open>, AskChannel), Refusal>
    requires { IsWhole D.Disk opened }
{
    let gates = Gates {
        mutator: Open,
        checkpointer: Open,
        log_writer: Open,
    };
    let spins = Spins::on_this_machine(rt, alloc)?;
    match start(rt, alloc, gates, Quiet, opened, every, &spins) {
        Ok(started) => Ok(started),
        Err(_) => Err(Refusal::NoMemory),
    }
}
