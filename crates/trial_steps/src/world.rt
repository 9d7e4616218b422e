use crate::flaky::Flaky;
use crate::hold::Hold;
use crate::opening::open_world;
use crate::stand::Stand;
use disk_model::FourFiles;
use shared_capture::Method;
use std::alloc::Global;
use std::sync::Wait;
use worker_steps::{Gates, Next, Together};
use workers::{AskReceiver, Checkpointer, LogWriter};
use world_actions::Refusal;

/// The reason why a world isn't opened.
#[derive(Drop)]
pub enum NotOpened {
    NoMemory,
    /// A call of these files failed.
    Failed(FourFiles<Flaky>),
}

/// The three workers of a world, which make their steps in one thread.
#[derive(Drop)]
pub struct World<M: Method> {
    workers: Together<M, Flaky, Hold, Hold, Hold>,
}

impl<M: Method> World<M> {
    /// Opens the world of these files, and begins its workers. They take these asks.
    pub fn open<R: Wait>(
        rt: &R,
        alloc: Global,
        files: FourFiles<Flaky>,
        gates: Gates<Hold, Hold, Hold>,
        asked: AskReceiver,
        every: u32,
    ) -> Result<Self, NotOpened> {
        match open_world::<M, Flaky>(alloc, files) {
            Ok(opened) => match Together::begin(rt, alloc, gates, opened, asked, every) {
                Ok(workers) => Ok(World { workers }),
                Err(_) => Err(NotOpened::NoMemory),
            },
            Err((_, Refusal::NoMemory)) => Err(NotOpened::NoMemory),
            Err((files, _)) => Err(NotOpened::Failed(files)),
        }
    }
}

impl<M: Method> World<M> {
    /// Makes a step.
    pub fn step<R: Wait>(&mut self, rt: &R, next: Next) {
        self.workers.step(rt, next);
    }

    /// How many ticks were pushed.
    pub fn ended(&self) -> u64 {
        self.workers.mutator.ended()
    }

    pub fn checkpointer(&self) -> &Checkpointer<M, Flaky, Hold> {
        &self.workers.checkpointer
    }

    pub fn log_writer(&self) -> &LogWriter<Flaky, Hold> {
        &self.workers.log_writer
    }

    /// The tick of the newest image.
    pub fn newest(&self) -> Option<u64> {
        match self.checkpointer().images().keeper.newest() {
            Some((_, tick)) => Some(tick),
            None => None,
        }
    }

    /// The files and the counts of the workers.
    pub fn stand(&self) -> Stand<'_> {
        Stand::of(self.checkpointer(), self.log_writer(), self.ended())
    }
}
