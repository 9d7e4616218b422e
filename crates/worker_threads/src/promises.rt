//! The promises of the joins: each join states facts about the worker that it brings back.
use disk_model::Disk;
use shared_capture::Method;
use std::snapshot::Snapshot;
use std::thread::Promise;
use workers::{Checkpointer, Gate, LogWriter, Mutator};

/// The mutator that ends is the one that began.
#[derive(Drop)]
pub(crate) struct SameMutator<M: Method, G: Gate + Drop>(pub(crate) Snapshot<Mutator<M, G>>);

impl<M: Method, G: Gate + Drop> Promise<Mutator<M, G>> for SameMutator<M, G> {
    ghost use Rattle.worker_threads.specs.Kept.{StopsFront};

    ghost kept_by = { λ p m. StopsFront p.0.value m };
}

/// The checkpointer that ends is the one that began.
#[derive(Drop)]
pub(crate) struct SameCheckpointer<M: Method, D: Disk + Drop, G: Gate + Drop>(
    pub(crate) Snapshot<Checkpointer<M, D, G>>,
);

impl<M: Method, D: Disk + Drop, G: Gate + Drop> Promise<Checkpointer<M, D, G>>
    for SameCheckpointer<M, D, G> {
    ghost use Rattle.worker_threads.specs.Kept.{StopsBack};

    ghost kept_by = { λ p c. StopsBack p.0.value c };
}

/// The log writer that ends is the one that began.
#[derive(Drop)]
pub(crate) struct SameLogWriter<D: Disk + Drop, G: Gate + Drop>(
    pub(crate) Snapshot<LogWriter<D, G>>,
);

impl<D: Disk + Drop, G: Gate + Drop> Promise<LogWriter<D, G>> for SameLogWriter<D, G> {
    ghost use Rattle.worker_threads.specs.Kept.{StopsLog};

    ghost kept_by = { λ p w. StopsLog p.0.value w };
}
