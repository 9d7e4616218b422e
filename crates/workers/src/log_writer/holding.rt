//! The parts that the log writer holds while it posts answers.
use super::Log;
use crate::item_channel::ItemReceiver;
use action_log::Record;
use circular_buffer::HeapCircularBuffer;
use disk_model::Disk;
use shared_capture::SignalIn;
use std::marker::Model;
use std::snapshot::Snapshot;

/// The parts that are lent to each post, so that none of them changes while the post is made.
#[derive(Drop)]
pub struct Holding<'a, D: Disk + Drop> {
    pub(crate) opening: &'a Snapshot<Log<D>>,
    pub(crate) from: &'a ItemReceiver,
    pub(crate) covers: &'a SignalIn,
    pub(crate) log: &'a Log<D>,
    pub(crate) ring: &'a HeapCircularBuffer<Record>,
}

impl<'a, D: Disk + Drop> Model for Holding<'a, D> {
    ghost use Rattle.workers.specs.Logging.{Holding as Held};

    ghost Value = { Held D };

    ghost view = { λ h. record {
      opening = h.opening.now.value;
      from = h.from.now;
      covers = h.covers.now;
      log = h.log.now;
      ring = h.ring.now;
    } };
}
