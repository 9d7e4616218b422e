use disk_model::Disk;
use shared_capture::{Back, Front, Method};
use workers::{Gate, ImageWriter, Log};

/// A world whose start has ended: its two seats, and the keepers with their files.
#[derive(Drop)]
pub struct Opened<M: Method, D: Disk + Drop> {
    pub front: Front<M>,
    pub back: Back<M>,
    pub images: ImageWriter<D>,
    pub log: Log<D>,
    /// How many ticks have ended.
    pub ended: u64,
}

/// The gates of the workers, which may hold them.
#[derive(Drop)]
pub struct Gates<A: Gate + Drop, B: Gate + Drop, C: Gate + Drop> {
    pub mutator: A,
    pub checkpointer: B,
    pub log_writer: C,
}
