ghost use Rattle.std.specs.Prelude.{◌≡◌, ◌≤◌, [], All, IsTrue, IfOk, IfErr, length};
ghost use Rattle.world_actions.specs.World.{IsWord};
ghost use Rattle.world_actions.specs.declared.world.TheConstants.{CELLS};
ghost use Rattle.world_ticks.specs.declared.tick.TheConstants.{TICK_MAX};
ghost use Rattle.image_files.specs.Files.{HoldsNewest};
ghost use Rattle.image_files.specs.Progress.{made_keeper};
ghost use Rattle.action_log.specs.Progress.{begun};
ghost use Rattle.restart.specs.Start.{has_round, started_keeper, IsBuilt};
ghost use Rattle.restart.specs.Start.{is_shut as is_shut_file};
ghost use Rattle.restart.specs.declared.start.TheConstants.{QUEUE_RECORDS};
ghost use Rattle.engine.specs.Begins.{AreGates, Begins};

use crate::engine::Engine;
use action_log::{LogKeeper, Record, log_outcomes, log_queues};
use capture_core::Capture;
use circular_buffer::HeapCircularBuffer;
use disk_model::{Disk, FourFiles};
use image_files::{ImageKeeper, Slot, images_stay, is_shut};
use restart::{QUEUE_RECORDS, has_round, store_of};
use std::alloc::Global;
use world_actions::Refusal;
use world_ticks::Tick;

impl<C: Capture, D: Disk> Engine<C, D> {
    /// The world at the beginning of a start: at this tick, with these words, from this newest
    /// image. `shut` says which of the files are shut. It takes all memory that the world needs
    /// besides its ticks. If memory runs out, it gives the files back.
    pub fn begin(
        alloc: Global,
        newest: Option<(Slot, u64)>,
        tick: u64,
        words: &[u64],
        shut: FourFiles<bool>,
        files: FourFiles<D>,
    ) -> Result<Self, (FourFiles<D>, Refusal)>
        requires some { 1 ≤ length words.now }
        requires few { length words.now ≤ CELLS }
        requires numbered { tick ≤ TICK_MAX }
        requires words { All IsWord words.now }
        requires gates { IsTrue D.honest → AreGates D.content files shut }
        requires newest { IsTrue D.honest → HoldsNewest (length words.now) newest
            (D.content files.image_a) (D.content files.image_b) }
        ensures begins { IfOk result (Begins newest tick words.now shut files) }
        ensures memory { IfErr result (λ refused. (refused.0 ≡ files)
            × (refused.1 ≡ Refusal.NoMemory)) }
    {
        images_stay::<D>();
        log_outcomes::<D>();
        log_queues();
        let round = has_round(newest, tick);
        match Made::<C>::new(alloc, newest, tick, words, round, shut) {
            Ok(
                Made {
                    store,
                    queue,
                    images,
                    log,
                },
            ) => Ok(Engine {
                alloc,
                store,
                running: Tick::new(alloc),
                ended: tick,
                since: 0,
                queue,
                images,
                log,
                files,
            }),
            Err(refusal) => Err((files, refusal)),
        }
    }
}

// All of a new world that takes memory.
#[derive(Drop)]
struct Made<C: Capture> {
    store: C,
    queue: HeapCircularBuffer<Record>,
    images: ImageKeeper,
    log: LogKeeper,
}

impl<C: Capture> Made<C> {
    fn new(
        alloc: Global,
        newest: Option<(Slot, u64)>,
        tick: u64,
        words: &[u64],
        round: bool,
        shut: FourFiles<bool>,
    ) -> Result<Self, Refusal>
        requires some { 1 ≤ length words.now }
        requires few { length words.now ≤ CELLS }
        requires numbered { tick ≤ TICK_MAX }
        requires words { All IsWord words.now }
        ensures store { IfOk result (λ made. IsBuilt words.now round (C.content made.store)) }
        ensures queue { IfOk result (λ made. made.queue.items ≡ []) }
        ensures ring { IfOk result (λ made. made.queue.capacity ≡ QUEUE_RECORDS) }
        ensures images { IfOk result (λ made. made.images ≡ started_keeper round tick
            (made_keeper (length words.now) newest shut.image_a shut.image_b)) }
        ensures log { IfOk result (λ made. made.log ≡ begun tick shut.log_a shut.log_b) }
        ensures memory { IfErr result (λ refusal. refusal ≡ Refusal.NoMemory) }
    {
        let cells = words.len() as u32;
        let shut_images = [shut.image_a, shut.image_b];
        let mut images = ImageKeeper::new(alloc, cells, newest, shut_images)?;
        if round {
            images.begin(tick);
        }
        Ok(Made {
            store: store_of(alloc, words, round)?,
            queue: HeapCircularBuffer::with_capacity(alloc, QUEUE_RECORDS)?,
            images,
            log: LogKeeper::new(alloc, tick, [shut.log_a, shut.log_b])?,
        })
    }
}

/// True if a file with these bytes is shut: its gate is there and isn't open.
pub fn known_shut(bytes: &[u8]) -> bool
    ensures { result ≡ is_shut_file bytes.now }
{
    is_shut(bytes)
}
