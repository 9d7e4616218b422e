ghost use Rattle.std.specs.Prelude.{◌≡◌, [], ℕ, List, false, All, IsTrue};
ghost use Rattle.world_actions.specs.World.{IsWord};
ghost use Rattle.world_actions.specs.declared.action.Action.{Action};
ghost use Rattle.image_files.specs.declared.phase.Phase.TheVariants.{Idle};
ghost use Rattle.engine.specs.World.{IsAtRest};
ghost use Rattle.engine.specs.Follows.{Follows};
ghost use Rattle.engine.specs.Parts.{AreAtRest, AreSettled};

use crate::engine::Engine;
use crate::laws::keeper_laws;
use action_log::LogKeeper;
use capture_core::Capture;
use disk_model::{Disk, FourFiles};
use image_files::ImageKeeper;

/// The parts of a world at rest, for callers that continue with it in another way.
#[derive(Drop)]
pub struct Parts<D: Disk> {
    /// The words, in the order of their cells.
    pub words: Vec<u64>,
    pub images: ImageKeeper,
    pub log: LogKeeper,
    pub files: FourFiles<D>,
    /// How many ticks have ended.
    pub ended: u64,
    /// How many of them since the last mark or start.
    pub since: u64,
}

impl<C: Capture, D: Disk> Engine<C, D> {
    /// Takes apart a world at rest that has these words. It takes no memory, and copies no word.
    pub fn into_parts(self, words: Vec<u64>) -> Parts<D>
        requires rest { IsAtRest self }
        requires words { words.items ≡ self.content.live }
        requires limit { All IsWord words.items }
        ensures words { result.words ≡ words }
        ensures images { result.images ≡ self.images }
        ensures log { result.log ≡ self.log }
        ensures files { result.files ≡ self.files }
        ensures ticks { (result.ended ≡ self.ended) × (result.since ≡ self.since) }
        ensures none_queued { result.log.down ≡ false → self.queue ≡ [] }
        ensures rest { AreAtRest D.Disk result }
        ensures settled { result.log.down ≡ false → result.images.phase ≡ Idle → result.since ≡ 0
            → (first : List ℕ) (ticks : List (List Action)) (acknowledged : ℕ)
            → Follows D.Disk self first ticks acknowledged → AreSettled D.Disk result first ticks }
    {
        keeper_laws::<D>();
        let Engine {
            alloc: _,
            store: _,
            running: _,
            ended,
            since,
            queue: _,
            images,
            log,
            files,
        } = self;
        Parts {
            words,
            images,
            log,
            files,
            ended,
            since,
        }
    }

    /// Gives the files back, as they are.
    pub fn into_files(self) -> FourFiles<D>
        ensures { result ≡ self.files }
    {
        let Engine {
            alloc: _,
            store: _,
            running: _,
            ended: _,
            since: _,
            queue: _,
            images: _,
            log: _,
            files,
        } = self;
        files
    }
}
