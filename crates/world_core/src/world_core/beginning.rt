ghost use Rattle.std.specs.Prelude.{◌≡◌, ◌≢◌, ◌⊎◌, ◌↔◌, ◌≤◌, All, Err, IsTrue, IfOk, IfErr};
ghost use Rattle.std.specs.Prelude.{length};
ghost use Rattle.world_actions.specs.World.{IsWord};
ghost use Rattle.world_actions.specs.declared.world.TheConstants.{CELLS};
ghost use Rattle.world_ticks.specs.declared.tick.TheConstants.{TICK_MAX};
ghost use Rattle.disk_model.specs.CrashOutcome.{IsCrashOutcome};
ghost use Rattle.image_files.specs.Files.{HoldsNewest};
ghost use Rattle.recovery.specs.Recovery.{Recovers};
ghost use Rattle.world_core.specs.Starting.{HasOnly, AreFiles, Begins, StandsOn};

use crate::laws::{File, safety_laws};
use crate::moves::Answer;
use crate::world_core::Core;
use capture_core::Capture;
use disk_model::{FourFiles, Fused, ModelFile};
use engine::{Engine, known_shut};
use image_files::Slot;
use recovery::{Recovered, recover};
use restart::zeros;
use std::alloc::Global;
use world_actions::Refusal;

impl<C: Capture> Core<C> {
    // The engine at the beginning of a start: at this tick, with these words, from this newest
    // image, on files with these bytes.
    pub(super) fn begin(
        alloc: Global,
        newest: Option<(Slot, u64)>,
        tick: u64,
        words: &[u64],
        left: FourFiles<Vec<u8>>,
    ) -> Result<Engine<C, File>, Refusal>
        requires some { 1 ≤ length words.now }
        requires few { length words.now ≤ CELLS }
        requires numbered { tick ≤ TICK_MAX }
        requires words { All IsWord words.now }
        requires newest { HoldsNewest (length words.now) newest
            left.image_a.items left.image_b.items }
        ensures begins { IfOk result (Begins newest tick words.now
            left.image_a.items left.image_b.items left.log_a.items left.log_b.items) }
        ensures memory { IfErr result (λ refusal. refusal ≡ Refusal.NoMemory) }
    {
        safety_laws();
        let shut = FourFiles {
            image_a: known_shut(&left.image_a),
            image_b: known_shut(&left.image_b),
            log_a: known_shut(&left.log_a),
            log_b: known_shut(&left.log_b),
        };
        let files = files_of(alloc, left)?;
        match Engine::begin(alloc, newest, tick, words, shut, files) {
            Ok(engine) => Ok(engine),
            Err((_files, refusal)) => Err(refusal),
        }
    }

    // True if a crash may leave these bytes of the four files.
    pub(super) fn allows(&self, left: &FourFiles<Vec<u8>>) -> bool
        ensures { IsTrue result
            ↔ (IsCrashOutcome self.now.files.image_a.inner left.now.image_a.items
            × IsCrashOutcome self.now.files.image_b.inner left.now.image_b.items
            × IsCrashOutcome self.now.files.log_a.inner left.now.log_a.items
            × IsCrashOutcome self.now.files.log_b.inner left.now.log_b.items) }
    {
        let files = self.engine.files();
        files.image_a.inner().allows(&left.image_a)
            && files.image_b.inner().allows(&left.image_b)
            && files.log_a.inner().allows(&left.log_a)
            && files.log_b.inner().allows(&left.log_b)
    }

    // Recovers these files. The engine that begins the start from the result is new, and nothing
    // of an old one is kept.
    pub(super) fn stand_on(
        alloc: Global,
        cells: u32,
        left: FourFiles<Vec<u8>>,
    ) -> Result<(Engine<C, File>, Answer), Refusal>
        requires { (1 ≤ cells) × (cells ≤ CELLS) }
        ensures stands { IfOk result (λ made. StandsOn cells
            left.image_a.items left.image_b.items left.log_a.items left.log_b.items made.1 made.0) }
        ensures refused { IfErr result (λ refusal. (refusal ≡ Refusal.NoMemory)
            ⊎ ((refusal ≢ Refusal.NoImage)
            × Recovers left.image_a.items left.image_b.items left.log_a.items
            left.log_b.items (Err refusal))) }
    {
        safety_laws();
        match recover(
            alloc,
            &left.image_a,
            &left.image_b,
            &left.log_a,
            &left.log_b,
        ) {
            Ok(found) => {
                let Recovered {
                    tick,
                    from,
                    slot,
                    words,
                } = found;
                let engine = Core::begin(alloc, Some((slot, from)), tick, &words, left)?;
                Ok((engine, Answer::Recovered { tick, from }))
            }
            Err(Refusal::NoImage) => {
                let words = zeros(alloc, cells)?;
                let engine = Core::begin(alloc, None, 0, &words, left)?;
                Ok((engine, Answer::Blank))
            }
            Err(refusal) => Err(refusal),
        }
    }
}

// Files of which these bytes are durable.
fn files_of(alloc: Global, left: FourFiles<Vec<u8>>) -> Result<FourFiles<File>, Refusal>
    ensures files { IfOk result (AreFiles left.image_a.items left.image_b.items
        left.log_a.items left.log_b.items) }
    ensures memory { IfErr result (λ refusal. refusal ≡ Refusal.NoMemory) }
{
    let FourFiles {
        image_a,
        image_b,
        log_a,
        log_b,
    } = left;
    Ok(FourFiles {
        image_a: file_of(alloc, image_a)?,
        image_b: file_of(alloc, image_b)?,
        log_a: file_of(alloc, log_a)?,
        log_b: file_of(alloc, log_b)?,
    })
}

// A file of which these bytes are durable.
fn file_of(alloc: Global, bytes: Vec<u8>) -> Result<File, Refusal>
    ensures only { IfOk result (λ file. HasOnly bytes.items file) }
    ensures memory { IfErr result (λ refusal. refusal ≡ Refusal.NoMemory) }
{
    Ok(Fused::new(ModelFile::new(alloc, bytes)?))
}
