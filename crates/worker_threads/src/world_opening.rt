ghost use Rattle.std.specs.Prelude.{◌≡◌, ◌⊎◌, ℕ, List, false, length, IsTrue, IfOk, IfErr};
ghost use Rattle.std.specs.Prelude.{MatchResult};
ghost use Rattle.world_actions.specs.declared.action.Action.{Action};
ghost use Rattle.disk_model.specs.FourFiles.{EachFile, StaysFilled, fault_counts};
ghost use Rattle.image_files.specs.declared.phase.Phase.TheVariants.{Idle};
ghost use Rattle.engine.specs.Follows.{AreSound, Follows};
ghost use Rattle.engine.specs.Parts.{AreAtRest, AreSettled};
ghost use Rattle.engine.specs.Runs.{HasNewest, SomeGrew};
ghost use Rattle.world_start.specs.Steps.{IsAhead};
ghost use Rattle.worker_steps.specs.Begun.{IsWhole};
ghost use Rattle.worker_steps.specs.Stopped.{WorldStands};
ghost use Rattle.worker_threads.specs.Opening.{files_of};

use capture_core::Capture;
use disk_model::{Disk, FourFiles};
use engine::{Parts, followed_files_are_sound};
use shared_capture::{Method, seat_pair};
use std::alloc::Global;
use worker_steps::Opened;
use workers::{ImageWriter, Log};
use world_actions::Refusal;
use world_start::Start;

/// Opens a world for its workers that was recovered from its files, and runs its start to the end.
/// The front keeps the list of the recovered words. If it is refused, it gives the files back: they
/// still recover to that world. No crash empties a file that had a byte.
pub fn start_world<M: Method, C: Capture, D: Disk + Drop>(
    alloc: Global,
    begun: Start<C, D>,
) -> Result<Opened<M, D>, (FourFiles<D>, Refusal)>
    requires { IsAhead begun.engine begun.words.items }
    ensures whole { IfOk result (IsWhole D.Disk) }
    ensures words { IfOk result (λ opened. opened.front.live ≡ begun.words.items) }
    ensures ended { IfOk result (λ opened. opened.ended ≡ begun.engine.ended) }
    ensures stands { IsTrue D.honest
        → IfOk result (λ opened. (first : List ℕ) (ticks : List (List Action)) (acknowledged : ℕ)
        → Follows D.Disk begun.engine first ticks acknowledged
        → WorldStands D.Disk first ticks opened.front.live opened.images opened.log
        × (opened.ended ≡ length ticks)) }
    ensures sound { IsTrue D.honest → HasNewest begun.engine.images
        → (first : List ℕ) (ticks : List (List Action)) (acknowledged : ℕ)
        → Follows D.Disk begun.engine first ticks acknowledged
        → MatchResult result
        (λ opened. AreSound D.Disk (files_of opened.images opened.log)
        first ticks acknowledged)
        (λ refused. AreSound D.Disk refused.0 first ticks acknowledged) }
    ensures filled { IsTrue D.honest → MatchResult result
        (λ opened. EachFile begun.engine.files (files_of opened.images opened.log)
        (StaysFilled D.Disk))
        (λ refused. EachFile begun.engine.files refused.0 (StaysFilled D.Disk)) }
    ensures refused { IfErr result (λ refused. (refused.1 ≡ Refusal.NoMemory)
        ⊎ (refused.1 ≡ Refusal.Device)) }
    ensures device { IfErr result (λ refused. refused.1 ≡ Refusal.Device
        → SomeGrew (fault_counts D.faults begun.engine.files) (fault_counts D.faults refused.0)) }
{
    followed_files_are_sound::<D>();
    let mut begun = begun;
    match begun.engine.start() {
        Ok(()) => seated(alloc, begun.engine.into_parts(begun.words)),
        Err(refusal) => Err((begun.engine.into_files(), refusal)),
    }
}

/// The four files of two keepers.
pub fn into_files<D: Disk + Drop>(images: ImageWriter<D>, log: Log<D>) -> FourFiles<D>
    ensures { result ≡ files_of images log }
{
    let ImageWriter {
        keeper: _,
        image_a,
        image_b,
    } = images;
    let Log { keeper: _, a, b } = log;
    FourFiles {
        image_a,
        image_b,
        log_a: a,
        log_b: b,
    }
}

// Opens a world from its parts, once its start has ended, with two seats over its words.
fn seated<M: Method, D: Disk + Drop>(
    alloc: Global,
    parts: Parts<D>,
) -> Result<Opened<M, D>, (FourFiles<D>, Refusal)>
    requires rest { AreAtRest D.Disk parts }
    requires images { parts.images.phase ≡ Idle }
    requires log { parts.log.down ≡ false }
    requires none { parts.since ≡ 0 }
    ensures whole { IfOk result (IsWhole D.Disk) }
    ensures words { IfOk result (λ opened. opened.front.live ≡ parts.words.items) }
    ensures ended { IfOk result (λ opened. opened.ended ≡ parts.ended) }
    ensures files { IfOk result (λ opened. files_of opened.images opened.log ≡ parts.files) }
    ensures settled { IfOk result (λ opened. (first : List ℕ) (ticks : List (List Action))
        → AreSettled D.Disk parts first ticks
        → WorldStands D.Disk first ticks opened.front.live opened.images opened.log
        × (opened.ended ≡ length ticks)) }
    ensures refused { IfErr result (λ refused. (refused.0 ≡ parts.files)
        × (refused.1 ≡ Refusal.NoMemory)) }
{
    let files = parts.files;
    match seat_pair::<M>(alloc, parts.words) {
        Ok((front, back)) => Ok(Opened {
            front,
            back,
            images: ImageWriter {
                keeper: parts.images,
                image_a: files.image_a,
                image_b: files.image_b,
            },
            log: Log {
                keeper: parts.log,
                a: files.log_a,
                b: files.log_b,
            },
            ended: parts.ended,
        }),
        Err(refusal) => Err((files, refusal)),
    }
}
