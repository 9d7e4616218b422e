ghost use Rattle.std.specs.Prelude.{◌≡◌, ◌≤◌, IfOk, IfErr};
ghost use Rattle.world_actions.specs.declared.world.TheConstants.{CELLS};
ghost use Rattle.world_core.specs.Past.{past_of, fresh_past};
ghost use Rattle.world_core.specs.State.{State};
ghost use Rattle.world_core.specs.Starting.{BeginsFresh};
ghost use Rattle.world_core.specs.Facts.{IsCoreAt};
ghost use Rattle.world_core.specs.Headline.{Headline, Runs};
ghost use Rattle.world_core.specs.Written.{NoneIsEmpty};
ghost use Rattle.world_core.specs.Plain.{AreAnswered, HasRun};

use crate::laws::{cores_stay_written, safety_laws};
use crate::moves::{Answer, Move};
use crate::world_core::Core;
use capture_core::Capture;
use std::alloc::Global;
use world_actions::Refusal;

/// Runs moves over a fresh world, and returns one answer for each and the core after them. Whatever
/// a crash leaves of its files then, recovery gives the world after the first ended ticks, and all
/// acknowledged ones are among them. Each open image is the world after exactly its tick. `written`
/// says which files no crash leaves empty. Each move gets its refusal or its plain answer, and
/// a crash that isn't refused the result of recovery. `Core::step` continues with the core from
/// there.
pub fn run<C: Capture>(
    alloc: Global,
    cells: u32,
    moves: Vec<Move>,
) -> Result<(Vec<Answer>, Core<C>), Refusal>
    requires { (1 ≤ cells) × (cells ≤ CELLS) }
    ensures headline { IfOk result (λ r. Headline cells moves.items r.0.items (record {
      image_a = r.1.files.image_a.inner;
      image_b = r.1.files.image_b.inner;
      log_a = r.1.files.log_a.inner;
      log_b = r.1.files.log_b.inner;
    })) }
    ensures written { IfOk result (λ r. NoneIsEmpty (record {
      image_a = r.1.files.image_a.inner;
      image_b = r.1.files.image_b.inner;
      log_a = r.1.files.log_a.inner;
      log_b = r.1.files.log_b.inner;
    })) }
    ensures plain { IfOk result (λ r. AreAnswered cells fresh_past moves.items r.0.items) }
    ensures stands { IfOk result (λ r. IsCoreAt (past_of fresh_past moves.items r.0.items) r.1) }
    ensures cells { IfOk result (λ r. r.1.images.cells ≡ cells) }
    ensures answers { IfOk result (λ r. (first : State) × BeginsFresh cells first
        × Runs fresh_past first moves.items r.0.items r.1) }
    ensures memory { IfErr result (λ refusal. refusal ≡ Refusal.NoMemory) }
{
    safety_laws();
    cores_stay_written();
    run_all(alloc, cells, moves)
}

fn run_all<C: Capture>(
    alloc: Global,
    cells: u32,
    moves: Vec<Move>,
) -> Result<(Vec<Answer>, Core<C>), Refusal>
    requires { (1 ≤ cells) × (cells ≤ CELLS) }
    ensures has_run { IfOk result (λ r. HasRun cells moves.items r.0.items r.1) }
    ensures memory { IfErr result (λ refusal. refusal ≡ Refusal.NoMemory) }
{
    safety_laws();
    cores_stay_written();
    let mut core = Core::fresh(alloc, cells)?;
    let mut answers = Vec::new(alloc);
    for asked in moves {
        let given = core.step(asked);
        answers.push(given)?;
    }
    Ok((answers, core))
}
