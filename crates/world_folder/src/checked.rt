//! Recovery of a world, whose files are checked for a loss.
ghost use Rattle.std.specs.Prelude.{◌≡◌, ◌≤◌, ◌∷◌, None, take, IsTrue, IfOk, IfErr, OnErr, IfSome};
ghost use Rattle.std.specs.Prelude.{MatchResult};
ghost use Rattle.disk_model.specs.FourFiles.{EachFile, KeepsFile};
ghost use Rattle.world_start.specs.Opening.{IsRead};
ghost use Rattle.world_start.specs.Steps.{IsAhead};
ghost use Rattle.world_folder.specs.History.{GuardRead};
ghost use Rattle.world_folder.specs.Lost.{JudgedIn, lost_in};
ghost use Rattle.world_folder.specs.Unrecovered.{IsUnrecovered};

use crate::failure::Failure;
use crate::folders::Source;
use crate::lost::{Checks, Finding, Lost, OnLoss, judge, read_heads};
use capture_core::Capture;
use disk_model::{Disk, FourFiles};
use std::alloc::Global;
use world_actions::Refusal;
use world_start::{Start, recover_world};

/// Why no world is served.
#[derive(Clone, Copy, Debug, PartialEq, Eq)]
pub enum NotRecovered {
    /// Recovery refuses the files, or there was no memory, or a device failed.
    Refused(Refusal),
    /// A world is recovered, ticks after it were answered, and the checks refuse that.
    Lost(Lost),
}

/// A world that was recovered.
#[derive(Drop)]
pub struct Checked<C: Capture, D: Disk> {
    pub begun: Start<C, D>,
    /// The finding to be named.
    pub finding: Option<Finding>,
}

/// Recovers the world in the files, as `recover_world` does, and judges by their heads and the
/// world's guard if ticks that were answered are in none of them. The files are only read. If no
/// world is served, it gives them back.
pub fn recover_checked<C: Capture + Drop, D: Disk>(
    alloc: Global,
    files: FourFiles<D>,
    checks: Checks,
) -> Result<Checked<C, D>, (FourFiles<D>, NotRecovered)>
    ensures kept { IsTrue D.honest → MatchResult result
        (λ found. EachFile files found.begun.engine.files (KeepsFile D.Disk))
        (λ refused. EachFile files refused.0 (KeepsFile D.Disk)) }
    ensures ahead { IfOk result (λ found. IsAhead found.begun.engine found.begun.words.items) }
    ensures read { IsTrue D.honest → IfOk result (λ found.
        IsRead D.Disk files found.begun.engine found.begun.from) }
    ensures judged { IsTrue D.honest → IfOk result (λ found.
        JudgedIn D.content checks found.begun.engine.ended found.begun.from
        files found.finding) }
    ensures whole { IsTrue D.honest → checks.lost ≡ OnLoss.Refuse → IfOk result (λ found.
        lost_in D.content checks.lost found.begun.engine.ended found.begun.from files
        ≡ None) }
    ensures newest { checks.older ≡ OnLoss.Refuse → IfOk result (λ found.
        IfSome checks.guard (λ guard. guard.acked ≤ found.begun.engine.ended)) }
    ensures refused { IfErr result (λ refused.
        IsUnrecovered D.Disk checks files refused.1) }
{
    let mut files = files;
    let heads = match read_heads(alloc, &mut files) {
        Ok(heads) => heads,
        Err(refusal) => return Err((files, NotRecovered::Refused(refusal))),
    };
    match recover_world(alloc, files) {
        Ok(begun) => match judge(checks, begun.engine.ended(), begun.from, &heads) {
            Ok(finding) => Ok(Checked { begun, finding }),
            Err(lost) => Err((begun.engine.into_files(), NotRecovered::Lost(lost))),
        },
        Err((files, refusal)) => Err((files, NotRecovered::Refused(refusal))),
    }
}

/// The checks of a command that looks at the world in a folder, with its guard: a world that is
/// older than it is named.
pub fn checks_in<F: Source>(folder: &mut F, on_loss: OnLoss) -> Result<Checks, Failure>
    ensures read { IsTrue F.honest → IfOk result (λ checks.
        F.history folder.new ≡ GuardRead checks.guard ∷ F.history folder.old) }
    ensures failed { IsTrue F.honest → OnErr result (F.history folder.new ≡ F.history folder.old) }
    ensures named { IfOk result (λ checks.
        (checks.lost ≡ on_loss) × (checks.older ≡ OnLoss.Warn)) }
    ensures path { F.path folder.new ≡ F.path folder.old }
{
    Ok(Checks {
        guard: folder.read_guard()?,
        ..Checks::of(on_loss)
    })
}
