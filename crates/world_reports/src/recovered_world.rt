ghost use Rattle.std.specs.Prelude.{Some, IsTrue, IfOk, IfErr};
ghost use Rattle.world_folder.specs.Ending.{IsDone};
ghost use Rattle.world_folder.specs.Texts.{recovered_line};
ghost use Rattle.world_reports.specs.Reports.{IsGuardRead, IsWorldReported};

use crate::copy::look_for_world;
use crate::warnings::{warn_of, warn_of_failed};
use std::fmt;
use world_folder::{Ending, Failure, OnLoss, Reading, Source, WorldReport, checks_in};

/// Prints which world the files of a folder hold, which a server may write meanwhile. It writes
/// nothing into the folder. On standard error it names what was lost. It returns how the command
/// ends.
pub fn recover<F: Source>(folder: &mut F, on_loss: OnLoss) -> Result<Ending, Failure>
    ensures reported { IsTrue F.honest → IsTrue F.File.honest → IfOk result (λ ending.
        IsGuardRead on_loss (λ checks. IsWorldReported checks ending)
        (F.history folder.old) (F.history folder.new)) }
    ensures done { IfOk result IsDone }
{
    let checks = checks_in(folder, on_loss)?;
    let seen = look_for_world(folder, Reading::Synced, checks)?;
    warn_of_failed(folder, seen.failed)?;
    warn_of(folder, seen.found.finding)?;
    folder.print(RecoveredLine(WorldReport::of(&seen.found.world)))?;
    Ok(Ending::of_finding(seen.found.finding))
}

// The line on a world that was recovered.
#[derive(Clone, Copy)]
struct RecoveredLine(WorldReport);

impl fmt::Display for RecoveredLine {
    ghost output = { λ line. Some (recovered_line line.0.tick line.0.from) };

    fn fmt<W: fmt::Write>(&self, f: &mut fmt::Formatter<W>) -> fmt::Result {
        write!(f, "recovered {}", self.0)
    }
}
