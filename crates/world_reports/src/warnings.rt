//! The lines on standard error about a world that was found.
ghost use Rattle.std.specs.Prelude.{◌≡◌, Some, IsTrue, OnOk};
ghost use Rattle.world_folder.specs.Texts.{finding_line};
ghost use Rattle.world_reports.specs.Reports.{NamesFailed, with_finding};

use std::{fmt, io};
use world_folder::{Finding, Reason, Source, Unreadable};

/// Names on standard error a file whose read failed, and was tried again.
pub fn warn_of_failed<F: Source>(folder: &mut F, failed: Option<Unreadable>) -> io::Result<()>
    ensures { IsTrue F.honest
        → OnOk result (NamesFailed failed (F.history folder.old) (F.history folder.new)) }
{
    if let Some(file) = failed {
        folder.warn(FailedLine(file))?;
    }
    Ok(())
}

/// Names on standard error what was found of four files.
pub fn warn_of<F: Source>(folder: &mut F, finding: Option<Finding>) -> io::Result<()>
    ensures { IsTrue F.honest
        → OnOk result (F.history folder.new ≡ with_finding finding (F.history folder.old)) }
{
    if let Some(finding) = finding {
        folder.warn(FindingLine(finding))?;
    }
    Ok(())
}

// The line on a file whose read failed at first.
#[derive(Drop)]
struct FailedLine(Unreadable);

impl fmt::Display for FailedLine {
    fn fmt<W: fmt::Write>(&self, f: &mut fmt::Formatter<W>) -> fmt::Result {
        let path = self.0.path.as_str();
        let reason = Reason(self.0.error);
        write!(
            f,
            "worldd: {path}: a read failed, and was tried again: {reason}"
        )
    }
}

// The line on what was found of four files.
#[derive(Clone, Copy)]
struct FindingLine(Finding);

impl fmt::Display for FindingLine {
    ghost output = { λ line. Some (finding_line line.0) };

    fn fmt<W: fmt::Write>(&self, f: &mut fmt::Formatter<W>) -> fmt::Result {
        write!(f, "worldd: {}", self.0)
    }
}
