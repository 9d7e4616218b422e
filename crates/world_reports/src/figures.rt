//! Figures of a world, by what its files hold.
ghost use Rattle.std.specs.Prelude.{◌≡◌, IsTrue, IfOk, IfErr, Some, OnOk, false};
ghost use Rattle.world_folder.specs.Ending.{IsChecked, IsDone};
ghost use Rattle.world_reports.specs.Reports.{IsGuardRead};
ghost use Rattle.world_reports.specs.StatusReport.{IsStatusReported, IsServerReported};
ghost use Rattle.world_reports.specs.StatusReport.{IsHealthReported};
ghost use Rattle.world_reports.specs.StatusReport.{AreFiguresReported, with_guard};
ghost use Rattle.world_reports.specs.Figures.{AreFigures, IsOpened, current_segment};
ghost use Rattle.world_reports.specs.Texts.{figures_text, lengths_text, pair_text, segment_text};
ghost use Rattle.world_reports.specs.Texts.{guard_text, total_of};

use crate::copy::look_for_world;
use crate::count::Counted;
use crate::health::{health_of, report_health};
use crate::server_report::{ServerReport, server_in};
use crate::warnings::{warn_of, warn_of_failed};
use action_log::{SEGMENT_TICKS, judge_log};
use disk_model::{FourFiles, IMAGE_A, IMAGE_B, LOG_A, LOG_B};
use recovery::{Recovered, Slot};
use std::fmt;
use world_actions::Refusal;
use world_folder::{
    Checks, Ending, Failure, FoundReport, Guard, OnLoss, Reading, Source, checks_in,
};

/// Figures of a world.
#[derive(Clone, Copy, Debug, PartialEq, Eq)]
pub struct Figures {
    pub found: FoundReport,
    /// The segment that the next ticks are written to, and how many it has.
    pub segment: Option<(Slot, usize)>,
}

/// The figures of a world that was found in files with these bytes.
pub fn figures_of(found: &Recovered, files: &FourFiles<Vec<u8>>) -> Figures
    ensures { AreFigures files.now found.now result }
{
    Figures {
        found: FoundReport::of(found),
        segment: current_segment(opened_segment(&files.log_a), opened_segment(&files.log_b)),
    }
}

// Of two segments the open one with the greater base, log.b if both have it, and how many ticks it
// has.
fn current_segment(
    log_a: Option<(u64, usize)>,
    log_b: Option<(u64, usize)>,
) -> Option<(Slot, usize)>
    ensures { result ≡ current_segment log_a log_b }
{
    match (log_a, log_b) {
        (Some((first, ticks)), Some((second, _))) if second < first => Some((Slot::A, ticks)),
        (_, Some((_, ticks))) => Some((Slot::B, ticks)),
        (Some((_, ticks)), None) => Some((Slot::A, ticks)),
        (None, None) => None,
    }
}

// The base of an open segment, and how many ticks it has.
fn opened_segment(bytes: &[u8]) -> Option<(u64, usize)>
    ensures { IsOpened bytes.now result }
{
    match judge_log(bytes) {
        Ok(Some((log, counts))) => Some((log.base, counts.ticks)),
        _ => None,
    }
}

/// Prints the figures of the world in a folder, as `report_status` does. If it also checks the
/// world, it prints whether the world is well, and ends by that.
pub fn status<F: Source>(
    folder: &mut F,
    on_loss: OnLoss,
    checks_health: bool,
) -> Result<Ending, Failure>
    ensures reported { IsTrue F.honest → IsTrue F.File.honest → IfOk result (λ ending.
        IsGuardRead on_loss (λ checks. IsHealthReported checks_health checks ending)
        (F.history folder.old) (F.history folder.new)) }
    ensures done { checks_health ≡ false → IfOk result IsDone }
    ensures checked { IfOk result IsChecked }
{
    match checks_in(folder, on_loss) {
        Ok(checks) => status_by(folder, checks, checks_health),
        Err(failure) => {
            print_server(folder)?;
            Err(failure)
        }
    }
}

// Reports a world by these checks, and whether it is well, if that is asked for.
fn status_by<F: Source>(
    folder: &mut F,
    checks: Checks,
    checks_health: bool,
) -> Result<Ending, Failure>
    ensures reported { IsTrue F.honest → IsTrue F.File.honest → IfOk result (λ ending.
        IsHealthReported checks_health checks ending (F.history folder.old)
        (F.history folder.new)) }
    ensures done { checks_health ≡ false → IfOk result IsDone }
    ensures checked { IfOk result IsChecked }
{
    let (ending, server) = report_status(folder, checks)?;
    if !checks_health {
        return Ok(ending);
    }
    let age = folder.guard_age();
    report_health(folder, health_of(server, age), ending)
}

/// Prints the figures of the world in a folder, which a server may write meanwhile, and then
/// whether one does. On standard error it names what was lost. If the files hold no world, only the
/// last line is printed. It returns how the command ends, and what is known of the server.
pub fn report_status<F: Source>(
    folder: &mut F,
    checks: Checks,
) -> Result<(Ending, ServerReport), Failure>
    ensures reported { IsTrue F.honest → IsTrue F.File.honest → IfOk result (λ reported.
        IsStatusReported checks reported.0 reported.1 (F.history folder.old)
        (F.history folder.new)) }
    ensures done { IfOk result (λ reported. IsDone reported.0) }
{
    let printed = print_figures(folder, checks);
    let server = print_server(folder)?;
    Ok((printed?, server))
}

fn print_server<F: Source>(folder: &mut F) -> Result<ServerReport, Failure>
    ensures reported { IsTrue F.honest → IfOk result (λ server.
        IsServerReported server (F.history folder.old) (F.history folder.new)) }
{
    let reported = server_in(folder)?;
    folder.print(reported)?;
    Ok(reported)
}

fn print_figures<F: Source>(folder: &mut F, checks: Checks) -> Result<Ending, Failure>
    ensures reported { IsTrue F.honest → IsTrue F.File.honest → IfOk result (λ ending.
        AreFiguresReported checks ending (F.history folder.old) (F.history folder.new)) }
    ensures done { IfOk result IsDone }
{
    let seen = look_for_world(folder, Reading::Cached, checks)?;
    warn_of_failed(folder, seen.failed)?;
    warn_of(folder, seen.found.finding)?;
    folder.print(figures_of(&seen.found.world, &seen.files))?;
    folder.print(Lengths(seen.lengths))?;
    print_guard(folder, checks.guard)?;
    Ok(Ending::of_finding(seen.found.finding))
}

// Prints the guard of the world, if it has one.
fn print_guard<F: Source>(folder: &mut F, guard: Option<Guard>) -> Result<(), Failure>
    ensures printed { IsTrue F.honest
        → OnOk result (F.history folder.new ≡ with_guard guard (F.history folder.old)) }
{
    if let Some(guard) = guard {
        folder.print(GuardLine(guard))?;
    }
    Ok(())
}

// The line on a guard.
#[derive(Clone, Copy)]
struct GuardLine(Guard);

impl fmt::Display for GuardLine {
    ghost output = { λ line. Some (guard_text line.0) };

    fn fmt<W: fmt::Write>(&self, f: &mut fmt::Formatter<W>) -> fmt::Result {
        let guard = &self.0;
        write!(f, "guard: tick {} at @{}", guard.acked, guard.seconds)?;
        write!(f, ", image of tick {}", guard.image)?;
        write!(f, ", start {} of world {}", guard.starts, guard.world)
    }
}

impl fmt::Display for Figures {
    ghost output = { λ figures. Some (figures_text figures) };

    fn fmt<W: fmt::Write>(&self, f: &mut fmt::Formatter<W>) -> fmt::Result {
        let found = self.found;
        let replayed = found.world.tick.saturating_sub(found.world.from) as usize;
        let replayed = Counted(replayed, "tick");
        let segment = SegmentReport(self.segment);
        write!(f, "{found}\nlog: {replayed} after the image, {segment}")
    }
}

// The segment that the log continues in, and how many ticks it has.
#[derive(Clone, Copy)]
struct SegmentReport(Option<(Slot, usize)>);

impl fmt::Display for SegmentReport {
    ghost output = { λ segment. Some (segment_text segment.0) };

    fn fmt<W: fmt::Write>(&self, f: &mut fmt::Formatter<W>) -> fmt::Result {
        match self.0 {
            Some((Slot::A, ticks)) => write!(f, "{LOG_A} has {ticks} of {SEGMENT_TICKS}"),
            Some((Slot::B, ticks)) => write!(f, "{LOG_B} has {ticks} of {SEGMENT_TICKS}"),
            None => f.write_str("no segment is open"),
        }
    }
}

// How many bytes each file has, and all together.
#[derive(Drop)]
struct Lengths(FourFiles<u64>);

impl Lengths {
    fn total(&self) -> u64
        ensures { result ≡ total_of self.now.0 }
    {
        let lengths = &self.0;
        lengths
            .image_a
            .saturating_add(lengths.image_b)
            .saturating_add(lengths.log_a)
            .saturating_add(lengths.log_b)
    }
}

impl fmt::Display for Lengths {
    ghost output = { λ lengths. Some (lengths_text lengths.0) };

    fn fmt<W: fmt::Write>(&self, f: &mut fmt::Formatter<W>) -> fmt::Result {
        let images = PairLengths(IMAGE_A, self.0.image_a, IMAGE_B, self.0.image_b);
        let logs = PairLengths(LOG_A, self.0.log_a, LOG_B, self.0.log_b);
        let total = self.total();
        write!(f, "bytes: {images}, {logs}, together {total}")
    }
}

// How many bytes each of two files has, with their names.
#[derive(Clone, Copy)]
struct PairLengths(&'static str, u64, &'static str, u64);

impl fmt::Display for PairLengths {
    ghost output = { λ pair. Some (pair_text pair.0.now pair.1 pair.2.now pair.3) };

    fn fmt<W: fmt::Write>(&self, f: &mut fmt::Formatter<W>) -> fmt::Result {
        write!(f, "{} {}, {} {}", self.0, self.1, self.2, self.3)
    }
}
