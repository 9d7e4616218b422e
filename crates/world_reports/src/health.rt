//! Whether a world is well that is to be served, for a program that watches it.
ghost use Rattle.std.specs.Prelude.{◌≡◌, ◌∷◌, Some, IsTrue, IfOk, OnOk, IfErr};
ghost use Rattle.world_folder.specs.Ending.{IsChecked, IsDone};
ghost use Rattle.world_folder.specs.History.{Printed};
ghost use Rattle.world_reports.specs.Health.{health_ending, health_of, health_text, images_health};
ghost use Rattle.world_reports.specs.Health.{ending_with, health_of_up};

use crate::server_report::{PartReport, ServerReport};
use std::fmt;
use world_folder::{Ending, Failure, Source, Unwell};

/// After how many seconds without a sign of life a server counts as one that hangs. One that is
/// well gives one each second.
pub const HANGS_AFTER_SECONDS: u64 = 10;

/// How a world is that is to be served.
#[derive(Clone, Copy, Debug, PartialEq, Eq)]
pub enum Health {
    Well,
    /// No fault is known. A hang isn't either, since the world has no guard.
    Unguarded,
    ImagesDown,
    LogDown,
    /// The server writes files that were removed or replaced.
    Replaced,
    NotServed,
    /// The locks of the files can't be asked for.
    Unknown,
    /// The server has given no sign of life for this number of seconds.
    Hangs(u64),
}

/// How the world of this server is. `age` is the number of seconds since its guard was written or
/// touched.
pub fn health_of(server: ServerReport, age: Option<u64>) -> Health
    ensures { result ≡ health_of server age }
{
    match server {
        ServerReport::Running { log, images } => match log {
            PartReport::Up => health_of_up(images, age),
            PartReport::Down => Health::LogDown,
            PartReport::Unknown => Health::Unknown,
        },
        ServerReport::Replaced => Health::Replaced,
        ServerReport::Missing => Health::NotServed,
        ServerReport::Unknown => Health::Unknown,
    }
}

// How a world is whose log is up.
fn health_of_up(images: PartReport, age: Option<u64>) -> Health
    ensures { result ≡ health_of_up images age }
{
    match age {
        Some(seconds) if seconds > HANGS_AFTER_SECONDS => Health::Hangs(seconds),
        Some(_) => images_health(images, Health::Well),
        None => images_health(images, Health::Unguarded),
    }
}

// How a world is whose server runs on, or is it if its images are up.
fn images_health(images: PartReport, up: Health) -> Health
    ensures { result ≡ images_health images up }
{
    match images {
        PartReport::Up => up,
        PartReport::Down => Health::ImagesDown,
        PartReport::Unknown => Health::Unknown,
    }
}

/// Prints how a world is, and returns how a command ends that checked it, and would have ended so
/// without that.
pub fn report_health<F: Source>(
    folder: &mut F,
    health: Health,
    ending: Ending,
) -> Result<Ending, Failure>
    requires { IsDone ending }
    ensures printed { IsTrue F.honest
        → OnOk result (F.history folder.new ≡ Printed (health_text health) ∷ F.history folder.old) }
    ensures ends { IfOk result (λ ended. ended ≡ ending_with health ending) }
    ensures checked { IfOk result IsChecked }
{
    folder.print(health)?;
    Ok(ending_with(health, ending))
}

// How a command ends that found a world of this health. Older files come first.
fn ending_with(health: Health, ending: Ending) -> Ending
    requires { IsDone ending }
    ensures ends { result ≡ ending_with health ending }
    ensures checked { IsChecked result }
{
    match ending {
        Ending::Ran => health_ending(health),
        other => other,
    }
}

fn health_ending(health: Health) -> Ending
    ensures ends { result ≡ health_ending health }
    ensures checked { IsChecked result }
{
    match health {
        Health::Well | Health::Unguarded => Ending::Ran,
        Health::ImagesDown => Ending::Unwell(Unwell::ImagesDown),
        Health::LogDown | Health::Replaced => Ending::Unwell(Unwell::LogDown),
        Health::NotServed | Health::Unknown => Ending::Unwell(Unwell::NotServed),
        Health::Hangs(_) => Ending::Unwell(Unwell::Hangs),
    }
}

impl fmt::Display for Health {
    ghost output = { λ health. Some (health_text health) };

    fn fmt<W: fmt::Write>(&self, f: &mut fmt::Formatter<W>) -> fmt::Result {
        match self {
            Health::Well => f.write_str("check: well"),
            Health::Unguarded => f.write_str(
                "check: well, except that it has no guard to show a hang",
            ),
            Health::ImagesDown => f.write_str("check: images down"),
            Health::LogDown => f.write_str("check: log down"),
            Health::Replaced => f.write_str("check: files were removed or replaced"),
            Health::NotServed => f.write_str("check: not served"),
            Health::Unknown => f.write_str("check: unknown"),
            Health::Hangs(seconds) => {
                write!(f, "check: hangs: no sign of life for {seconds} seconds")
            }
        }
    }
}
