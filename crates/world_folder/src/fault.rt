ghost use Rattle.std.specs.Prelude.{◌≡◌, ◌⊎◌, ◌↔◌, ◌++◌, Some, IsTrue, Err, IfOk, IfErr};
ghost use Rattle.image_files.specs.Image.{image_of};
ghost use Rattle.action_log.specs.Segment.{MalformedSegment, IsSegment};
ghost use Rattle.recovery.specs.Recovery.{Recovers, is_bad_image};
ghost use Rattle.world_folder.specs.Fault.{Stands, AreJudged, Explains};
ghost use Rattle.world_folder.specs.declared.lost.Checks.{Checks as Asked};
ghost use Rattle.world_folder.specs.Texts.{damaged_names, reason_text};

use crate::lost::{Checks, Finding, Lost, judge};
use action_log::judge_log;
use disk_model::{FourFiles, IMAGE_A, IMAGE_B, LOG_A, LOG_B};
use image_files::read_image;
use recovery::{Recovered, recover};
use std::alloc::Global;
use std::fmt;
use world_actions::Refusal;

/// Which of the two files of a kind are damaged: one of them at least.
#[derive(Clone, Copy, Debug, PartialEq, Eq)]
pub struct Damaged {
    pub a: bool,
    pub b: bool,
}

/// The reason why four files hold no world.
#[derive(Clone, Copy, Debug, PartialEq, Eq)]
pub enum WorldFault {
    /// There is no memory to read them.
    NoMemory,
    /// No image is open, and no file is damaged.
    NoImage,
    /// Images are open and of neither format.
    Images(Damaged),
    /// The images are right; segments are open and of neither format.
    Segments(Damaged),
    /// All files are of a format, and an action of the log is refused.
    Replay,
    /// A world is recovered, and ticks after it were answered.
    Lost(Lost),
}

impl WorldFault {
    ghost use Rattle.std.specs.Prelude.{◌≡◌};
    ghost use Rattle.world_folder.specs.Fault.{refusal_of};

    /// The refusal by which recovery answers.
    pub fn refusal(&self) -> Refusal
        ensures { result ≡ refusal_of self.now }
    {
        match self {
            WorldFault::NoMemory => Refusal::NoMemory,
            WorldFault::NoImage => Refusal::NoImage,
            WorldFault::Images(_) => Refusal::BadImage,
            WorldFault::Segments(_) | WorldFault::Replay => Refusal::BadLog,
            WorldFault::Lost(Lost::Image(_) | Lost::ChangedImage(_)) => Refusal::BadImage,
            WorldFault::Lost(Lost::Log(_) | Lost::Gap(_) | Lost::ChangedLog(_) | Lost::Older(_)) =>
                { Refusal::BadLog }
        }
    }
}

impl fmt::Display for WorldFault {
    fn fmt<W: fmt::Write>(&self, f: &mut fmt::Formatter<W>) -> fmt::Result {
        let refusal = self.refusal();
        match self {
            WorldFault::NoMemory | WorldFault::NoImage => write!(f, "{refusal}"),
            _ => write!(f, "{refusal}: {}", FaultReason(*self)),
        }
    }
}

// Why four files hold no world, beside the refusal.
#[derive(Clone, Copy)]
struct FaultReason(WorldFault);

impl fmt::Display for FaultReason {
    ghost output = { λ reason. Some (reason_text reason.0) };

    fn fmt<W: fmt::Write>(&self, f: &mut fmt::Formatter<W>) -> fmt::Result {
        match self.0 {
            WorldFault::NoMemory | WorldFault::NoImage => Ok(()),
            WorldFault::Images(damaged) => {
                let names = names_of(damaged, IMAGE_A, IMAGE_B);
                write!(f, "{}{}{}", names.0, names.1, names.2)
            }
            WorldFault::Segments(damaged) => {
                let names = names_of(damaged, LOG_A, LOG_B);
                write!(f, "{}{}{}", names.0, names.1, names.2)
            }
            WorldFault::Replay => f.write_str("an action of the log is refused in replay"),
            WorldFault::Lost(lost) => write!(f, "{lost}"),
        }
    }
}

// The names of the files that are damaged, in parts.
fn names_of(
    damaged: Damaged,
    a: &'static str,
    b: &'static str,
) -> (&'static str, &'static str, &'static str)
    ensures { result.0.now ++ result.1.now ++ result.2.now
        ≡ damaged_names damaged a.entry.now b.entry.now }
{
    match (damaged.a, damaged.b) {
        (true, true) => (a, " and ", b),
        (true, false) => (a, "", ""),
        _ => (b, "", ""),
    }
}

/// A world that four files hold, and the finding on them that is to be named.
#[derive(Drop)]
pub struct Found {
    pub world: Recovered,
    pub finding: Option<Finding>,
}

/// The world that four files hold, or the reason why they hold none. A world that the checks refuse
/// is none.
pub fn stands_in(
    alloc: Global,
    files: &FourFiles<Vec<u8>>,
    checks: Checks,
) -> Result<Found, WorldFault>
    ensures recovered { IfOk result (λ found. Stands files.now found.world) }
    ensures judged { IfOk result (λ found.
        AreJudged checks files.now found.world found.finding) }
    ensures fault { IfErr result (Explains checks files.now) }
{
    let world = found_in(alloc, files)?;
    match judge(checks, world.tick, world.from, files) {
        Ok(finding) => Ok(Found { world, finding }),
        Err(lost) => Err(WorldFault::Lost(lost)),
    }
}

// Recovers the world in four files, or returns the reason why there is none.
fn found_in(alloc: Global, files: &FourFiles<Vec<u8>>) -> Result<Recovered, WorldFault>
    ensures recovered { IfOk result (Stands files.now) }
    ensures fault { IfErr result (λ fault. (asked : Asked) → Explains asked files.now fault) }
{
    match recover(
        alloc,
        &files.image_a,
        &files.image_b,
        &files.log_a,
        &files.log_b,
    ) {
        Ok(found) => Ok(found),
        Err(refusal) => Err(fault_of(alloc, files, refusal)),
    }
}

// Which file a refusal is of.
fn fault_of(alloc: Global, files: &FourFiles<Vec<u8>>, refusal: Refusal) -> WorldFault
    requires { (refusal ≡ Refusal.NoMemory)
        ⊎ Recovers files.now.image_a.items files.now.image_b.items
        files.now.log_a.items files.now.log_b.items (Err refusal) }
    ensures { (asked : Asked) → Explains asked files.now result }
{
    match refusal {
        Refusal::NoImage => WorldFault::NoImage,
        Refusal::BadImage => WorldFault::Images(Damaged {
            a: is_bad_image(alloc, &files.image_a),
            b: is_bad_image(alloc, &files.image_b),
        }),
        Refusal::BadLog => fault_of_log(files),
        _ => WorldFault::NoMemory,
    }
}

// Which segments are damaged, or that none is.
fn fault_of_log(files: &FourFiles<Vec<u8>>) -> WorldFault
    requires { Recovers files.now.image_a.items files.now.image_b.items
        files.now.log_a.items files.now.log_b.items (Err Refusal.BadLog) }
    ensures { (asked : Asked) → Explains asked files.now result }
{
    let a = is_bad_segment(&files.log_a);
    let b = is_bad_segment(&files.log_b);
    if a || b {
        WorldFault::Segments(Damaged { a, b })
    } else {
        WorldFault::Replay
    }
}

// True if an image is open and of neither format. An image for which there is no memory is of one.
fn is_bad_image(alloc: Global, bytes: &[u8]) -> bool
    ensures { result ≡ is_bad_image (image_of bytes.now) }
{
    matches!(read_image(alloc, bytes), Err(Refusal::BadImage))
}

// True if a segment is open and of neither format.
fn is_bad_segment(bytes: &[u8]) -> bool
    ensures { IsTrue result ↔ IsSegment bytes.now MalformedSegment }
{
    judge_log(bytes).is_err()
}
