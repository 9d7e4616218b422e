//! The files of which something is dropped when their world is salvaged.
ghost use Rattle.std.specs.Prelude.{◌≡◌, Some};
ghost use Rattle.world_reports.specs.DroppedFiles.{dropped_text, image_dropped, log_dropped};
ghost use Rattle.world_reports.specs.DroppedFiles.{name_after};

use disk_model::{FourFiles, IMAGE_A, IMAGE_B, LOG_A, LOG_B};
use salvage::{ImagePart, LogPart, Salvaged};
use std::fmt;
use world_folder::Ending;

/// Of which files something is dropped.
#[derive(Clone, Copy, Debug, PartialEq, Eq)]
pub struct Dropped(FourFiles<bool>);

impl Dropped {
    ghost use Rattle.std.specs.Prelude.{◌≡◌};
    ghost use Rattle.world_folder.specs.Ending.{IsDone};
    ghost use Rattle.world_reports.specs.DroppedFiles.{dropped_of, is_any, ending_of};

    /// The parts that are dropped of files with these bytes. A lost file has no bytes.
    pub fn of(lost: &FourFiles<bool>, files: &FourFiles<Vec<u8>>, salvaged: &Salvaged) -> Self
        ensures { result.0 ≡ dropped_of lost.now files.now salvaged.now }
    {
        let from = salvaged.found.from;
        let tick = salvaged.found.tick;
        Dropped(FourFiles {
            image_a: image_dropped(lost.image_a, from, &files.image_a, salvaged.image_a),
            image_b: image_dropped(lost.image_b, from, &files.image_b, salvaged.image_b),
            log_a: log_dropped(tick, &files.log_a, salvaged.log_a),
            log_b: log_dropped(tick, &files.log_b, salvaged.log_b),
        })
    }

    fn is_any(&self) -> bool
        ensures { result ≡ is_any self.now.0 }
    {
        self.0.image_a || self.0.image_b || self.0.log_a || self.0.log_b
    }

    /// How a command ends that dropped this.
    pub fn ending(&self) -> Ending
        ensures ends { result ≡ ending_of self.now.0 }
        ensures done { IsDone result }
    {
        if self.is_any() {
            Ending::MayBeOlder
        } else {
            Ending::Ran
        }
    }
}

// True if an image file was lost, is damaged, or is empty although it was written once.
fn image_dropped(lost: bool, from: u64, bytes: &[u8], part: ImagePart) -> bool
    ensures { result ≡ image_dropped lost from bytes.now part }
{
    match part {
        ImagePart::Dropped => true,
        ImagePart::Closed | ImagePart::Whole { .. } => lost || (bytes.is_empty() && from > 0),
    }
}

// True if a log file was lost, is empty or damaged, or begins after this tick.
fn log_dropped(tick: u64, bytes: &[u8], part: LogPart) -> bool
    ensures { result ≡ log_dropped tick bytes.now part }
{
    match part {
        LogPart::Closed => bytes.is_empty(),
        LogPart::Whole { base, .. } => tick < base,
        LogPart::Cut { .. } | LogPart::Dropped => true,
    }
}

impl fmt::Display for Dropped {
    ghost output = { λ dropped. Some (dropped_text dropped.0) };

    fn fmt<W: fmt::Write>(&self, f: &mut fmt::Formatter<W>) -> fmt::Result {
        if !self.is_any() {
            return f.write_str("dropped: nothing");
        }
        let files = &self.0;
        let images = files.image_a || files.image_b;
        let image_a = NameAfter(false, files.image_a, IMAGE_A);
        let image_b = NameAfter(files.image_a, files.image_b, IMAGE_B);
        let log_a = NameAfter(images, files.log_a, LOG_A);
        let log_b = NameAfter(images || files.log_a, files.log_b, LOG_B);
        write!(f, "dropped: {image_a}{image_b}{log_a}{log_b}")
    }
}

// A name of a list, if it is named there, after others or as the first one.
#[derive(Clone, Copy)]
struct NameAfter(bool, bool, &'static str);

impl fmt::Display for NameAfter {
    ghost output = { λ listed. Some (name_after listed.0 listed.1 listed.2.now) };

    fn fmt<W: fmt::Write>(&self, f: &mut fmt::Formatter<W>) -> fmt::Result {
        match (self.1, self.0) {
            (false, _) => Ok(()),
            (true, false) => f.write_str(self.2),
            (true, true) => write!(f, ", {}", self.2),
        }
    }
}
