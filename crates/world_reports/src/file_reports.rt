ghost use Rattle.std.specs.Prelude.{◌≡◌, IfOk, OnErr, Some};
ghost use Rattle.image_files.specs.Image.{image_of};
ghost use Rattle.image_files.specs.Reading.{IsOpenImage};
ghost use Rattle.world_reports.specs.FileReports.{IsImageReport, IsLogReport, format_number};
ghost use Rattle.world_reports.specs.Texts.{reported_text};

use crate::count::Counted;
use action_log::judge_log;
use file_format::{Format, format_of};
use image_files::{ImageState, read_image};
use std::alloc::{AllocError, Global};
use std::fmt;
use world_actions::Refusal;

/// How a file of a world reads.
#[derive(Clone, Copy, Debug, PartialEq, Eq)]
pub enum FileReport {
    Closed,
    /// It is open, and of neither format.
    Damaged,
    /// It is an open image.
    Image {
        format: Format,
        cells: usize,
        tick: u64,
    },
    /// It is an open segment.
    Log {
        format: Format,
        base: u64,
        groups: usize,
        ticks: usize,
    },
}

/// Reports on an image file. It takes memory as `read_image` does.
pub fn report_image(alloc: Global, bytes: &[u8]) -> Result<FileReport, AllocError>
    ensures reported { IfOk result (IsImageReport bytes.now) }
    ensures memory { OnErr result (IsOpenImage (image_of bytes.now)) }
{
    match read_image(alloc, bytes) {
        Ok(ImageState::Closed) => Ok(FileReport::Closed),
        Ok(ImageState::Open { tick, words }) => Ok(FileReport::Image {
            format: format_of(bytes).unwrap(),
            cells: words.len(),
            tick,
        }),
        Err(Refusal::BadImage) => Ok(FileReport::Damaged),
        Err(_) => Err(AllocError),
    }
}

/// Reports on a log file. It takes no memory.
pub fn report_log(bytes: &[u8]) -> FileReport
    ensures { IsLogReport bytes.now result }
{
    match judge_log(bytes) {
        Ok(None) => FileReport::Closed,
        Ok(Some((log, counts))) => FileReport::Log {
            format: log.format,
            base: log.base,
            groups: counts.groups,
            ticks: counts.ticks,
        },
        Err(_) => FileReport::Damaged,
    }
}

// The number by which people know a format.
fn number_of(format: Format) -> u8
    ensures { result ≡ format_number format }
{
    match format {
        Format::First => 1,
        Format::Second => 2,
    }
}

impl fmt::Display for FileReport {
    ghost output = { λ reported. Some (reported_text reported) };

    fn fmt<W: fmt::Write>(&self, f: &mut fmt::Formatter<W>) -> fmt::Result {
        match self {
            FileReport::Closed => f.write_str("closed"),
            FileReport::Damaged => f.write_str("damaged"),
            FileReport::Image {
                format,
                cells,
                tick,
            } => {
                let format = number_of(*format);
                let cells = Counted(*cells, "cell");
                write!(f, "open, format {format}, {cells}, tick {tick}")
            }
            FileReport::Log {
                format,
                base,
                groups,
                ticks,
            } => {
                let format = number_of(*format);
                let groups = Counted(*groups, "group");
                let ticks = Counted(*ticks, "tick");
                write!(f, "open, format {format}, base {base}, {groups}, {ticks}")
            }
        }
    }
}
