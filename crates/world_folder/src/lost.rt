//! Files of which one looks lost or emptied, so that ticks that were answered are in none.
ghost use Rattle.std.specs.Prelude.{◌≡◌, ◌≤◌, ◌⊎◌, take, IsTrue, IfOk, IfErr, IfSome, Some, None};
ghost use Rattle.disk_model.specs.FourFiles.{EachFile, KeepsFile};
ghost use Rattle.world_folder.specs.Lost.{begins_after, changed_file, changed_image, changed_log_a};
ghost use Rattle.world_folder.specs.Lost.{changed_log_b, doubtful_log, emptied_file, empty_image};
ghost use Rattle.world_folder.specs.Lost.{first_empty, has_odd_gate, is_begun, is_of_a_tick};
ghost use Rattle.world_folder.specs.Lost.{judged_older, judgement, lost_log, lost_of, reached};
ghost use Rattle.world_folder.specs.Lost.{older_finding, older_of, IsOfFile, IsRefusing};
ghost use Rattle.world_folder.specs.Texts.{finding_text, lost_text};

use crate::guard::{Guard, Older};
use crate::heads::{IMAGE_HEAD, SEGMENT_HEAD, read_head};
use disk_model::{Disk, FourFiles, IMAGE_A, IMAGE_B, LOG_A, LOG_B};
use file_format::{CLOSED_GATE, Format, OPEN_GATE, Slot, marked_at};
use std::alloc::Global;
use std::fmt;
use world_actions::Refusal;

// The place of the gate of a segment's first group.
const GROUP_PLACE: usize = SEGMENT_HEAD - 1;

/// The treatment of four files that look as if one of them was lost.
#[derive(Clone, Copy, Debug, PartialEq, Eq)]
pub enum OnLoss {
    /// The loss is named on standard error, and recovery's answer stands.
    Warn,
    /// The files are refused. A log that may have been lost is named.
    Refuse,
}

/// The checks of four files before their world is used.
#[derive(Clone, Copy, Debug, PartialEq, Eq)]
pub struct Checks {
    /// The treatment of files of which one looks lost.
    pub lost: OnLoss,
    /// The treatment of a world that is older than its guard.
    pub older: OnLoss,
    /// The guard of the world, if it has one.
    pub guard: Option<Guard>,
}

impl Checks {
    /// The checks of a world without a guard.
    pub fn of(lost: OnLoss) -> Self
        ensures { result ≡ record { lost = lost; older = OnLoss.Warn; guard = None } }
    {
        Checks {
            lost,
            older: OnLoss::Warn,
            guard: None,
        }
    }
}

/// A finding on four files that no crash leaves after: one of them was lost, emptied or replaced.
#[derive(Clone, Copy, Debug, PartialEq, Eq)]
pub enum Lost {
    /// This image is empty, beside one of a tick above 0. By then both were written once.
    Image(Slot),
    /// This log is empty, beside an image of a tick above 0. The first start writes both logs,
    /// before a tick ends. If losses are refused, it counts as soon as a tick is recovered.
    Log(Slot),
    /// This log begins after the tick that is recovered. The ticks up to its
    /// beginning were answered.
    Gap(Slot),
    /// This image is closed beside one of a tick above 0, and not by the gate that a write leaves.
    ChangedImage(Slot),
    /// This log is closed although a tick is recovered, and not by the gate that a write leaves. Or
    /// it is log.a without a header of the second format, and log.b has one.
    ChangedLog(Slot),
    /// The world is older than its guard.
    Older(Older),
}

impl fmt::Display for Lost {
    ghost output = { λ lost. Some (lost_text lost) };

    fn fmt<W: fmt::Write>(&self, f: &mut fmt::Formatter<W>) -> fmt::Result {
        match self {
            Lost::Image(Slot::A) => write!(f, "{IMAGE_A} is empty, so it was lost"),
            Lost::Image(Slot::B) => write!(f, "{IMAGE_B} is empty, so it was lost"),
            Lost::Log(Slot::A) => write!(f, "{LOG_A} is empty, so it was lost"),
            Lost::Log(Slot::B) => write!(f, "{LOG_B} is empty, so it was lost"),
            Lost::Gap(Slot::A) => write!(f, "{LOG_A} begins after ticks that were lost"),
            Lost::Gap(Slot::B) => write!(f, "{LOG_B} begins after ticks that were lost"),
            Lost::ChangedImage(Slot::A) => write!(f, "{IMAGE_A} is closed as no crash leaves it"),
            Lost::ChangedImage(Slot::B) => write!(f, "{IMAGE_B} is closed as no crash leaves it"),
            Lost::ChangedLog(Slot::A) => write!(f, "{LOG_A} is closed as no crash leaves it"),
            Lost::ChangedLog(Slot::B) => write!(f, "{LOG_B} is closed as no crash leaves it"),
            Lost::Older(older) => write!(f, "{}", older),
        }
    }
}

/// A finding on four files, beside the world that is recovered from them.
#[derive(Clone, Copy, Debug, PartialEq, Eq)]
pub enum Finding {
    Lost(Lost),
    /// This log is empty, and tick 0 is recovered. Either the world never had a start, or the log
    /// was lost with ticks that were answered. The files don't say which.
    Doubtful(Slot),
}

impl fmt::Display for Finding {
    ghost output = { λ finding. Some (finding_text finding) };

    fn fmt<W: fmt::Write>(&self, f: &mut fmt::Formatter<W>) -> fmt::Result {
        let name = match self {
            Finding::Lost(lost) => return write!(f, "{lost}"),
            Finding::Doubtful(Slot::A) => LOG_A,
            Finding::Doubtful(Slot::B) => LOG_B,
        };
        write!(
            f,
            "{name} is empty: if this world was played, its ticks are lost"
        )
    }
}

/// Judges four files with these bytes, of which this tick is recovered from an image of the tick
/// `from`. It returns the finding to be named, or the loss for which they are refused. A world that
/// is older than its guard is named before a loss.
pub fn judge(
    checks: Checks,
    tick: u64,
    from: u64,
    files: &FourFiles<Vec<u8>>,
) -> Result<Option<Finding>, Lost>
    ensures judged { result ≡ judgement checks tick from files.now.image_a.items
        files.now.image_b.items files.now.log_a.items files.now.log_b.items }
    ensures whole { checks.lost ≡ OnLoss.Refuse → IfOk result (λ _.
        lost_of checks.lost tick from files.now.image_a.items files.now.image_b.items
        files.now.log_a.items files.now.log_b.items ≡ None) }
    ensures newest { checks.older ≡ OnLoss.Refuse → IfOk result (λ _.
        IfSome checks.guard (λ guard. guard.acked ≤ tick)) }
    ensures refused { IfErr result (IsRefusing checks) }
{
    let older = older_of(checks.guard, tick);
    match (checks.lost, lost_of(checks.lost, tick, from, files)) {
        (OnLoss::Refuse, Some(lost)) => Err(lost),
        (OnLoss::Refuse, None) => {
            let doubtful = doubtful_log(tick, files).map(Finding::Doubtful);
            judge_older(checks.older, older, doubtful)
        }
        (OnLoss::Warn, lost) => judge_older(checks.older, older, lost.map(Finding::Lost)),
    }
}

// Refuses or names a world that is older than its guard. Of another one it names this finding.
fn judge_older(
    on_older: OnLoss,
    older: Option<Lost>,
    named: Option<Finding>,
) -> Result<Option<Finding>, Lost>
    ensures { result ≡ judged_older on_older older named }
{
    match (on_older, older) {
        (_, None) => Ok(named),
        (OnLoss::Warn, Some(older)) => Ok(Some(Finding::Lost(older))),
        (OnLoss::Refuse, Some(older)) => Err(older),
    }
}

/// The finding on a world of this tick that is older than its guard.
pub fn older_finding(guard: Option<Guard>, tick: u64) -> Option<Finding>
    ensures { result ≡ older_finding guard tick }
{
    older_of(guard, tick).map(Finding::Lost)
}

// Says if the world of this tick is older than its guard.
fn older_of(guard: Option<Guard>, tick: u64) -> Option<Lost>
    ensures { result ≡ older_of guard tick }
{
    guard?.older(tick).map(Lost::Older)
}

// Returns the loss of four files with these bytes, if there is one.
fn lost_of(on_loss: OnLoss, tick: u64, from: u64, files: &FourFiles<Vec<u8>>) -> Option<Lost>
    ensures of_file { IfSome result IsOfFile }
    ensures lost { result ≡ lost_of on_loss tick from files.now.image_a.items
        files.now.image_b.items files.now.log_a.items files.now.log_b.items }
{
    match emptied_file(on_loss, tick, from, files) {
        Some(lost) => Some(lost),
        None => changed_file(tick, from, files),
    }
}

// Returns the loss of a file that is empty, or of a log whose beginning is missing.
fn emptied_file(on_loss: OnLoss, tick: u64, from: u64, files: &FourFiles<Vec<u8>>) -> Option<Lost>
    ensures of_file { IfSome result IsOfFile }
    ensures lost { result ≡ emptied_file on_loss tick from files.now.image_a.items
        files.now.image_b.items files.now.log_a.items files.now.log_b.items }
{
    if let Some(lost) = empty_image(Slot::A, from, &files.image_a) {
        return Some(lost);
    }
    if let Some(lost) = empty_image(Slot::B, from, &files.image_b) {
        return Some(lost);
    }
    let reached = reached(on_loss, tick, from);
    match lost_log(Slot::A, tick, reached, &files.log_a) {
        Some(lost) => Some(lost),
        None => lost_log(Slot::B, tick, reached, &files.log_b),
    }
}

// The tick above 0 by which an empty log is lost.
fn reached(on_loss: OnLoss, tick: u64, from: u64) -> u64
    ensures { result ≡ reached on_loss tick from }
{
    match on_loss {
        OnLoss::Warn => from,
        OnLoss::Refuse => tick,
    }
}

fn empty_image(slot: Slot, from: u64, image: &[u8]) -> Option<Lost>
    ensures of_file { IfSome result IsOfFile }
    ensures empty { result ≡ empty_image slot from image.now }
{
    if image.is_empty() && from > 0 {
        Some(Lost::Image(slot))
    } else {
        None
    }
}

fn lost_log(slot: Slot, tick: u64, reached: u64, log: &[u8]) -> Option<Lost>
    ensures of_file { IfSome result IsOfFile }
    ensures lost { result ≡ lost_log slot tick reached log.now }
{
    if log.is_empty() {
        return if reached > 0 {
            Some(Lost::Log(slot))
        } else {
            None
        };
    }
    if begins_after(tick, log) {
        Some(Lost::Gap(slot))
    } else {
        None
    }
}

// True if a segment is open, and its ticks come after a later one than this.
fn begins_after(tick: u64, log: &[u8]) -> bool
    ensures { result ≡ begins_after tick log.now }
{
    if log.len() < SEGMENT_HEAD || log[0] != OPEN_GATE {
        return false;
    }
    match marked_at(log) {
        Some((_, base)) => tick < base,
        None => false,
    }
}

// The first of four files that is closed as no crash leaves it.
#[tactic(auto, unfolding(crate::specs::Lost::changed_file))]
fn changed_file(tick: u64, from: u64, files: &FourFiles<Vec<u8>>) -> Option<Lost>
    ensures of_file { IfSome result IsOfFile }
    ensures changed { result ≡ changed_file tick from files.now.image_a.items
        files.now.image_b.items files.now.log_a.items files.now.log_b.items }
{
    if let Some(lost) = changed_image(Slot::A, from, &files.image_a) {
        return Some(lost);
    }
    if let Some(lost) = changed_image(Slot::B, from, &files.image_b) {
        return Some(lost);
    }
    match changed_log_a(tick, &files.log_a, &files.log_b) {
        Some(lost) => Some(lost),
        None => changed_log_b(tick, &files.log_b),
    }
}

// Once an image of a tick above 0 is open, both images were opened once, or were made with a
// closed gate by a copy.
fn changed_image(slot: Slot, from: u64, image: &[u8]) -> Option<Lost>
    ensures of_file { IfSome result IsOfFile }
    ensures changed { result ≡ changed_image slot from image.now }
{
    if from > 0 && has_odd_gate(IMAGE_HEAD, image) {
        Some(Lost::ChangedImage(slot))
    } else {
        None
    }
}

// The first start begins log.a before a tick ends. Only later log.b is begun.
fn changed_log_a(tick: u64, log_a: &[u8], log_b: &[u8]) -> Option<Lost>
    ensures of_file { IfSome result IsOfFile }
    ensures changed { result ≡ changed_log_a tick log_a.now log_b.now }
{
    if tick == 0 || log_a.is_empty() {
        return None;
    }
    if has_odd_gate(SEGMENT_HEAD, log_a)
        || log_a[0] == CLOSED_GATE && !is_begun(log_a) && is_begun(log_b)
    {
        Some(Lost::ChangedLog(Slot::A))
    } else {
        None
    }
}

// A `create` keeps the closed gate of a log.b that it finds, and the first switch writes a header
// behind it. So another gate counts only if it is that of a segment with some of these ticks.
fn changed_log_b(tick: u64, log: &[u8]) -> Option<Lost>
    ensures of_file { IfSome result IsOfFile }
    ensures changed { result ≡ changed_log_b tick log.now }
{
    if tick == 0 || !has_odd_gate(SEGMENT_HEAD, log) {
        return None;
    }
    if log[0] == OPEN_GATE || is_of_a_tick(tick, log) {
        Some(Lost::ChangedLog(Slot::B))
    } else {
        None
    }
}

// True if a file is closed although its first byte isn't a closed gate. An empty file has none.
fn has_odd_gate(head: usize, bytes: &[u8]) -> bool
    ensures { result ≡ has_odd_gate head bytes.now }
{
    if bytes.is_empty() || bytes[0] == CLOSED_GATE {
        return false;
    }
    bytes.len() < head || bytes[0] != OPEN_GATE
}

// True if a file has the header of a segment of the second format.
fn is_begun(log: &[u8]) -> bool
    ensures { result ≡ is_begun log.now }
{
    if log.len() < SEGMENT_HEAD {
        return false;
    }
    matches!(marked_at(log), Some((Format::Second, _)))
}

// True if a file has the header of a segment that begins after a tick from 1 to this one, and an
// open group after it.
fn is_of_a_tick(tick: u64, log: &[u8]) -> bool
    ensures { result ≡ is_of_a_tick tick log.now }
{
    if log.len() < SEGMENT_HEAD || log[GROUP_PLACE] != OPEN_GATE {
        return false;
    }
    match marked_at(log) {
        Some((_, base)) => 0 < base && base <= tick,
        None => false,
    }
}

// The empty log of files with these bytes, if tick 0 is recovered.
fn doubtful_log(tick: u64, files: &FourFiles<Vec<u8>>) -> Option<Slot>
    ensures { result ≡ doubtful_log tick files.now.log_a.items files.now.log_b.items }
{
    if tick > 0 {
        return None;
    }
    first_empty(&files.log_a, &files.log_b)
}

// The first of two logs that is empty.
fn first_empty(log_a: &[u8], log_b: &[u8]) -> Option<Slot>
    ensures { result ≡ first_empty log_a.now log_b.now }
{
    match (log_a.is_empty(), log_b.is_empty()) {
        (true, _) => Some(Slot::A),
        (false, true) => Some(Slot::B),
        (false, false) => None,
    }
}

/// Reads as much of each file as `judge` looks at. A server reads it before it
/// recovers the world.
pub fn read_heads<D: Disk>(
    alloc: Global,
    files: &mut FourFiles<D>,
) -> Result<FourFiles<Vec<u8>>, Refusal>
    ensures heads { IsTrue D.honest → IfOk result (λ heads. EachFile files.old heads
        (λ disk head. head.items ≡ take IMAGE_HEAD (D.content disk))) }
    ensures kept { IsTrue D.honest
        → EachFile files.old files.new (KeepsFile D.Disk) }
    ensures refused { IfErr result (λ refusal. (refusal ≡ Refusal.Device)
        ⊎ (refusal ≡ Refusal.NoMemory)) }
{
    Ok(FourFiles {
        image_a: read_head(alloc, &mut files.image_a, IMAGE_HEAD)?,
        image_b: read_head(alloc, &mut files.image_b, IMAGE_HEAD)?,
        log_a: read_head(alloc, &mut files.log_a, IMAGE_HEAD)?,
        log_b: read_head(alloc, &mut files.log_b, IMAGE_HEAD)?,
    })
}
