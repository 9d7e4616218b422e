ghost use Rattle.std.specs.Prelude.{◌≡◌, ◌≢◌, ◌⊎◌, ◌≤◌, ℕ, List, [], length, false, IsTrue, IfOk};
ghost use Rattle.std.specs.Prelude.{IfErr, Ok, Err};
ghost use Rattle.world_actions.specs.World.{IsWorld};
ghost use Rattle.world_ticks.specs.declared.tick.TheConstants.{TICK_MAX};
ghost use Rattle.image_files.specs.Image.{Bad, image_of};
ghost use Rattle.image_files.specs.Reading.{IsOpenImage};
ghost use Rattle.recovery.specs.Recovery.{Recovery, Recovers};
ghost use Rattle.recovery.specs.Recovered.{recovery_of_answer};
ghost use Rattle.salvage.specs.Parts.{kept_image, kept_log, IsKept};
ghost use Rattle.salvage.specs.Salvage.{AreReplayed, AreReplayedInOrder, IsSalvaged, IsAllTaken};

use crate::image_part::{ImagePart, image_part};
use crate::log_part::{LogPart, formed_part};
use crate::replay::replayed_part;
use recovery::{Recovered, recover};
use std::alloc::Global;
use world_actions::Refusal;

/// The world that was salvaged, and what was taken of each file.
#[derive(Debug, Drop)]
pub struct Salvaged {
    pub found: Recovered,
    pub image_a: ImagePart,
    pub image_b: ImagePart,
    pub log_a: LogPart,
    pub log_b: LogPart,
}

/// Recovers the world in what can be read of image.a, image.b, log.a and log.b. A damaged image is
/// left out. A segment is cut after the last of its leading groups that is whole and accepted.
/// Files that `recover` accepts are taken whole. It refuses with `NoImage` exactly if no image is
/// open and whole, else only with `NoMemory`. It holds the memory of one recovery at a time, and
/// reads each file a few times.
pub fn salvage(
    alloc: Global,
    image_a: &[u8],
    image_b: &[u8],
    log_a: &[u8],
    log_b: &[u8],
) -> Result<Salvaged, Refusal>
    ensures recovered { IfOk result (λ s. Recovers (kept_image s.image_a image_a.now)
        (kept_image s.image_b image_b.now) (kept_log s.log_a log_a.now) (kept_log s.log_b log_b.now)
        (Ok (recovery_of_answer s.found))) }
    ensures parts { IfOk result (λ s. IsSalvaged image_a.now image_b.now log_a.now log_b.now
        s.image_a s.image_b s.log_a s.log_b) }
    ensures accepted { (r : Recovery) → Recovers image_a.now image_b.now log_a.now log_b.now (Ok r)
        → IfOk result (λ s. (recovery_of_answer s.found ≡ r)
        × IsAllTaken s.image_a s.image_b s.log_a s.log_b) }
    ensures world { IfOk result (λ s. IsWorld s.found.words.items) }
    ensures numbers { IfOk result (λ s. (s.found.from ≤ s.found.tick) × (s.found.tick ≤ TICK_MAX)) }
    ensures refused { IfErr result (λ refusal. (refusal ≡ Refusal.NoMemory)
        ⊎ ((refusal ≡ Refusal.NoImage)
        × ¬ IsOpenImage (image_of image_a.now) × ¬ IsOpenImage (image_of image_b.now))) }
{
    let image_part_a = image_part(alloc, image_a)?;
    let image_part_b = image_part(alloc, image_b)?;
    let images = Images {
        a: image_part_a.kept(image_a),
        b: image_part_b.kept(image_b),
    };
    let log_a = Log {
        bytes: log_a,
        part: formed_part(log_a),
    };
    let log_b = Log {
        bytes: log_b,
        part: formed_part(log_b),
    };
    let (log_part_a, log_part_b) = replayed_parts(alloc, images, log_a, log_b)?;
    let kept_a = log_part_a.kept(log_a.bytes);
    let kept_b = log_part_b.kept(log_b.bytes);
    let found = recover(alloc, images.a, images.b, kept_a, kept_b)?;
    Ok(Salvaged {
        found,
        image_a: image_part_a,
        image_b: image_part_b,
        log_a: log_part_a,
        log_b: log_part_b,
    })
}

// What is taken of the images.
#[derive(Clone, Copy)]
struct Images<'a> {
    a: &'a [u8],
    b: &'a [u8],
}

// A log file, and what is taken of it.
#[derive(Clone, Copy)]
struct Log<'a> {
    bytes: &'a [u8],
    part: LogPart,
}

// Replays what is taken of the log on the newest image, and cuts it at refused actions.
fn replayed_parts(
    alloc: Global,
    images: Images<'_>,
    log_a: Log<'_>,
    log_b: Log<'_>,
) -> Result<(LogPart, LogPart), Refusal>
    requires image_a { image_of images.a.now ≢ Bad }
    requires image_b { image_of images.b.now ≢ Bad }
    requires kept_a { IsKept log_a.bytes.now log_a.part }
    requires kept_b { IsKept log_b.bytes.now log_b.part }
    ensures replayed { IfOk result (λ parts.
        AreReplayedInOrder images.entry.a.now images.entry.b.now log_a.entry.bytes.now
        log_b.entry.bytes.now log_a.entry.part log_b.entry.part parts.0 parts.1) }
    ensures kept { IfOk result (λ parts. IsKept log_a.entry.bytes.now parts.0
        × IsKept log_b.entry.bytes.now parts.1) }
    ensures refused { IfErr result (λ refusal. (refusal ≡ Refusal.NoMemory)
        ⊎ ((refusal ≡ Refusal.NoImage)
        × ¬ IsOpenImage (image_of images.entry.a.now)
        × ¬ IsOpenImage (image_of images.entry.b.now))) }
{
    let newest = recover(alloc, images.a, images.b, &[], &[])?;
    if log_a.part.begins_at(newest.tick) {
        return replayed_along(alloc, images, newest, log_a, log_b);
    }
    let (part_b, part_a) = replayed_along(alloc, images, newest, log_b, log_a)?;
    Ok((part_a, part_b))
}

// Replays the first segment on a world, and the second one on the world that the
// first one leads to.
fn replayed_along(
    alloc: Global,
    images: Images<'_>,
    newest: Recovered,
    first: Log<'_>,
    second: Log<'_>,
) -> Result<(LogPart, LogPart), Refusal>
    requires newest { Recovers images.a.now images.b.now [] [] (Ok (recovery_of_answer newest)) }
    requires world { IsWorld newest.words.items }
    requires first { IsKept first.bytes.now first.part }
    requires second { IsKept second.bytes.now second.part }
    ensures replayed { IfOk result (λ parts.
        AreReplayed newest.tick newest.words.items first.entry.bytes.now
        second.entry.bytes.now first.entry.part second.entry.part parts.0 parts.1) }
    ensures kept { IfOk result (λ parts. IsKept first.entry.bytes.now parts.0
        × IsKept second.entry.bytes.now parts.1) }
    ensures memory { IfErr result (λ refusal. refusal ≡ Refusal.NoMemory) }
{
    let part = replayed_part(newest, first.bytes, first.part);
    let reached = recover(alloc, images.a, images.b, part.kept(first.bytes), &[])?;
    let next = replayed_part(reached, second.bytes, second.part);
    Ok((part, next))
}
