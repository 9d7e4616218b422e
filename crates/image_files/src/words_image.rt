//! The image of a world that is made of given words.
ghost use Rattle.std.specs.Prelude.{◌≡◌, ◌⊎◌, ◌≤◌, ◌++◌, ◌∷◌, true, false, [], ℕ, List, length};
ghost use Rattle.std.specs.Prelude.{IsTrue, IfOk, IfErr, OnOk, Err};
ghost use Rattle.std.specs.List.{flat_map};
ghost use Rattle.world_actions.specs.declared.world.TheConstants.{CELLS};
ghost use Rattle.world_actions.specs.World.{IsWorld};
ghost use Rattle.file_format.specs.declared.gate.TheConstants.{OPEN_GATE};
ghost use Rattle.file_format.specs.declared.format.Format.TheVariants.{Second};
ghost use Rattle.file_format.specs.Gate.{HasShutGate, HasNoShutGate};
ghost use Rattle.file_format.specs.Number.{number_bytes};
ghost use Rattle.disk_model.specs.Disk.{Only, Grew, IsDeviceFault, counted, overwritten};
ghost use Rattle.image_files.specs.Image.{Closed, Open, image_of, header_bytes};
ghost use Rattle.image_files.specs.declared.format.TheConstants.{WORD_BYTES};
ghost use Rattle.image_files.specs.ImageRead.{IsImageRead};
ghost use Rattle.image_files.specs.WordsImage.{LeavesNone};

use crate::format::{WORD_BYTES, images_read_back};
use disk_model::Disk;
use file_format::{CLOSED_GATE, OPEN_GATE, is_shut, marked, put_u64};
use std::alloc::{AllocError, Global};
use world_actions::Refusal;

/// Writes an image of these words at tick 0 over a file that holds none. These bytes were read of
/// it: its first ones, which read as all of it. The gate is opened once all else is durable: until
/// then a crash leaves no image.
pub fn write_words<D: Disk>(
    alloc: Global,
    words: &[u64],
    bytes: &[u8],
    image: &mut D,
) -> Result<(), Refusal>
    requires world { IsWorld words.now }
    requires read { IsTrue D.honest → IsImageRead (D.content image.old) bytes.now }
    requires closed { image_of bytes.now ≡ Closed }
    ensures made { IsTrue D.honest
        → OnOk result (image_of (D.content image.new) ≡ Open 0 words.now) }
    ensures durable { IsTrue D.honest
        → OnOk result (Only (D.content image.new) (D.may_leave image.new)) }
    ensures left { IsTrue D.honest → Only (D.content image.old) (D.may_leave image.old)
        → (left : List ℕ) → D.may_leave image.new left
        → (image_of left ≡ Closed) ⊎ (image_of left ≡ Open 0 words.now) }
    ensures refused { IfErr result (λ refusal. (refusal ≡ Refusal.NoMemory)
        ⊎ (refusal ≡ Refusal.Device)) }
    ensures memory { result ≡ Err Refusal.NoMemory → image.new ≡ image.old }
    ensures device { result ≡ Err Refusal.Device → Grew (D.faults image.old) (D.faults image.new) }
    ensures no_fault { OnOk result (D.faults image.new ≡ D.faults image.old) }
{
    let body = image_body(alloc, 0, words)?;
    shut_gate(is_shut(bytes), image)?;
    write_body(&body, image)?;
    open_gate(image)
}

// Writes a closed gate over a file that holds no image, unless its gate is shut already. A file of
// which a write may leave an open gate is too short for an image.
fn shut_gate<D: Disk>(already_shut: bool, image: &mut D) -> Result<(), Refusal>
    requires closed { IsTrue D.honest → image_of (D.content image.old) ≡ Closed }
    requires has_shut { IsTrue D.honest → already_shut ≡ true → HasShutGate (D.content image.old) }
    requires has_no_shut { IsTrue D.honest → already_shut ≡ false
        → HasNoShutGate (D.content image.old) }
    ensures shut { IsTrue D.honest → OnOk result (HasShutGate (D.content image.new)) }
    ensures left { IsTrue D.honest → Only (D.content image.old) (D.may_leave image.old)
        → LeavesNone (D.may_leave image.new) }
    ensures durable { IsTrue D.honest → Only (D.content image.old) (D.may_leave image.old)
        → OnOk result (Only (D.content image.new) (D.may_leave image.new)) }
    ensures fault { IsDeviceFault result }
    ensures faults { D.faults image.new ≡ counted (D.faults image.old) result }
{
    images_read_back();
    if already_shut {
        return Ok(());
    }
    image.write_at(0, &[CLOSED_GATE])?;
    image.sync()
}

// Writes the bytes after a shut gate, and makes them durable.
fn write_body<D: Disk>(body: &[u8], image: &mut D) -> Result<(), Refusal>
    requires { IsTrue D.honest → HasShutGate (D.content image.old) }
    ensures written { IsTrue D.honest
        → OnOk result (D.content image.new ≡ overwritten (D.content image.old) 1 body.now) }
    ensures left { IsTrue D.honest → Only (D.content image.old) (D.may_leave image.old)
        → LeavesNone (D.may_leave image.new) }
    ensures durable { IsTrue D.honest
        → OnOk result (Only (D.content image.new) (D.may_leave image.new)) }
    ensures fault { IsDeviceFault result }
    ensures faults { D.faults image.new ≡ counted (D.faults image.old) result }
{
    image.write_at(1, body)?;
    image.sync()
}

// Opens a shut gate, and makes that durable.
fn open_gate<D: Disk>(image: &mut D) -> Result<(), Refusal>
    requires { IsTrue D.honest → HasShutGate (D.content image.old) }
    ensures opened { IsTrue D.honest
        → OnOk result (D.content image.new ≡ overwritten (D.content image.old) 0 (OPEN_GATE ∷ [])) }
    ensures left { IsTrue D.honest → Only (D.content image.old) (D.may_leave image.old)
        → (left : List ℕ) → D.may_leave image.new left
        → (image_of left ≡ Closed) ⊎ (left ≡ overwritten (D.content image.old) 0 (OPEN_GATE ∷ [])) }
    ensures durable { IsTrue D.honest
        → OnOk result (Only (D.content image.new) (D.may_leave image.new)) }
    ensures fault { IsDeviceFault result }
    ensures faults { D.faults image.new ≡ counted (D.faults image.old) result }
{
    image.write_at(0, &[OPEN_GATE])?;
    image.sync()
}

/// The bytes after the gate of an image of these words after a tick.
pub fn image_body(alloc: Global, tick: u64, words: &[u64]) -> Result<Vec<u8>, AllocError>
    requires { length words.now ≤ CELLS }
    ensures { IfOk result (λ body. body.items
        ≡ header_bytes Second (length words.now) tick
        ++ flat_map (number_bytes WORD_BYTES) words.now) }
{
    let mut body = Vec::with_capacity(alloc, WORD_BYTES * (2 + words.len()))?;
    put_u64(&mut body, marked(words.len() as u64));
    put_u64(&mut body, tick);
    for word in words {
        put_u64(&mut body, *word);
    }
    Ok(body)
}
