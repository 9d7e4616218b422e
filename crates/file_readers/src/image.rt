ghost use Rattle.std.specs.Prelude.{◌≡◌, ◌⊎◌, ◌+◌, ◌*◌, ◌≤◌, ℕ, [], List, Some, length, take};
ghost use Rattle.std.specs.Prelude.{IsTrue, IfOk, IfErr, OnOk};
ghost use Rattle.disk_model.specs.FourFiles.{KeepsFile, counted_device};
ghost use Rattle.image_files.specs.Image.{Image, image_of, cells_in};
ghost use Rattle.image_files.specs.declared.format.TheConstants.{HEADER_BYTES, WORD_BYTES};
ghost use Rattle.image_files.specs.declared.format.TheConstants.{CELLS_MAX};
ghost use Rattle.image_files.specs.ImageRead.{IsImageRead};
ghost use Rattle.file_readers.specs.Asking.{OnlyAsked};

use crate::forward::read_forward;
use disk_model::Disk;
use file_format::{Format, MARK_END, OPEN_GATE, marked_at};
use image_files::{CELLS_MAX, FIRST_CELLS_MAX, HEADER_BYTES, WORD_BYTES};
use std::alloc::Global;
use world_actions::Refusal;

/// The greatest number of bytes of an image that count, 8,388,625. Bytes after its last
/// word are ignored.
pub const IMAGE_BYTES_MAX: usize = HEADER_BYTES + WORD_BYTES * CELLS_MAX as usize;

/// Reads an image file as far as its bytes count: its header, and then as many words as
/// the header says.
pub fn read_image_file<D: Disk>(alloc: Global, disk: &mut D) -> Result<Vec<u8>, Refusal>
    ensures read { IsTrue D.honest
        → IfOk result (λ bytes. IsImageRead (D.content disk.old) bytes.items) }
    ensures exact { IfOk result (λ bytes. (tick : ℕ) (words : List ℕ)
        → image_of bytes.items ≡ Image.Open tick words
        → length bytes.items ≡ HEADER_BYTES + WORD_BYTES * length words) }
    ensures most { IfOk result (λ bytes. length bytes.items ≤ IMAGE_BYTES_MAX) }
    ensures asked { OnlyAsked D.called IMAGE_BYTES_MAX disk.old disk.new }
    ensures no_further { IfOk result (λ bytes.
        OnlyAsked D.called (length bytes.items) disk.old disk.new) }
    ensures kept { IsTrue D.honest → KeepsFile D.Disk disk.old disk.new }
    ensures faults { D.faults disk.new ≡ counted_device (D.faults disk.old) result }
    ensures refused { IfErr result (λ refusal.
        (refusal ≡ Refusal.Device) ⊎ (refusal ≡ Refusal.NoMemory)) }
{
    let len = disk.len()?;
    let mut bytes = Vec::new(alloc);
    read_forward(disk, &mut bytes, len.min(HEADER_BYTES as u64) as usize)?;
    let end = image_end(&bytes) as u64;
    read_forward(disk, &mut bytes, len.min(end) as usize)?;
    Ok(bytes)
}

// Returns how many bytes of an image file count at most, by its first ones: a header, or all bytes
// of a shorter file.
#[tactic(auto, unfolding(image_files::specs::Image::image_of))]
fn image_end(header: &[u8]) -> usize
    requires { length header.now ≤ HEADER_BYTES }
    ensures counts { (file : List ℕ) → header.now ≡ take HEADER_BYTES file
        → image_of (take result file) ≡ image_of file }
    ensures exact { (cells : ℕ) → HEADER_BYTES ≤ length header.now
        → cells_in header.now ≡ Some cells
        → result ≤ HEADER_BYTES + WORD_BYTES * cells }
    ensures least { length header.now ≤ result }
    ensures most { result ≤ IMAGE_BYTES_MAX }
{
    if header.len() < HEADER_BYTES || header[0] != OPEN_GATE {
        return header.len();
    }
    match cells_of(header) {
        Some(cells) => HEADER_BYTES + WORD_BYTES * cells as usize,
        None => header.len(),
    }
}

// Returns the number of cells in the header of an image, if its format has an image
// of so many cells.
fn cells_of(header: &[u8]) -> Option<u64>
    requires { MARK_END ≤ length header.now }
    ensures { result ≡ cells_in header.now }
{
    let (format, cells) = marked_at(header)?;
    let most = match format {
        Format::First => FIRST_CELLS_MAX,
        Format::Second => CELLS_MAX,
    };
    if cells == 0 || cells > most {
        return None;
    }
    Some(cells)
}
