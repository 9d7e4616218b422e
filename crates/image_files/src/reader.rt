ghost use Rattle.std.specs.Prelude.{◌≡◌, ◌+◌, ◌*◌, ◌≤◌, ◌⊎◌, [], true, false, nat_le, length};
ghost use Rattle.std.specs.Prelude.{vec_capacity, IsTrue, IfOk, IfErr};
ghost use Rattle.std.specs.List.{list_all};
ghost use Rattle.image_files.specs.declared.format.TheConstants.{CELLS_MAX};
ghost use Rattle.image_files.specs.Image.{image_of, is_word, words_from};

use crate::format::{HEADER_BYTES, WORD_BYTES, decode_cells, decode_tick};
use file_format::{OPEN_GATE, u64_at};
use std::alloc::Global;
use world_actions::{LIMIT, Refusal};
use world_ticks::TICK_MAX;

/// The content of an image file.
#[derive(Debug, Drop)]
pub enum ImageState {
    /// No image.
    Closed,
    /// The words of a world after this tick.
    Open { tick: u64, words: Vec<u64> },
}

ghost use Rattle.image_files.specs.Reading.{ReadsAs};

/// Reads a file of any bytes, in either format. It refuses with `BadImage`, and with `NoMemory`
/// only for an image that is whole. It takes memory for no more words than the file has bytes for.
/// Each word is judged as it is read.
#[tactic(auto, unfolding(crate::specs::Image::image_of))]
pub fn read_image(alloc: Global, bytes: &[u8]) -> Result<ImageState, Refusal>
    ensures { ReadsAs result (image_of bytes.now) }
{
    if bytes.len() < HEADER_BYTES || bytes[0] != OPEN_GATE {
        return Ok(ImageState::Closed);
    }
    let Some(cells) = decode_cells(bytes) else {
        return Err(Refusal::BadImage);
    };
    let tick = decode_tick(bytes);
    if tick > TICK_MAX || !has_words(bytes, cells as usize) {
        return Err(Refusal::BadImage);
    }
    let words = read_words(alloc, bytes, cells as usize)?;
    Ok(ImageState::Open { tick, words })
}

// True if a file is long enough for a word of each cell.
fn has_words(bytes: &[u8], cells: usize) -> bool
    requires { cells ≤ CELLS_MAX }
    ensures { result ≡ nat_le (HEADER_BYTES + WORD_BYTES * cells) (length bytes.now) }
{
    HEADER_BYTES + WORD_BYTES * cells <= bytes.len()
}

// Reads the words of a file that is long enough for them. If there is no memory for them, they
// are only judged.
fn read_words(alloc: Global, bytes: &[u8], cells: usize) -> Result<Vec<u64>, Refusal>
    requires { HEADER_BYTES + WORD_BYTES * cells ≤ length bytes.now }
    ensures read { IfOk result (λ words. (words.items ≡ words_from bytes.now HEADER_BYTES cells)
        × (list_all is_word (words_from bytes.now HEADER_BYTES cells) ≡ true)) }
    ensures refused { IfErr result (λ refusal. ((refusal ≡ Refusal.NoMemory)
        × (list_all is_word (words_from bytes.now HEADER_BYTES cells) ≡ true))
        ⊎ ((refusal ≡ Refusal.BadImage)
        × (list_all is_word (words_from bytes.now HEADER_BYTES cells) ≡ false))) }
{
    match Vec::with_capacity(alloc, cells) {
        Ok(mut words) => {
            if push_words(&mut words, bytes, cells) {
                Ok(words)
            } else {
                Err(Refusal::BadImage)
            }
        }
        Err(_) if are_words(bytes, cells) => Err(Refusal::NoMemory),
        Err(_) => Err(Refusal::BadImage),
    }
}

// Puts the words of a file into a list that has room for them, up to the first that a cell may not
// hold. Returns true if there is no such word.
fn push_words(words: &mut Vec<u64>, bytes: &[u8], cells: usize) -> bool
    requires long { HEADER_BYTES + WORD_BYTES * cells ≤ length bytes.now }
    requires none { words.old.items ≡ [] }
    requires room { cells ≤ vec_capacity words.old }
    ensures judged { result ≡ list_all is_word (words_from bytes.now HEADER_BYTES cells) }
    ensures put { IsTrue result → words.new.items ≡ words_from bytes.now HEADER_BYTES cells }
{
    for i in 0..cells {
        let word = u64_at(bytes, HEADER_BYTES + WORD_BYTES * i);
        if !is_word(word) {
            return false;
        }
        words.push_reserved(word);
    }
    true
}

fn are_words(bytes: &[u8], cells: usize) -> bool
    requires { HEADER_BYTES + WORD_BYTES * cells ≤ length bytes.now }
    ensures { result ≡ list_all is_word (words_from bytes.now HEADER_BYTES cells) }
{
    for i in 0..cells {
        if !is_word(u64_at(bytes, HEADER_BYTES + WORD_BYTES * i)) {
            return false;
        }
    }
    true
}

fn is_word(word: u64) -> bool
    ensures { result ≡ is_word word }
{
    word <= LIMIT
}
