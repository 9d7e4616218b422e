use image_files::{ImageState, is_shut, read_image};
use std::alloc::Global;
use std::process::Abort;
use std::test::Fail;
use world_actions::Refusal;
use world_ticks::TICK_MAX;

const ONE: [u8; 8] = [1, 0, 0, 0, 0, 0, 0, 0];

const NOTHING: [u8; 8] = [0; 8];

// 5 + 256 as a word.
const SMALL: [u8; 8] = [5, 1, 0, 0, 0, 0, 0, 0];

// LIMIT + 1 as a word, TICK_MAX as a tick.
const MUCH: [u8; 8] = [0x00, 0x00, 0x64, 0xa7, 0xb3, 0xb6, 0xe0, 0x0d];

// An image that isn't refused: closed, open with the tick and the words that it should have, or
// open with others.
#[derive(Clone, Copy, Debug, PartialEq, Eq)]
enum Found {
    Closed,
    AsWanted,
    Other,
}

// The outcome of reading an image that should have this tick and these words.
fn outcome(alloc: Global, bytes: &[u8], want_tick: u64, want: &[u64]) -> Result<Found, Refusal> {
    match read_image(alloc, bytes)? {
        ImageState::Closed => Ok(Found::Closed),
        ImageState::Open { tick, words } => {
            if tick == want_tick && words.as_slice() == want {
                Ok(Found::AsWanted)
            } else {
                Ok(Found::Other)
            }
        }
    }
}

// Asserts the outcomes of an image of two words that is cut at each place.
fn assert_cut(rt: &impl Abort, alloc: Global, image: &[u8; 33]) {
    for length in 0..=33 {
        let want = match length {
            0..=16 => Ok(Found::Closed),
            17..=32 => Err(Refusal::BadImage),
            _ => Ok(Found::AsWanted),
        };
        let read = outcome(alloc, &image[..length], 3, &[5, 7]);
        assert_eq!(rt; read, want, "{length} bytes, mark {}", image[8]);
    }
}

#[test]
fn reads_image_of_two_words(rt: HostRuntime) {
    let alloc = rt.alloc();
    let mut image = [
        1, 2, 0, 0, 0, 0, 0, 0, 0, 3, 0, 0, 0, 0, 0, 0, 0, 5, 0, 0, 0, 0, 0, 0, 0, 7, 0, 0, 0, 0,
        0, 0, 0,
    ];
    for mark in [0x00, 0x20] {
        image[8] = mark;
        assert_cut(&rt, alloc, &image);
    }
    for mark in [0x01, 0x10, 0x1f, 0x21, 0x30, 0xff] {
        image[8] = mark;
        let read = outcome(alloc, &image, 3, &[5, 7]);
        assert_eq!(rt; read, Err(Refusal::BadImage), "mark {mark}");
    }
}

// A file of one cell with this header and word, and a byte after it.
fn file(alloc: Global, cells: &[u8], tick: &[u8], word: &[u8]) -> Result<Vec<u8>, Refusal> {
    let mut file = vec![in alloc; 1]?;
    for part in [cells, tick, word, &[9]] {
        file.extend_from_slice(part)?;
    }
    Ok(file)
}

// The outcome of a file with this header and word, if it should be open with this tick and word.
fn outcome_of_one(
    alloc: Global,
    cells: &[u8],
    tick: &[u8],
    word: &[u8],
    (want_tick, want_word): (u64, u64),
) -> Result<Found, Refusal> {
    let file = file(alloc, cells, tick, word)?;
    outcome(alloc, &file, want_tick, &[want_word])
}

#[test]
fn judges_header_and_words(rt: HostRuntime) {
    let (as_wanted, bad) = (Ok(Found::AsWanted), Err(Refusal::BadImage));
    let above_most_cells = [1, 0, 1, 0, 0, 0, 0, 0];
    let one_in_second = [1, 0, 0, 0, 0, 0, 0, 0x20];
    let none_in_second = [0, 0, 0, 0, 0, 0, 0, 0x20];
    let above_most_in_second = [1, 0, 0x10, 0, 0, 0, 0, 0x20];
    let above_last_tick = [0x01, 0x00, 0x64, 0xa7, 0xb3, 0xb6, 0xe0, 0x0d];
    for (cells, tick, word, want, open) in [
        (&ONE, &NOTHING, &SMALL, as_wanted, (0, 261)),
        (&ONE, &MUCH, &NOTHING, as_wanted, (TICK_MAX, 0)),
        (&ONE, &NOTHING, &MUCH, bad, (0, 0)),
        (&ONE, &above_last_tick, &NOTHING, bad, (0, 0)),
        (&NOTHING, &ONE, &ONE, bad, (0, 0)),
        (&above_most_cells, &ONE, &ONE, bad, (0, 0)),
        (&one_in_second, &NOTHING, &SMALL, as_wanted, (0, 261)),
        (&none_in_second, &ONE, &ONE, bad, (0, 0)),
        (&above_most_in_second, &ONE, &ONE, bad, (0, 0)),
        (&[0xff; 8], &ONE, &ONE, bad, (0, 0)),
    ] {
        let read = outcome_of_one(rt.alloc(), cells, tick, word, open);
        assert_eq!(rt; read, want, "{cells:?} {tick:?} {word:?}");
    }
}

#[test]
fn other_gates_are_closed(rt: HostRuntime) -> Result<(), Fail> {
    let mut bytes = file(rt.alloc(), &ONE, &ONE, &ONE)?;
    for gate in [0, 2, 0xff] {
        bytes.as_mut_slice().fill(gate);
        let read = outcome(rt.alloc(), &bytes, 0, &[]);
        assert_eq!(rt; (read, is_shut(&bytes)), (Ok(Found::Closed), true));
    }
    assert!(rt; !is_shut(&[]) && !is_shut(&[1]));
    Ok(())
}

// An open image of so many cells, whose words are their numbers, at the last tick.
fn numbered(alloc: Global, header: &[u8], cells: u32) -> Result<Vec<u8>, Refusal> {
    let mut image = header.to_vec(alloc)?;
    image.extend_from_slice(&MUCH)?;
    for cell in 0..cells {
        image.extend_from_slice(&u64::from(cell).to_le_bytes())?;
    }
    Ok(image)
}

// True if each word is the number of its cell.
fn are_numbered(words: &[u64]) -> bool {
    for cell in 0..words.len() {
        if words[cell] != cell as u64 {
            return false;
        }
    }
    true
}

// Returns the tick, how many words there are, and if each is the number of its cell. The
// error is the refusal.
fn reported(alloc: Global, header: &[u8], cells: u32) -> Result<(u64, usize, bool), Refusal> {
    let image = numbered(alloc, header, cells)?;
    match read_image(alloc, &image)? {
        ImageState::Open { tick, words } => Ok((tick, words.len(), are_numbered(&words))),
        ImageState::Closed => Ok((0, 0, false)),
    }
}

#[test]
fn reads_largest_image_of_each_format(rt: HostRuntime) -> Result<(), Fail> {
    for (header, larger, cells) in [
        (
            [1, 0, 0, 1, 0, 0, 0, 0, 0x00],
            [1, 1, 0, 1, 0, 0, 0, 0, 0x00],
            65_536u32,
        ),
        (
            [1, 0, 0, 0x10, 0, 0, 0, 0, 0x20],
            [1, 1, 0, 0x10, 0, 0, 0, 0, 0x20],
            1_048_576,
        ),
    ] {
        let read = reported(rt.alloc(), &header, cells)?;
        assert_eq!(rt; read, (TICK_MAX, cells as usize, true));
        let read = reported(rt.alloc(), &larger, cells.saturating_add(1));
        assert_eq!(rt; read, Err(Refusal::BadImage), "{cells} cells and one");
    }
    Ok(())
}
