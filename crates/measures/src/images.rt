use crate::moves::next;
use file_format::{Format, OPEN_GATE, SECOND_MARK};
use image_files::{HEADER_BYTES, WORD_BYTES};
use std::alloc::{AllocError, Global};

/// An image of so many cells in a format, at tick 0. Its words are below 2^44.
pub fn image_of(alloc: Global, format: Format, cells: u32) -> Result<Vec<u8>, AllocError> {
    let size = HEADER_BYTES.saturating_add((cells as usize).saturating_mul(WORD_BYTES));
    let mut bytes = Vec::with_capacity(alloc, size)?;
    put_image(&mut bytes, format, cells)?;
    Ok(bytes)
}

fn put_image(bytes: &mut Vec<u8>, format: Format, cells: u32) -> Result<(), AllocError> {
    let mark = match format {
        Format::First => 0,
        Format::Second => SECOND_MARK,
    };
    bytes.push(OPEN_GATE)?;
    put_number(bytes, mark + u64::from(cells))?;
    put_number(bytes, 0)?;
    let mut number = 1;
    for _ in 0..cells {
        number = next(number);
        put_number(bytes, number >> 20)?;
    }
    Ok(())
}

fn put_number(bytes: &mut Vec<u8>, number: u64) -> Result<(), AllocError> {
    bytes.extend_from_slice(&number.to_le_bytes())
}
