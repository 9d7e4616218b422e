use file_format::{Format, MARK_PLACE, format_of, marked, marked_at, u64_at};
use std::process::Abort;

// Codes for no format, for the first one and for the second one.
const NONE: u8 = 0;

const FIRST: u8 = 1;

const SECOND: u8 = 2;

fn number_of(format: Format) -> u8 {
    match format {
        Format::First => FIRST,
        Format::Second => SECOND,
    }
}

// The format of a file.
fn reported(bytes: &[u8]) -> u8 {
    match format_of(bytes) {
        Some(format) => number_of(format),
        None => NONE,
    }
}

// The format and the number after the gate of a file of ten bytes.
fn mark_of(file: &[u8; 10]) -> (u8, u64) {
    match marked_at(file) {
        Some((format, number)) => (number_of(format), number),
        None => (NONE, 0),
    }
}

// The formats of a file with each value of byte 8.
fn assert_formats(rt: &impl Abort, mut file: [u8; 10]) {
    for mark in 0..=255 {
        file[8] = mark;
        let format = match mark >> 4 {
            0 => FIRST,
            2 => SECOND,
            _ => NONE,
        };
        assert_eq!(rt; reported(&file), format, "{mark}");
    }
}

#[test]
fn byte_8_reports_the_format(rt: HostRuntime) {
    let mut file = [1, 2, 0, 0, 0, 0, 0, 0, 0, 7];
    assert_eq!(rt; mark_of(&file), (FIRST, 2));
    assert_formats(&rt, file);
    file[8] = 0x20;
    assert_eq!(rt; mark_of(&file), (SECOND, 2));
    assert_eq!(rt; u64_at(&file, MARK_PLACE), marked(2));
    assert_eq!(rt;
        (reported(&file[..8]), reported(&file[..9])),
        (NONE, SECOND)
    );
}
