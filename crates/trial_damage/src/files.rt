use file_format::Format;
use std::alloc::{AllocError, Global};
use world_actions::Action;

/// The bytes of the four files.
#[derive(Debug, Drop)]
pub struct Files {
    pub image_a: Vec<u8>,
    pub image_b: Vec<u8>,
    pub log_a: Vec<u8>,
    pub log_b: Vec<u8>,
}

/// The formats of the four files.
#[derive(Clone, Copy, Debug)]
pub struct Formats {
    pub image_a: Format,
    pub image_b: Format,
    pub log_a: Format,
    pub log_b: Format,
}

/// How many mixes of formats there are.
pub const MIXES: u32 = 16;

impl Formats {
    /// The mix of this number, which is below `MIXES` and has a bit for each file.
    pub fn mix(number: u32) -> Self {
        let of_bit = |bit: u32| {
            if (number >> bit) & 1 == 0 {
                Format::First
            } else {
                Format::Second
            }
        };
        Formats {
            image_a: of_bit(0),
            image_b: of_bit(1),
            log_a: of_bit(2),
            log_b: of_bit(3),
        }
    }
}

/// The two actions of tick 2.
const TICK_2: [Action; 2] = [
    Action::Set { cell: 0, value: 7 },
    Action::Add { cell: 1, by: -2 },
];

/// The same tick with a cap, for the second format.
const TICK_2_WITH_CAP: [Action; 2] = [
    Action::Set { cell: 0, value: 7 },
    Action::Cap { cell: 1, value: 7 },
];

/// The action of tick 3.
const TICK_3: [Action; 1] = [Action::Transfer {
    from: 1,
    to: 2,
    amount: 3,
}];

/// The two actions of tick 4. Tick 5 has none.
const TICK_4: [Action; 2] = [
    Action::Add { cell: 2, by: 4 },
    Action::Transfer {
        from: 0,
        to: 1,
        amount: 2,
    },
];

/// The two actions of tick 6.
const TICK_6: [Action; 2] = [
    Action::Set { cell: 2, value: 1 },
    Action::Add { cell: 0, by: -5 },
];

/// Tick 6 with a swap, for the second format.
const TICK_6_WITH_SWAP: [Action; 2] = [
    Action::Swap { a: 1, b: 2 },
    Action::Add { cell: 0, by: -5 },
];

/// The byte of a gate that is open.
const OPEN: u8 = 1;

/// The byte of a gate that is closed.
const CLOSED: u8 = 0;

/// The mark of the second format, in the highest byte of the number after a gate.
const SECOND_MARK: u64 = 0x20 << 56;

/// Good files in these formats, with images of ticks 3 and 1. One segment has ticks 2 and 3 in one
/// group. The other one has ticks 4 to 6, each in its own group. The numbers in the files are
/// small, so that damage often makes two alike.
pub fn good_files(alloc: Global, formats: Formats) -> Result<Files, AllocError> {
    let tick_2 = of_format(formats.log_a, &TICK_2, &TICK_2_WITH_CAP);
    let tick_6 = of_format(formats.log_b, &TICK_6, &TICK_6_WITH_SWAP);
    Ok(Files {
        image_a: image(alloc, formats.image_a, 3, &[7, 4, 3])?,
        image_b: image(alloc, formats.image_b, 1, &[5, 9, 0])?,
        log_a: segment(alloc, formats.log_a, 1, &[&[tick_2, &TICK_3]])?,
        log_b: segment(alloc, formats.log_b, 3, &[&[&TICK_4], &[&[]], &[tick_6]])?,
    })
}

// Chooses one of two ticks by the format.
fn of_format<'a>(format: Format, first: &'a [Action], second: &'a [Action]) -> &'a [Action] {
    match format {
        Format::First => first,
        Format::Second => second,
    }
}

// The open gate, and a number with the mark of the format after it.
fn front(alloc: Global, format: Format, number: u64) -> Result<Vec<u8>, AllocError> {
    let mark = match format {
        Format::First => 0,
        Format::Second => SECOND_MARK,
    };
    let mut bytes = vec![in alloc; OPEN]?;
    bytes.extend_from_slice(&(number | mark).to_le_bytes())?;
    Ok(bytes)
}

// The bytes of an open image.
fn image(alloc: Global, format: Format, tick: u64, words: &[u64]) -> Result<Vec<u8>, AllocError> {
    let mut bytes = front(alloc, format, words.len() as u64)?;
    bytes.extend_from_slice(&tick.to_le_bytes())?;
    for word in words {
        bytes.extend_from_slice(&word.to_le_bytes())?;
    }
    Ok(bytes)
}

// The bytes of an open segment: groups of ticks of actions.
fn segment(
    alloc: Global,
    format: Format,
    base: u64,
    groups: &[&[&[Action]]],
) -> Result<Vec<u8>, AllocError> {
    let mut bytes = front(alloc, format, base)?;
    for ticks in groups {
        bytes.push(OPEN)?;
        put_count(&mut bytes, ticks.len())?;
        for actions in *ticks {
            put_count(&mut bytes, actions.len())?;
            for action in *actions {
                put_action(&mut bytes, *action)?;
            }
        }
    }
    bytes.push(CLOSED)?;
    Ok(bytes)
}

// Adds the two bytes of a count.
fn put_count(bytes: &mut Vec<u8>, count: usize) -> Result<(), AllocError> {
    bytes.extend_from_slice(&(count.min(1000) as u16).to_le_bytes())
}

fn put_action(bytes: &mut Vec<u8>, action: Action) -> Result<(), AllocError> {
    match action {
        Action::Set { cell, value } => {
            bytes.push(1)?;
            bytes.extend_from_slice(&cell.to_le_bytes())?;
            bytes.extend_from_slice(&value.to_le_bytes())
        }
        Action::Add { cell, by } => {
            bytes.push(2)?;
            bytes.extend_from_slice(&cell.to_le_bytes())?;
            bytes.extend_from_slice(&by.to_le_bytes())
        }
        Action::Transfer { from, to, amount } => {
            bytes.push(3)?;
            bytes.extend_from_slice(&from.to_le_bytes())?;
            bytes.extend_from_slice(&to.to_le_bytes())?;
            bytes.extend_from_slice(&amount.to_le_bytes())
        }
        Action::Swap { a, b } => {
            bytes.push(4)?;
            bytes.extend_from_slice(&a.to_le_bytes())?;
            bytes.extend_from_slice(&b.to_le_bytes())
        }
        Action::Cap { cell, value } => {
            bytes.push(5)?;
            bytes.extend_from_slice(&cell.to_le_bytes())?;
            bytes.extend_from_slice(&value.to_le_bytes())
        }
    }
}
