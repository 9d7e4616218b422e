use crate::random::Random;
use disk_model::ModelFile;
use std::alloc::Global;
use world_actions::Refusal;

/// Returns some bytes that a crash may leave of a file. Their length is that of the durable bytes,
/// that of the present bytes, or one between. An uncertain place gets any byte, often the present
/// one or the durable one. Each other place has its durable byte.
pub fn left_by(alloc: Global, file: &ModelFile, random: &mut Random) -> Result<Vec<u8>, Refusal> {
    let (durable, now) = (file.durable(), file.now());
    let rest = (now.len() as u64).saturating_sub(durable.len() as u64);
    let more = match random.below(3) {
        0 => 0,
        1 => rest,
        _ => random.below(rest.saturating_add(1)),
    };
    let habit = random.below(4);
    let mut left = Vec::new(alloc);
    for place in 0..(durable.len() as u64).saturating_add(more) {
        left.push(byte_at(file, place, habit, random))?;
    }
    Ok(left)
}

// The byte that is left at a place. An uncertain place has the present byte by habit 0, the durable
// one by habit 1, and any byte by habit 2. Any other habit chooses one of the three each time.
fn byte_at(file: &ModelFile, place: u64, habit: u64, random: &mut Random) -> u8 {
    let durable = file.durable().get(place as usize).copied();
    if let Some(byte) = durable
        && !file.uncertain(place)
    {
        return byte;
    }
    let choice = if habit < 3 { habit } else { random.below(3) };
    match choice {
        0 => file.now().get(place as usize).copied().unwrap_or(0),
        1 => durable.unwrap_or(0),
        _ => random.byte(),
    }
}
