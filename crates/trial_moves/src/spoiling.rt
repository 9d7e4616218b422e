use disk_model::ModelFile;
use trial_kit::Random;
use world_actions::Refusal;

/// Changes the bytes so that no crash may leave them of this file. They get one byte too many, lose
/// durable ones, or change at a place that isn't uncertain.
pub fn spoil(left: &mut Vec<u8>, file: &ModelFile, random: &mut Random) -> Result<(), Refusal> {
    let durable = file.durable().len() as u64;
    let place = random.below(durable);
    match random.below(3) {
        0 if durable > 0 => left.truncate(place as usize),
        1 if durable > 0 && !file.uncertain(place) => {
            if let Some(byte) = left.get_mut(place as usize) {
                *byte = !*byte;
            }
        }
        _ => {
            for _ in left.len()..file.now().len().saturating_add(1) {
                left.push(random.byte())?;
            }
        }
    }
    Ok(())
}
