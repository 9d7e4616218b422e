// Segments of the log, byte by byte.
use world_actions::Refusal;

// Adds groups of 32 ticks without an action.
pub(crate) fn push_groups(bytes: &mut Vec<u8>, groups: u32) -> Result<(), Refusal> {
    let mut group = [0; 67];
    group[0] = 1;
    group[1] = 32;
    for _ in 0..groups {
        bytes.extend_from_slice(&group)?;
    }
    Ok(())
}
