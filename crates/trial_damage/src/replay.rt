use action_log::LogState;
use recovery::Recovered;
use world_actions::{Action, LIMIT};

/// Replays the ticks of a segment on a world, if the segment begins at its tick. Returns true if no
/// action was refused.
pub fn replay_on(world: &mut Recovered, log: &LogState) -> bool {
    let LogState::Open { base, ticks } = log else {
        return true;
    };
    if *base != world.tick {
        return true;
    }
    for tick in ticks {
        for action in tick {
            if change(&mut world.words, *action).is_none() {
                return false;
            }
        }
    }
    world.tick = world.tick.saturating_add(ticks.len() as u64);
    true
}

// Does an action, or returns None if it is refused. The reasons are a missing cell, two cells that
// are the same, a cap out of range, or a word that would leave its range. An amount or a difference
// out of range takes any word out of its range.
fn change(words: &mut [u64], action: Action) -> Option<()> {
    match action {
        Action::Set { cell, value } => put(words, cell, value),
        Action::Add { cell, by } => {
            let sum = word_at(words, cell)?.checked_add_signed(by)?;
            put(words, cell, sum)
        }
        Action::Transfer { from, to, amount } => {
            if from == to {
                return None;
            }
            let less = word_at(words, from)?.checked_sub(amount)?;
            let more = word_at(words, to)?.checked_add(amount)?;
            put(words, from, less)?;
            put(words, to, more)
        }
        Action::Swap { a, b } => {
            if a == b {
                return None;
            }
            let one = word_at(words, a)?;
            let other = word_at(words, b)?;
            put(words, a, other)?;
            put(words, b, one)
        }
        Action::Cap { cell, value } => {
            if value > LIMIT {
                return None;
            }
            let word = word_at(words, cell)?;
            put(words, cell, word.min(value))
        }
    }
}

fn word_at(words: &[u64], cell: u32) -> Option<u64> {
    words.get(cell as usize).copied()
}

fn put(words: &mut [u64], cell: u32, word: u64) -> Option<()> {
    if word > LIMIT {
        return None;
    }
    *words.get_mut(cell as usize)? = word;
    Some(())
}
