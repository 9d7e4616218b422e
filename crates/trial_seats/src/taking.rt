ghost use Rattle.std.specs.Prelude.{◌≡◌, true, false, IfOk, OnOk};

use crate::fingerprint::Fingerprint;
use crate::wrong::Wrong;
use capture_core::{Taken, Taker};
use shared_capture::{Back, Method};
use std::alloc::Global;
use std::thread::yield_now;

/// How often a round is looked for, at most.
const LOOKS: u64 = 1 << 26;

/// Takes so many rounds into the image. Returns the fingerprint of each.
pub fn take_rounds<M: Method>(
    alloc: Global,
    mut back: Back<M>,
    mut image: Vec<u64>,
    rounds: u32,
) -> Result<(Back<M>, Vec<u64>), Wrong>
    ensures { IfOk result (λ done. done.0.pair ≡ back.pair) }
{
    let mut taken = Vec::new(alloc);
    for round in 0..rounds {
        let number = u64::from(round) + 1;
        let tick = find_round(&mut back, number)?;
        take_round(&mut back, &mut image, number)?;
        taken.push(Fingerprint::of(&image).at(tick))?;
    }
    Ok((back, taken))
}

// Looks until a round is open.
fn find_round<M: Method>(back: &mut Back<M>, number: u64) -> Result<u64, Wrong>
    ensures pair { back.new.pair ≡ back.old.pair }
    ensures working { OnOk result (back.new.working ≡ true) }
{
    for _ in 0..LOOKS {
        if let Some(tick) = back.look() {
            return Ok(tick);
        }
        yield_now();
    }
    Err(Wrong::NotFound(number))
}

// Takes all cells of the round in work, and ends it. An unchanged cell keeps its word in the image.
fn take_round<M: Method>(back: &mut Back<M>, image: &mut [u64], number: u64) -> Result<(), Wrong>
    requires { back.old.working ≡ true }
    ensures { back.new.pair ≡ back.old.pair }
{
    for word in image.iter_mut() {
        match back.take() {
            Some(Taken::Word(taken)) => *word = taken,
            Some(Taken::Same) => {}
            None => return Err(Wrong::OtherCells(number)),
        }
    }
    if back.take().is_some() {
        return Err(Wrong::OtherCells(number));
    }
    back.finish();
    Ok(())
}
