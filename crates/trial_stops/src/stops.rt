use crate::fixed::Step;
use crate::run::Run;
use capture_core::Capture;
use disk_model::Leaving;
use std::alloc::Global;
use trial_kit::StopTally;
use world_actions::Refusal;

/// The kinds of crashes that are tried.
pub const KINDS: [Leaving; 5] = [
    Leaving::Lose,
    Leaving::Keep,
    Leaving::Fill(0),
    Leaving::Fill(1),
    Leaving::Fill(255),
];

/// A crash that leaves a gate open if it may.
const OPENING: Leaving = Leaving::Fill(1);

/// More moves than a start has.
const MOVES: u32 = 100;

/// Stops the run after each number of moves, by each kind of crash.
pub fn try_stops<C: Capture>(
    alloc: Global,
    steps: &[Step],
    tally: &mut StopTally,
) -> Result<(), Refusal> {
    for count in 0..=steps.len() {
        let (made, _) = steps.split_at(count.min(steps.len()));
        tally.stop();
        for leaving in KINDS {
            try_stop::<C>(alloc, made, leaving, tally)?;
        }
    }
    Ok(())
}

// Stops the run after these moves, by a crash of this kind. It stops it again after each number of
// moves of the start, by the same kind and by one that may open a gate.
fn try_stop<C: Capture>(
    alloc: Global,
    made: &[Step],
    leaving: Leaving,
    tally: &mut StopTally,
) -> Result<(), Refusal> {
    for moves in 0..=stopped_once::<C>(alloc, made, leaving, tally)? {
        for again in [leaving, OPENING] {
            tally.crash_in_start(stopped_again::<C>(alloc, made, [leaving, again], moves)?);
        }
    }
    Ok(())
}

// Crashes after these moves, and returns how many moves the start has.
fn stopped_once<C: Capture>(
    alloc: Global,
    made: &[Step],
    leaving: Leaving,
    tally: &mut StopTally,
) -> Result<u32, Refusal> {
    let mut run = Run::<C>::started(alloc)?;
    run.follow(made);
    tally.crash(run.crash(leaving)?);
    Ok(run.start(MOVES))
}

// Crashes twice, the second time after so many moves of the start. Returns the recovered tick.
fn stopped_again<C: Capture>(
    alloc: Global,
    made: &[Step],
    leaving: [Leaving; 2],
    moves: u32,
) -> Result<Option<u64>, Refusal> {
    let mut run = Run::<C>::started(alloc)?;
    run.follow(made);
    stop_twice(&mut run, leaving, moves)
}

fn stop_twice<C: Capture>(
    run: &mut Run<C>,
    leaving: [Leaving; 2],
    moves: u32,
) -> Result<Option<u64>, Refusal> {
    let [first, second] = leaving;
    run.crash(first)?;
    run.start(moves);
    run.crash(second)
}
