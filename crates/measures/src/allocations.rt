use crate::file_allocations::{recover_files, run_batch, step_keepers};
use crate::measuring::{CELLS, zeros};
use crate::moves::take_cells;
use crate::seats::Seats;
use crate::store::Store;
use anyhow::Error;
use capture_core::{Capture, PlainCopy};
use ping_pong::PingPong;
use shared_capture::{ping_pong_pair, zigzag_pair};
use trial_kit::{count_each, end_stretch};
use world_actions::{Action, Refusal};
use world_ticks::{Tick, Words, act};
use zigzag::Zigzag;

/// Makes calls, each in its own stretch, and prints for each the most allocations that it may make.
/// The script `scripts/count_allocations.py` counts those of each stretch.
pub fn make_calls<R: Print + AllocGlobal>(rt: &R) -> Result<(), Error> {
    let mut words = Words::new(zeros(rt.alloc(), CELLS)?);
    do_action(rt, &mut words, &mut Tick::new(rt.alloc()))?;
    take_rounds(rt)?;
    take_shared_rounds(rt)?;
    step_keepers(rt)?;
    run_batch(rt)?;
    recover_files(rt)
}

/// Prints the most allocations that a call may make.
pub fn report_most<R: Print>(rt: &R, call: &str, most: u32) -> Result<(), Error> {
    println!(rt; "{call}: at most {most}")?;
    Ok(())
}

fn do_action<R: Print + AllocGlobal>(
    rt: &R,
    words: &mut Words,
    tick: &mut Tick,
) -> Result<(), Error> {
    tick.reserve(1)?;
    let action = Action::Set { cell: 0, value: 5 };
    count_each(rt.alloc());
    let done = act(words, tick, action);
    end_stretch(rt.alloc());
    done?;
    report_most(rt, "an action with room", 0)
}

fn take_rounds<R: Print + AllocGlobal>(rt: &R) -> Result<(), Error> {
    let words = zeros(rt.alloc(), CELLS)?;
    let plain_copy = PlainCopy::build(rt.alloc(), &words)?;
    take_round(rt, "plain copy", plain_copy)?;
    let zigzag = Zigzag::new(rt.alloc(), &words)?;
    take_round(rt, "zigzag", zigzag)?;
    let ping_pong = PingPong::new(rt.alloc(), &words)?;
    take_round(rt, "pingpong", ping_pong)
}

fn take_shared_rounds<R: Print + AllocGlobal>(rt: &R) -> Result<(), Error> {
    let (front, back) = zigzag_pair(rt.alloc(), zeros(rt.alloc(), CELLS)?)?;
    take_round(rt, "shared zigzag", Seats::new(front, back))?;
    let (front, back) = ping_pong_pair(rt.alloc(), zeros(rt.alloc(), CELLS)?)?;
    take_round(rt, "shared pingpong", Seats::new(front, back))
}

// Makes a mark, and the takes of its round.
fn take_round<R: Print + AllocGlobal, S: Store + Drop>(
    rt: &R,
    name: &str,
    mut store: S,
) -> Result<(), Error> {
    count_each(rt.alloc());
    let is_open = store.try_mark();
    end_stretch(rt.alloc());
    if !is_open {
        return Err(Error::from(Refusal::Busy));
    }
    print!(rt; "a mark of ")?;
    report_most(rt, name, 0)?;
    count_each(rt.alloc());
    store.find_round();
    take_cells(&mut store, CELLS);
    end_stretch(rt.alloc());
    print!(rt; "all takes of a round of ")?;
    report_most(rt, name, 0)
}
