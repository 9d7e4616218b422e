use crate::flaky::Flaky;
use crate::run::{Run, SESSIONS};
use crate::session::new_sessions;
use crate::stand::Stand;
use crate::tally::Kind;
use crate::trial::{Odds, Trial};
use crate::world::{NotOpened, World};
use action_log::SEGMENT_TICKS;
use disk_model::FourFiles;
use shared_capture::Method;
use std::sync::Wait;
use world_actions::Refusal;
use world_ticks::TICK_MAX;

/// The sizes of the worlds.
const SIZES: [u32; 3] = [1, 65, 130];

/// How many worlds there are of each size, and how many steps are made in each. Files never get
/// shorter, so there are many worlds.
const WORLDS: u32 = 11;

const STEPS: u64 = 1_500;

/// How many steps are made in a world that is near the last tick, and how many ticks before it.
const LAST_STEPS: u64 = 500;

const LAST_TICKS: u64 = 8;

/// How many steps are made for each method.
pub const ALL_STEPS: u64 = 50_000;

/// The most steps of a run, and the most after a worker has stopped.
const LONGEST: u64 = 600;

const REST: u64 = 40;

/// How often calls fail and gates stick in random runs.
const ODDS: Odds = Odds {
    fails: 2,
    sticks: 400,
};

/// Makes random steps in worlds of all sizes, and near the last tick. Then it fills a segment.
pub fn try_steps<R: Wait, M: Method>(rt: &R, trial: &mut Trial) -> Result<(), Refusal> {
    for _ in 0..WORLDS {
        for cells in SIZES {
            try_world::<R, M>(rt, trial, cells, 0, STEPS)?;
        }
    }
    let tick = TICK_MAX.saturating_sub(LAST_TICKS);
    try_world::<R, M>(rt, trial, 1, tick, LAST_STEPS)?;
    try_segment::<R, M>(rt, trial)
}

// Makes so many random steps in a new world. Each run begins from what the crash of
// the last one left.
fn try_world<R: Wait, M: Method>(
    rt: &R,
    trial: &mut Trial,
    cells: u32,
    tick: u64,
    steps: u64,
) -> Result<(), Refusal> {
    trial.begin_world(cells, tick, ODDS)?;
    let mut rest = steps;
    for _ in 0..steps {
        run_once::<R, M>(rt, trial, &mut rest)?;
        if rest == 0 {
            break;
        }
    }
    Ok(())
}

// Opens the world that a crash left, makes random steps, and crashes.
fn run_once<R: Wait, M: Method>(rt: &R, trial: &mut Trial, rest: &mut u64) -> Result<(), Refusal> {
    let files = trial.files()?;
    let (sessions, asked) = new_sessions(trial.alloc, SESSIONS)?;
    let (gates, every) = (trial.gates(), trial.every());
    match World::<M>::open(rt, trial.alloc, files, gates, asked, every) {
        Ok(world) => run_world(rt, trial, Run::new(world, sessions, every), rest),
        Err(NotOpened::Failed(files)) => judge_opening(trial, &files),
        Err(NotOpened::NoMemory) => Err(Refusal::NoMemory),
    }
}

fn run_world<R: Wait, M: Method>(
    rt: &R,
    trial: &mut Trial,
    run: Run<M>,
    rest: &mut u64,
) -> Result<(), Refusal> {
    let mut run = run;
    run_steps(rt, trial, &mut run, rest)
}

fn run_steps<R: Wait, M: Method>(
    rt: &R,
    trial: &mut Trial,
    run: &mut Run<M>,
    rest: &mut u64,
) -> Result<(), Refusal> {
    run.opens_there(trial);
    make_steps(rt, trial, run, rest)?;
    run.stand().crash(trial)
}

// Judges files one of whose calls failed before their world was opened.
fn judge_opening(trial: &mut Trial, files: &FourFiles<Flaky>) -> Result<(), Refusal> {
    trial.tally.count(Kind::OpeningFailed);
    let stand = Stand::in_opening(files, trial.model.last());
    stand.judge(trial)?;
    stand.crash(trial)
}

fn make_steps<R: Wait, M: Method>(
    rt: &R,
    trial: &mut Trial,
    run: &mut Run<M>,
    rest: &mut u64,
) -> Result<(), Refusal> {
    let mut left = trial.random.below(LONGEST);
    for _ in 0..LONGEST {
        if left == 0 || *rest == 0 {
            break;
        }
        run.step(rt, trial)?;
        *rest = rest.saturating_sub(1);
        left = left.saturating_sub(1);
        if run.is_stopped() {
            left = left.min(REST);
        }
    }
    Ok(())
}

// Plays as many ticks as a segment takes, without a round. The next batch is refused.
fn try_segment<R: Wait, M: Method>(rt: &R, trial: &mut Trial) -> Result<(), Refusal> {
    trial.begin_world(1, 0, Odds::NONE)?;
    trial.draft.fill_small();
    let files = trial.files()?;
    let (sessions, asked) = new_sessions(trial.alloc, SESSIONS)?;
    let gates = trial.gates();
    match World::<M>::open(rt, trial.alloc, files, gates, asked, 1) {
        Ok(world) => fill_world(rt, trial, Run::new(world, sessions, 1)),
        Err(_) => Err(Refusal::Device),
    }
}

fn fill_world<R: Wait, M: Method>(rt: &R, trial: &mut Trial, run: Run<M>) -> Result<(), Refusal> {
    let mut run = run;
    fill_segment(rt, trial, &mut run)
}

fn fill_segment<R: Wait, M: Method>(
    rt: &R,
    trial: &mut Trial,
    run: &mut Run<M>,
) -> Result<(), Refusal> {
    for _ in 0..SEGMENT_TICKS {
        for step in [Kind::Play, Kind::Push, Kind::Pop] {
            run.make(rt, trial, step)?;
        }
        run.log_all(rt, trial)?;
    }
    run.stand().judge(trial)?;
    run.make(rt, trial, Kind::Play)?;
    run.stand().judge(trial)
}
