use crate::fixed::Step;
use crate::run::Run;
use crate::stops::KINDS;
use action_log::LogAnswer;
use capture_core::Capture;
use disk_model::Leaving;
use image_files::ImageAnswer;
use std::alloc::Global;
use trial_kit::StopTally;
use world_actions::Refusal;
use world_core::{Answer, Fate};

/// More moves than the log has here.
const MOVES: u32 = 100;

/// The last tick of the run.
const LAST: u64 = 3;

/// Lets the call of each keeper's move fail in turn, judges the answers after it, and
/// crashes in each way.
pub fn try_failures<C: Capture>(
    alloc: Global,
    steps: &[Step],
    tally: &mut StopTally,
) -> Result<(), Refusal> {
    for at in 0..steps.len() {
        for leaving in KINDS {
            try_failure::<C>(alloc, steps, at, leaving, tally)?;
        }
    }
    Ok(())
}

// Lets the call of the move at this place fail, if it makes one.
fn try_failure<C: Capture>(
    alloc: Global,
    steps: &[Step],
    at: usize,
    leaving: Leaving,
    tally: &mut StopTally,
) -> Result<(), Refusal> {
    let (before, rest) = steps.split_at(at.min(steps.len()));
    let Some((step, after)) = rest.split_first() else {
        return Ok(());
    };
    let mut run = Run::<C>::started(alloc)?;
    run.follow(before);
    let given = run.step(*step, Fate::Failed);
    judge_failure(&mut run, given, after, leaving, tally)
}

fn judge_failure<C: Capture>(
    run: &mut Run<C>,
    given: Answer,
    after: &[Step],
    leaving: Leaving,
    tally: &mut StopTally,
) -> Result<(), Refusal> {
    match given {
        Answer::Image(ImageAnswer::Down) => {
            fail_images(run, after, tally);
            let stands = run.crash(leaving)?;
            tally.judge(leaving != Leaving::Lose || stands == Some(LAST));
            tally.crash(stands);
        }
        Answer::Log(LogAnswer::Down) => {
            fail_log(run, after, tally);
            tally.crash(run.crash(leaving)?);
        }
        _ => {}
    }
    Ok(())
}

// The images are down: play continues, no round is opened, and the log writes all ticks.
fn fail_images<C: Capture>(run: &mut Run<C>, after: &[Step], tally: &mut StopTally) {
    tally.images_failed();
    for step in after {
        let given = run.step(*step, Fate::Done);
        tally.judge(match step {
            Step::Set { .. } => given == Answer::Did,
            Step::End => matches!(given, Answer::Ended(_)),
            Step::Mark => given == Answer::Refused(Refusal::ImageDown),
            Step::Image => given == Answer::Image(ImageAnswer::Down),
            Step::Log => matches!(given, Answer::Log(_)),
        });
    }
    for _ in 0..MOVES {
        if run.step(Step::Log, Fate::Done) == Answer::Log(LogAnswer::Idle) {
            break;
        }
    }
    tally.judge(run.acked() == LAST);
}

// The log is down: no tick ends any more.
fn fail_log<C: Capture>(run: &mut Run<C>, after: &[Step], tally: &mut StopTally) {
    tally.log_failed();
    for step in after {
        let given = run.step(*step, Fate::Done);
        tally.judge(match step {
            Step::Set { .. } | Step::End | Step::Mark => {
                given == Answer::Refused(Refusal::LogDown)
            }
            Step::Image => matches!(given, Answer::Image(_)),
            Step::Log => given == Answer::Log(LogAnswer::Down),
        });
    }
}
