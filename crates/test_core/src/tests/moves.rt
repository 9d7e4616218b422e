use capture_core::{Capture, PlainCopy};
use disk_model::FourFiles;
use ping_pong::PingPong;
use plain_moves::{Asked, PlainAnswer};
use std::alloc::Global;
use std::process::Abort;
use std::test::Fail;
use world_actions::{Action, Refusal};
use world_core::{Answer, Core, Fate, Move, run};
use zigzag::Zigzag;

mod rows;

const SET: Asked = Asked::Act(Action::Set { cell: 0, value: 5 });

const IMAGE: Asked = Asked::Image(Fate::Done);

const IMAGE_FAILS: Asked = Asked::Image(Fate::Failed);

const LOG: Asked = Asked::Log(Fate::Done);

const LOG_FAILS: Asked = Asked::Log(Fate::Failed);

// How often a move is made, the move, and its answer.
type Line = (u32, Asked, PlainAnswer);

const START: [Line; 5] = [
    (1, SET, PlainAnswer::Refused(Refusal::Starting)),
    (7, IMAGE, PlainAnswer::ImageWorking),
    (1, IMAGE, PlainAnswer::ImageOpened(0)),
    (8, LOG, PlainAnswer::LogWorking),
    (1, Asked::Get(0), PlainAnswer::Word(0)),
];

// Makes these moves on a core, and asserts the answer to each.
fn answers<C: Capture>(rt: &impl Abort, core: &mut Core<C>, lines: &[Line]) {
    for (times, asked, reported) in lines {
        for _ in 0..*times {
            if let Some(plain) = asked.as_move() {
                let given = PlainAnswer::of(core.step(plain));
                assert!(rt; given == *reported, "{asked:?}");
            }
        }
    }
}

fn crash<C: Capture>(
    rt: &impl Abort,
    core: &mut Core<C>,
    left: FourFiles<Vec<u8>>,
    reported: PlainAnswer,
) {
    assert_eq!(rt; PlainAnswer::of(core.step(Move::Crash(left))), reported);
}

// No byte of three files, and so many of image.a.
fn ones(alloc: Global, count: usize) -> Result<FourFiles<Vec<u8>>, Refusal> {
    let image_a = vec![in alloc; 1; count]?;
    Ok(FourFiles {
        image_a,
        image_b: Vec::new(alloc),
        log_a: Vec::new(alloc),
        log_b: Vec::new(alloc),
    })
}

fn check_start<C: Capture>(rt: &impl Abort, core: &mut Core<C>) {
    answers(rt, core, &START[..3]);
    answers(rt, core, &[(7, LOG, PlainAnswer::LogWorking)]);
    assert!(rt; core.starting());
    answers(rt, core, &[(1, LOG, PlainAnswer::LogWorking)]);
    assert!(rt; !core.starting());
    answers(rt, core, &[(1, Asked::Get(0), PlainAnswer::Word(0))]);
}

fn start_fresh<C: Capture>(rt: &impl Abort, alloc: Global) -> Result<(), Refusal> {
    let mut core = Core::<C>::fresh(alloc, 1)?;
    check_start(rt, &mut core);
    Ok(())
}

#[test]
fn starts(rt: HostRuntime) -> Result<(), Fail> {
    start_fresh::<PlainCopy>(&rt, rt.alloc())?;
    start_fresh::<Zigzag>(&rt, rt.alloc())?;
    start_fresh::<PingPong>(&rt, rt.alloc())?;
    Ok(())
}

const FAILED_START: [Line; 4] = [
    (1, IMAGE_FAILS, PlainAnswer::ImageDown),
    (1, LOG, PlainAnswer::LogIdle),
    (1, Asked::Mark, PlainAnswer::Refused(Refusal::Starting)),
    (1, Asked::End, PlainAnswer::Refused(Refusal::Starting)),
];

fn fail_and_crash<C: Capture>(
    rt: &impl Abort,
    alloc: Global,
    core: &mut Core<C>,
) -> Result<(), Refusal> {
    answers(rt, core, &FAILED_START);
    crash(rt, core, ones(alloc, 0)?, PlainAnswer::Blank);
    assert!(rt; core.starting());
    crash(
        rt,
        core,
        ones(alloc, 1)?,
        PlainAnswer::Refused(Refusal::Impossible),
    );
    answers(rt, core, &START);
    Ok(())
}

fn fail_a_start<C: Capture>(rt: &impl Abort, alloc: Global) -> Result<(), Refusal> {
    let mut core = Core::<C>::fresh(alloc, 1)?;
    fail_and_crash(rt, alloc, &mut core)
}

#[test]
fn fails_and_crashes_in_a_start(rt: HostRuntime) -> Result<(), Fail> {
    Ok(fail_a_start::<Zigzag>(&rt, rt.alloc())?)
}

fn ends<C: Capture>(core: &mut Core<C>, times: u32) {
    for _ in 0..times {
        core.step(Move::End);
    }
}

const NOTHING_NEW: Line = (1, Asked::Mark, PlainAnswer::Refused(Refusal::NothingNew));

// Marks that are refused for one reason after another, while the earlier reasons still
// hold. The queue is full, and then a round is open, the running tick has an action, and
// either keeper is down.
const MARKS: [Line; 8] = [
    (1, Asked::Mark, PlainAnswer::Started(63)),
    (1, Asked::Mark, PlainAnswer::Refused(Refusal::Busy)),
    (1, SET, PlainAnswer::Did),
    (1, Asked::Mark, PlainAnswer::Refused(Refusal::OpenTick)),
    (1, IMAGE_FAILS, PlainAnswer::ImageDown),
    (1, Asked::Mark, PlainAnswer::Refused(Refusal::ImageDown)),
    (1, LOG_FAILS, PlainAnswer::LogDown),
    (1, Asked::Mark, PlainAnswer::Refused(Refusal::LogDown)),
];

fn mark_in_order<C: Capture>(rt: &impl Abort, alloc: Global) -> Result<(), Refusal> {
    let mut core = Core::<C>::fresh(alloc, 1)?;
    answers(rt, &mut core, &START);
    answers(rt, &mut core, &[NOTHING_NEW]);
    ends(&mut core, 63);
    answers(rt, &mut core, &MARKS);
    Ok(())
}

#[test]
fn refuses_marks_in_order(rt: HostRuntime) -> Result<(), Fail> {
    Ok(mark_in_order::<PingPong>(&rt, rt.alloc())?)
}

// The log is down in a start, and the start is the reason why a mark is refused.
const DOWN_IN_A_START: [Line; 4] = [
    (7, IMAGE, PlainAnswer::ImageWorking),
    (1, IMAGE, PlainAnswer::ImageOpened(0)),
    (1, LOG_FAILS, PlainAnswer::LogDown),
    (1, Asked::Mark, PlainAnswer::Refused(Refusal::Starting)),
];

// A round whose cell is unchanged since the newest image.
const ROUND: [Line; 4] = [
    (1, Asked::Mark, PlainAnswer::Started(63)),
    (7, IMAGE, PlainAnswer::ImageWorking),
    (1, IMAGE, PlainAnswer::ImageOpened(63)),
    (1, IMAGE, PlainAnswer::ImageIdle),
];

fn mark_in_a_start<C: Capture>(rt: &impl Abort, alloc: Global) -> Result<(), Refusal> {
    let mut core = Core::<C>::fresh(alloc, 1)?;
    answers(rt, &mut core, &DOWN_IN_A_START);
    Ok(())
}

#[test]
fn refuses_marks_in_starts(rt: HostRuntime) -> Result<(), Fail> {
    Ok(mark_in_a_start::<PlainCopy>(&rt, rt.alloc())?)
}

const FULL_FOR_A_MARK: [Line; 1] = [(1, Asked::Mark, PlainAnswer::Refused(Refusal::QueueFull))];

const FULL_FOR_A_TICK: [Line; 1] = [(1, Asked::End, PlainAnswer::Refused(Refusal::QueueFull))];

fn log_all<C: Capture>(core: &mut Core<C>) {
    for _ in 0..20 {
        core.step(Move::Log(Fate::Done));
    }
}

fn mark_on_full_queue<C: Capture>(rt: &impl Abort, alloc: Global) -> Result<(), Refusal> {
    let mut core = Core::<C>::fresh(alloc, 1)?;
    answers(rt, &mut core, &START);
    ends(&mut core, 63);
    answers(rt, &mut core, &ROUND);
    answers(rt, &mut core, &[NOTHING_NEW]);
    // The log takes the ticks and the switch from the queue, and then 64 ticks wait.
    log_all(&mut core);
    ends(&mut core, 64);
    answers(rt, &mut core, &FULL_FOR_A_MARK);
    Ok(())
}

#[test]
fn refuses_marks_on_full_queues(rt: HostRuntime) -> Result<(), Fail> {
    Ok(mark_on_full_queue::<PlainCopy>(&rt, rt.alloc())?)
}

fn fill_the_queue<C: Capture>(rt: &impl Abort, alloc: Global) -> Result<(), Refusal> {
    let mut core = Core::<C>::fresh(alloc, 1)?;
    answers(rt, &mut core, &START);
    ends(&mut core, 64);
    answers(rt, &mut core, &FULL_FOR_A_TICK);
    answers(rt, &mut core, &DRAINED);
    Ok(())
}

#[test]
fn fills_the_queue(rt: HostRuntime) -> Result<(), Fail> {
    Ok(fill_the_queue::<Zigzag>(&rt, rt.alloc())?)
}

// Two groups of 32, and the next tick.
const DRAINED: [Line; 6] = [
    (3, LOG, PlainAnswer::LogWorking),
    (1, LOG, PlainAnswer::LogAcked(32)),
    (3, LOG, PlainAnswer::LogWorking),
    (1, LOG, PlainAnswer::LogAcked(64)),
    (1, LOG, PlainAnswer::LogIdle),
    (1, Asked::End, PlainAnswer::Ended(65)),
];

// A start, a tick, and a round.
fn some_moves(alloc: Global) -> Result<Vec<Move>, Refusal> {
    let mut moves = Vec::new(alloc);
    for (times, asked) in [
        (8, IMAGE),
        (8, LOG),
        (1, SET),
        (1, Asked::End),
        (1, Asked::Mark),
        (4, LOG),
        (9, IMAGE),
    ] {
        for _ in 0..times {
            if let Some(plain) = asked.as_move() {
                moves.push(plain)?;
            }
        }
    }
    Ok(moves)
}

// The answers of a fresh core, to one move after another.
fn stepped<C: Capture>(alloc: Global) -> Result<Vec<PlainAnswer>, Refusal> {
    let mut core = Core::<C>::fresh(alloc, 1)?;
    step_all(alloc, &mut core, some_moves(alloc)?)
}

fn step_all<C: Capture>(
    alloc: Global,
    core: &mut Core<C>,
    moves: Vec<Move>,
) -> Result<Vec<PlainAnswer>, Refusal> {
    let mut reported = Vec::new(alloc);
    for asked in moves {
        reported.push(PlainAnswer::of(core.step(asked)))?;
    }
    Ok(reported)
}

// The answers of a run of the same moves.
fn ran<C: Capture>(alloc: Global) -> Result<Vec<PlainAnswer>, Refusal> {
    let (answers, _) = run::<C>(alloc, 1, some_moves(alloc)?)?;
    reported_by(alloc, &answers)
}

fn reported_by(alloc: Global, answers: &[Answer]) -> Result<Vec<PlainAnswer>, Refusal> {
    let mut reported = Vec::new(alloc);
    for given in answers {
        reported.push(PlainAnswer::of(*given))?;
    }
    Ok(reported)
}

#[test]
fn runs_as_it_steps(rt: HostRuntime) -> Result<(), Fail> {
    let wanted = stepped::<Zigzag>(rt.alloc())?;
    assert_eq!(rt; wanted.len(), 32);
    let given = ran::<Zigzag>(rt.alloc())?;
    assert!(rt; given.as_slice() == wanted.as_slice());
    Ok(())
}
