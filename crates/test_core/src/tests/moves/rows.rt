use super::{IMAGE, IMAGE_FAILS, LOG, LOG_FAILS, Line, SET, ones, reported_by};
use capture_core::{Capture, PlainCopy};
use disk_model::{FourFiles, Leaving};
use ping_pong::PingPong;
use plain_moves::{Asked, PlainAnswer};
use shared_capture::{Joined, Pong, Zig};
use std::alloc::Global;
use std::process::Abort;
use std::test::Fail;
use world_actions::{Action, LIMIT, Refusal};
use world_core::{Core, Move, run};
use zigzag::Zigzag;

const END: Asked = Asked::End;

const MARK: Asked = Asked::Mark;

const GET: Asked = Asked::Get(0);

// A start over empty files, of one cell and of two.
const START: [Line; 3] = [
    (7, IMAGE, PlainAnswer::ImageWorking),
    (1, IMAGE, PlainAnswer::ImageOpened(0)),
    (8, LOG, PlainAnswer::LogWorking),
];

const START_OF_TWO: [Line; 3] = [
    (8, IMAGE, PlainAnswer::ImageWorking),
    (1, IMAGE, PlainAnswer::ImageOpened(0)),
    (8, LOG, PlainAnswer::LogWorking),
];

// Three steps of a group, and the fourth.
const GROUP: [Line; 2] = [
    (3, LOG, PlainAnswer::LogWorking),
    (1, LOG, PlainAnswer::LogAcked(1)),
];

const SET_AND_END: [Line; 2] = [(1, SET, PlainAnswer::Did), (1, END, PlainAnswer::Ended(1))];

fn set(cell: u32, value: u64) -> Asked {
    Asked::Act(Action::Set { cell, value })
}

fn add(by: i64) -> Asked {
    Asked::Act(Action::Add { cell: 0, by })
}

fn transfer(from: u32, to: u32) -> Asked {
    Asked::Act(Action::Transfer {
        from,
        to,
        amount: 1,
    })
}

// Moves, each with how often it is made and its answer, or a crash with its answer.
#[derive(Clone, Copy)]
enum Part<'a> {
    Lines(&'a [Line]),
    Crash(Leaving, PlainAnswer),
    // A crash that leaves so many bytes of image.a, and none of the other files.
    LeavesOnes(usize, PlainAnswer),
}

// Moves, and the right answer of each.
#[derive(Drop)]
struct Row {
    alloc: Global,
    moves: Vec<Move>,
    reported: Vec<PlainAnswer>,
}

impl Row {
    fn push(&mut self, asked: Move, reported: PlainAnswer) -> Result<(), Refusal> {
        self.moves.push(asked)?;
        self.reported.push(reported)?;
        Ok(())
    }
}

// Adds the moves of a part, and makes them on the core, from which the bytes that a crash
// leaves are taken.
fn add_part<C: Capture>(row: &mut Row, core: &mut Core<C>, part: Part<'_>) -> Result<(), Refusal> {
    match part {
        Part::Lines(lines) => add_lines(row, core, lines),
        Part::Crash(leaving, reported) => {
            row.push(Move::Crash(core.remains(leaving)?), reported)?;
            crash(core, core.remains(leaving)?);
            Ok(())
        }
        Part::LeavesOnes(count, reported) => {
            row.push(Move::Crash(ones(row.alloc, count)?), reported)?;
            crash(core, ones(row.alloc, count)?);
            Ok(())
        }
    }
}

fn crash<C: Capture>(core: &mut Core<C>, left: FourFiles<Vec<u8>>) {
    core.step(Move::Crash(left));
}

fn add_lines<C: Capture>(row: &mut Row, core: &mut Core<C>, lines: &[Line]) -> Result<(), Refusal> {
    for (times, asked, reported) in lines {
        for _ in 0..*times {
            add_line(row, core, asked, *reported)?;
        }
    }
    Ok(())
}

fn add_line<C: Capture>(
    row: &mut Row,
    core: &mut Core<C>,
    asked: &Asked,
    reported: PlainAnswer,
) -> Result<(), Refusal> {
    if let Some(one) = asked.as_move() {
        core.step(one);
    }
    match asked.as_move() {
        Some(same) => row.push(same, reported),
        None => Ok(()),
    }
}

fn ran<C: Capture>(
    alloc: Global,
    cells: u32,
    moves: Vec<Move>,
) -> Result<Vec<PlainAnswer>, Refusal> {
    let (answers, _) = run::<C>(alloc, cells.clamp(1, 65536), moves)?;
    reported_by(alloc, &answers)
}

fn add_parts<C: Capture>(
    row: &mut Row,
    core: &mut Core<C>,
    parts: &[Part<'_>],
) -> Result<(), Refusal> {
    for part in parts {
        add_part(row, core, *part)?;
    }
    Ok(())
}

// Adds the moves of these parts, and makes them on a fresh core.
fn fill<C: Capture>(row: &mut Row, cells: u32, parts: &[Part<'_>]) -> Result<(), Refusal> {
    let mut core = Core::<C>::fresh(row.alloc, cells.clamp(1, 65536))?;
    add_parts(row, &mut core, parts)
}

// Asserts that a run of a fresh world answers the moves of a row as it says.
fn compare<C: Capture>(rt: &impl Abort, cells: u32, row: Row) -> Result<(), Refusal> {
    let Row {
        alloc,
        moves,
        reported,
    } = row;
    let given = ran::<C>(alloc, cells, moves)?;
    assert!(rt; given.as_slice() == reported.as_slice());
    Ok(())
}

// Asserts that a run of a fresh world answers the moves of these parts as they say.
fn check<C: Capture>(
    rt: &(impl Abort + AllocGlobal),
    cells: u32,
    parts: &[Part<'_>],
) -> Result<(), Refusal> {
    let alloc = rt.alloc();
    let mut row = Row {
        alloc,
        moves: Vec::new(alloc),
        reported: Vec::new(alloc),
    };
    fill::<C>(&mut row, cells, parts)?;
    compare::<C>(rt, cells, row)
}

fn check_all<R: Abort + AllocGlobal>(
    rt: &R,
    cells: u32,
    parts: &[Part<'_>],
) -> Result<(), Refusal> {
    check::<PlainCopy>(rt, cells, parts)?;
    check::<Zigzag>(rt, cells, parts)?;
    check::<Joined<Zig>>(rt, cells, parts)?;
    check_ping_pong(rt, cells, parts)
}

fn check_ping_pong<R: Abort + AllocGlobal>(
    rt: &R,
    cells: u32,
    parts: &[Part<'_>],
) -> Result<(), Refusal> {
    check::<PingPong>(rt, cells, parts)?;
    check::<Joined<Pong>>(rt, cells, parts)
}

#[test]
fn actions(rt: HostRuntime) -> Result<(), Fail> {
    check_all(&rt, 1, &[])?;
    let one_cell = [
        (1, GET, PlainAnswer::Word(0)),
        (1, set(0, LIMIT), PlainAnswer::Did),
        (1, add(1), PlainAnswer::Refused(Refusal::OutOfRange)),
        (
            1,
            set(0, LIMIT + 1),
            PlainAnswer::Refused(Refusal::BadValue),
        ),
        (1, add(-(LIMIT as i64)), PlainAnswer::Did),
        (1, GET, PlainAnswer::Word(0)),
    ];
    check_all(&rt, 1, &[Part::Lines(&START), Part::Lines(&one_cell)])?;
    let two_cells = [
        (1, transfer(0, 0), PlainAnswer::Refused(Refusal::SameCell)),
        (1, transfer(0, 1), PlainAnswer::Refused(Refusal::OutOfRange)),
        (1, transfer(0, 2), PlainAnswer::Refused(Refusal::BadCell)),
        (1, set(2, LIMIT + 1), PlainAnswer::Refused(Refusal::BadCell)),
    ];
    check_all(
        &rt,
        2,
        &[Part::Lines(&START_OF_TWO), Part::Lines(&two_cells)],
    )?;
    Ok(())
}

#[test]
fn full_ticks_and_queues(rt: HostRuntime) -> Result<(), Fail> {
    let full_tick = [
        (256, add(1), PlainAnswer::Did),
        (1, add(1), PlainAnswer::Refused(Refusal::TickFull)),
        (1, GET, PlainAnswer::Word(256)),
    ];
    check_all(&rt, 1, &[Part::Lines(&START), Part::Lines(&full_tick)])?;
    let mut ended = [(1, END, PlainAnswer::Ended(1)); 64];
    for (line, tick) in ended.iter_mut().zip(1..=64) {
        line.2 = PlainAnswer::Ended(tick);
    }
    let drained = [
        (1, END, PlainAnswer::Refused(Refusal::QueueFull)),
        (3, LOG, PlainAnswer::LogWorking),
        (1, LOG, PlainAnswer::LogAcked(32)),
        (3, LOG, PlainAnswer::LogWorking),
        (1, LOG, PlainAnswer::LogAcked(64)),
        (1, END, PlainAnswer::Ended(65)),
    ];
    check_all(
        &rt,
        1,
        &[
            Part::Lines(&START),
            Part::Lines(&ended),
            Part::Lines(&drained),
        ],
    )?;
    Ok(())
}

// An empty tick counts.
#[test]
fn empty_ticks(rt: HostRuntime) -> Result<(), Fail> {
    let ended = [(1, END, PlainAnswer::Ended(1))];
    let recovered = Part::Crash(Leaving::Lose, PlainAnswer::Recovered { tick: 1, from: 0 });
    check_all(
        &rt,
        1,
        &[
            Part::Lines(&START),
            Part::Lines(&ended),
            Part::Lines(&GROUP),
            recovered,
        ],
    )?;
    Ok(())
}

// A group of which none, one, three or four calls were made.
#[test]
fn torn_groups(rt: HostRuntime) -> Result<(), Fail> {
    let torn = [
        (0, Leaving::Keep, 0),
        (1, Leaving::Fill(1), 0),
        (3, Leaving::Fill(1), 1),
        (3, Leaving::Fill(0), 0),
    ];
    for (calls, leaving, tick) in torn {
        let lines = [(calls, LOG, PlainAnswer::LogWorking)];
        let word = [(1, GET, PlainAnswer::Word(tick * 5))];
        check_all(
            &rt,
            1,
            &[
                Part::Lines(&START),
                Part::Lines(&SET_AND_END),
                Part::Lines(&lines),
                Part::Crash(leaving, PlainAnswer::Recovered { tick, from: 0 }),
                Part::Lines(&word),
            ],
        )?;
    }
    check_all(
        &rt,
        1,
        &[
            Part::Lines(&START),
            Part::Lines(&SET_AND_END),
            Part::Lines(&GROUP),
            Part::Crash(
                Leaving::Fill(0),
                PlainAnswer::Recovered { tick: 1, from: 0 },
            ),
        ],
    )?;
    Ok(())
}

// A round of one cell into a file that is not known to be shut.
fn round(tick: u64) -> [Line; 3] {
    [
        (1, MARK, PlainAnswer::Started(tick)),
        (7, IMAGE, PlainAnswer::ImageWorking),
        (1, IMAGE, PlainAnswer::ImageOpened(tick)),
    ]
}

#[test]
fn images_ahead_of_the_log(rt: HostRuntime) -> Result<(), Fail> {
    let played = [
        (1, MARK, PlainAnswer::Started(1)),
        (1, set(0, 9), PlainAnswer::Did),
        (1, END, PlainAnswer::Ended(2)),
        (7, IMAGE, PlainAnswer::ImageWorking),
        (1, IMAGE, PlainAnswer::ImageOpened(1)),
    ];
    check_all(
        &rt,
        1,
        &[
            Part::Lines(&START),
            Part::Lines(&SET_AND_END),
            Part::Lines(&played),
            Part::Crash(Leaving::Lose, PlainAnswer::Recovered { tick: 1, from: 1 }),
            Part::Lines(&[(1, GET, PlainAnswer::Word(5))]),
        ],
    )?;
    Ok(())
}

// Two ticks, and a round of the first. Then come so many steps of a round of the second.
fn two_rounds(steps: u32) -> [Line; 10] {
    [
        (1, set(0, 5), PlainAnswer::Did),
        (1, set(1, 7), PlainAnswer::Did),
        (1, END, PlainAnswer::Ended(1)),
        (1, MARK, PlainAnswer::Started(1)),
        (8, IMAGE, PlainAnswer::ImageWorking),
        (1, IMAGE, PlainAnswer::ImageOpened(1)),
        (1, set(1, 8), PlainAnswer::Did),
        (1, END, PlainAnswer::Ended(2)),
        (1, MARK, PlainAnswer::Started(2)),
        (steps, IMAGE, PlainAnswer::ImageWorking),
    ]
}

// The word of cell 0 comes from the other file.
#[test]
fn rounds_cut_off_or_whole(rt: HostRuntime) -> Result<(), Fail> {
    let opened = [(1, IMAGE, PlainAnswer::ImageOpened(2))];
    let words = [
        (1, GET, PlainAnswer::Word(5)),
        (1, Asked::Get(1), PlainAnswer::Word(8)),
    ];
    check_ping_pong(
        &rt,
        2,
        &[
            Part::Lines(&START_OF_TWO),
            Part::Lines(&two_rounds(9)),
            Part::Lines(&opened),
            Part::Crash(Leaving::Lose, PlainAnswer::Recovered { tick: 2, from: 2 }),
            Part::Lines(&words),
        ],
    )?;
    let words = [
        (1, GET, PlainAnswer::Word(5)),
        (1, Asked::Get(1), PlainAnswer::Word(7)),
    ];
    check_ping_pong(
        &rt,
        2,
        &[
            Part::Lines(&START_OF_TWO),
            Part::Lines(&two_rounds(6)),
            Part::Crash(
                Leaving::Fill(1),
                PlainAnswer::Recovered { tick: 1, from: 1 },
            ),
            Part::Lines(&words),
        ],
    )?;
    Ok(())
}

#[test]
fn refused_marks(rt: HostRuntime) -> Result<(), Fail> {
    let lines = [
        (1, MARK, PlainAnswer::Refused(Refusal::NothingNew)),
        (1, set(0, 1), PlainAnswer::Did),
        (1, MARK, PlainAnswer::Refused(Refusal::OpenTick)),
        (1, END, PlainAnswer::Ended(1)),
        (1, MARK, PlainAnswer::Started(1)),
        (1, MARK, PlainAnswer::Refused(Refusal::Busy)),
    ];
    check_all(&rt, 1, &[Part::Lines(&START), Part::Lines(&lines)])?;
    Ok(())
}

// A tick that sets the cell to its number.
fn tick(number: u64) -> [Line; 2] {
    [
        (1, set(0, number), PlainAnswer::Did),
        (1, END, PlainAnswer::Ended(number)),
    ]
}

// A switch into the segment that the start has shut takes four steps. A switch into
// another one takes six.
const SWITCHES: [Line; 9] = [
    (3, LOG, PlainAnswer::LogWorking),
    (1, LOG, PlainAnswer::LogAcked(1)),
    (4, LOG, PlainAnswer::LogWorking),
    (3, LOG, PlainAnswer::LogWorking),
    (1, LOG, PlainAnswer::LogAcked(2)),
    (6, LOG, PlainAnswer::LogWorking),
    (3, LOG, PlainAnswer::LogWorking),
    (1, LOG, PlainAnswer::LogAcked(3)),
    (6, LOG, PlainAnswer::LogWorking),
];

#[test]
fn switches_use_segments_again(rt: HostRuntime) -> Result<(), Fail> {
    check_all(
        &rt,
        1,
        &[
            Part::Lines(&START),
            Part::Lines(&tick(1)),
            Part::Lines(&round(1)),
            Part::Lines(&tick(2)),
            Part::Lines(&round(2)),
            Part::Lines(&tick(3)),
            Part::Lines(&round(3)),
            Part::Lines(&SWITCHES),
            Part::Lines(&[(1, LOG, PlainAnswer::LogIdle)]),
            Part::Crash(Leaving::Lose, PlainAnswer::Recovered { tick: 3, from: 3 }),
            Part::Lines(&[(1, GET, PlainAnswer::Word(3))]),
        ],
    )?;
    Ok(())
}

// The ticks that an open image has leave the queue. In a start there are none, then those up to the
// first switch, and up to the next.
#[test]
fn open_images_cover_ticks(rt: HostRuntime) -> Result<(), Fail> {
    let before = [(1, Asked::Cover(0), PlainAnswer::Refused(Refusal::Starting))];
    let first = [
        (1, Asked::Cover(0), PlainAnswer::LogIdle),
        (1, Asked::Cover(1), PlainAnswer::Refused(Refusal::Uncovered)),
        (1, MARK, PlainAnswer::Started(1)),
        (7, IMAGE, PlainAnswer::ImageWorking),
        (1, Asked::Cover(1), PlainAnswer::Refused(Refusal::Uncovered)),
        (1, IMAGE, PlainAnswer::ImageOpened(1)),
    ];
    let covers = [
        (1, Asked::Cover(1), PlainAnswer::LogAcked(1)),
        (1, Asked::Cover(1), PlainAnswer::LogIdle),
        (1, Asked::Cover(2), PlainAnswer::LogAcked(2)),
        (1, LOG, PlainAnswer::LogWorking),
        (1, Asked::Cover(2), PlainAnswer::LogIdle),
        (3, LOG, PlainAnswer::LogWorking),
        (1, LOG, PlainAnswer::LogIdle),
    ];
    let logged = [
        (3, LOG, PlainAnswer::LogWorking),
        (1, LOG, PlainAnswer::LogAcked(3)),
    ];
    let down = [
        (1, Asked::End, PlainAnswer::Ended(4)),
        (1, LOG_FAILS, PlainAnswer::LogDown),
        (1, Asked::Cover(2), PlainAnswer::Refused(Refusal::LogDown)),
    ];
    check_all(
        &rt,
        1,
        &[
            Part::Lines(&before),
            Part::Lines(&START),
            Part::Lines(&tick(1)),
            Part::Lines(&first),
            Part::Lines(&tick(2)),
            Part::Lines(&round(2)),
            Part::Lines(&covers),
            Part::Lines(&tick(3)),
            Part::Lines(&logged),
            Part::Lines(&down),
            Part::Crash(Leaving::Lose, PlainAnswer::Recovered { tick: 3, from: 2 }),
            Part::Lines(&[(1, GET, PlainAnswer::Word(3))]),
        ],
    )?;
    Ok(())
}

#[test]
fn images_down(rt: HostRuntime) -> Result<(), Fail> {
    let lines = [
        (1, MARK, PlainAnswer::Started(1)),
        (1, IMAGE_FAILS, PlainAnswer::ImageDown),
        (1, MARK, PlainAnswer::Refused(Refusal::ImageDown)),
        (1, set(0, 2), PlainAnswer::Did),
        (1, END, PlainAnswer::Ended(2)),
        (3, LOG, PlainAnswer::LogWorking),
        (1, LOG, PlainAnswer::LogAcked(1)),
        (4, LOG, PlainAnswer::LogWorking),
        (3, LOG, PlainAnswer::LogWorking),
        (1, LOG, PlainAnswer::LogAcked(2)),
        (1, LOG, PlainAnswer::LogIdle),
    ];
    check_all(
        &rt,
        1,
        &[
            Part::Lines(&START),
            Part::Lines(&SET_AND_END),
            Part::Lines(&lines),
            Part::Crash(Leaving::Lose, PlainAnswer::Recovered { tick: 2, from: 0 }),
        ],
    )?;
    Ok(())
}

// There is no image until the start has written one, and no crash leaves a byte that
// was never written.
#[test]
fn starts_and_blanks(rt: HostRuntime) -> Result<(), Fail> {
    let failed = [
        (1, SET, PlainAnswer::Refused(Refusal::Starting)),
        (1, IMAGE_FAILS, PlainAnswer::ImageDown),
        (1, LOG, PlainAnswer::LogIdle),
        (1, MARK, PlainAnswer::Refused(Refusal::Starting)),
        (1, END, PlainAnswer::Refused(Refusal::Starting)),
    ];
    check_all(
        &rt,
        1,
        &[
            Part::Lines(&failed),
            Part::LeavesOnes(0, PlainAnswer::Blank),
            Part::LeavesOnes(1, PlainAnswer::Refused(Refusal::Impossible)),
            Part::Lines(&[(1, LOG, PlainAnswer::LogIdle)]),
            Part::Lines(&START),
            Part::Lines(&SET_AND_END),
        ],
    )?;
    Ok(())
}

// The second crash finds the image that the start after the first crash wrote. So the start after
// the second one has no image to write. The second segment is shut since the first start.
#[test]
fn crashes_twice(rt: HostRuntime) -> Result<(), Fail> {
    let image = [
        (7, IMAGE, PlainAnswer::ImageWorking),
        (1, IMAGE, PlainAnswer::ImageOpened(1)),
    ];
    let segments = [
        (1, IMAGE, PlainAnswer::ImageIdle),
        (6, LOG, PlainAnswer::LogWorking),
    ];
    let reads = [
        (1, GET, PlainAnswer::Word(5)),
        (1, END, PlainAnswer::Refused(Refusal::Starting)),
    ];
    check_all(
        &rt,
        1,
        &[
            Part::Lines(&START),
            Part::Lines(&SET_AND_END),
            Part::Lines(&GROUP),
            Part::Crash(Leaving::Lose, PlainAnswer::Recovered { tick: 1, from: 0 }),
            Part::Lines(&image),
            Part::Lines(&segments),
            Part::Crash(Leaving::Lose, PlainAnswer::Recovered { tick: 1, from: 1 }),
            Part::Lines(&reads),
            Part::Lines(&segments),
            Part::Lines(&[(1, END, PlainAnswer::Ended(2))]),
        ],
    )?;
    Ok(())
}
