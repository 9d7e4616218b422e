// `steps`
use super::same::same;
use action_log::LogAnswer;
use disk_model::FourFiles;
use image_files::ImageAnswer;
use shared_capture::{Joined, Zig};
use std::alloc::Global;
use std::process::Abort;
use steps::{Answer, Core, Fate, Move, run, run_script};
use world_actions::{Action, Refusal};
use zigzag::Zigzag;

fn fresh(alloc: Global) -> Result<Core<Zigzag>, Refusal> {
    Core::<Zigzag>::fresh(alloc, 1)
}

// Makes steps of the image keeper, which are answered Working.
fn write_image(rt: &impl Abort, core: &mut Core<Zigzag>, steps: u64) {
    for _ in 0..steps {
        let answer: Answer = core.step(Move::Image(Fate::Done));
        same(rt, answer, Answer::Image(ImageAnswer::Working));
    }
}

// The same of the log keeper.
fn write_log(rt: &impl Abort, core: &mut Core<Zigzag>, steps: u64) {
    for _ in 0..steps {
        let answer: Answer = core.step(Move::Log(Fate::Done));
        same(rt, answer, Answer::Log(LogAnswer::Working));
    }
}

// Runs a start to its end.
fn check_start(rt: &impl Abort, core: &mut Core<Zigzag>) {
    write_image(rt, core, 7);
    let opened = core.step(Move::Image(Fate::Done));
    same(rt, opened, Answer::Image(ImageAnswer::Opened(0)));
    write_log(rt, core, 7);
    let starting: bool = core.starting();
    write_log(rt, core, 1);
    same(rt, (starting, core.starting()), (true, false));
}

#[test]
fn a_core_is_started_by_its_moves(rt: HostRuntime) {
    let mut core = fresh(rt.alloc()).expect(&rt, "memory");
    check_start(&rt, &mut core);
    drop(core);
}

const SET: Action = Action::Set { cell: 0, value: 5 };

// Moves of each kind in the start of a fresh world. A call of a device fails, and then power.
fn moves(alloc: Global) -> Result<Vec<Move>, Refusal> {
    let mut moves = Vec::new(alloc);
    moves.push(Move::Act(SET))?;
    moves.push(Move::Get(0))?;
    moves.push(Move::End)?;
    moves.push(Move::Mark)?;
    moves.push(Move::Cover(1))?;
    moves.push(Move::Image(Fate::Failed))?;
    moves.push(Move::Log(Fate::Done))?;
    moves.push(Move::Crash(FourFiles::empty(alloc)))?;
    Ok(moves)
}

const STARTING: Answer = Answer::Refused(Refusal::Starting);

const ANSWERS: [Answer; 8] = [
    STARTING,
    Answer::Word(0),
    STARTING,
    STARTING,
    STARTING,
    Answer::Image(ImageAnswer::Down),
    Answer::Log(LogAnswer::Idle),
    Answer::Blank,
];

fn answers(alloc: Global) -> Result<Vec<Answer>, Refusal> {
    let ran: (Vec<Answer>, Core<Joined<Zig>>) = run(alloc, 1, moves(alloc)?)?;
    Ok(ran.0)
}

#[test]
fn each_move_is_answered(rt: HostRuntime) {
    let answers = answers(rt.alloc()).expect(&rt, "memory");
    same(&rt, answers.as_slice(), ANSWERS.as_slice());
}

const OTHERS: [Answer; 4] = [
    Answer::Did,
    Answer::Ended(1),
    Answer::Started(1),
    Answer::Recovered { tick: 1, from: 0 },
];

#[test]
fn other_answers_differ(rt: HostRuntime) {
    for answer in &OTHERS {
        assert!(rt; !ANSWERS.contains(answer));
    }
}

const SCRIPT: &[u8] = b"open zigzag 1\nset 0 5\nend\ncrash keep\nget 0\n";

const TEXT: &[u8] = b"ready 0\n+\ntick 1\nrecovered 0 from 0\n= 0\n";

fn script(alloc: Global) -> (Result<(), Refusal>, Vec<u8>) {
    let (mut input, mut text) = (SCRIPT, Vec::new(alloc));
    let ended: Result<(), Refusal> = run_script(alloc, &mut input, &mut text);
    (ended, text)
}

#[test]
fn a_script_is_run(rt: HostRuntime) {
    let (ended, text) = script(rt.alloc());
    same(&rt, ended, Ok(()));
    same(&rt, text.as_slice(), TEXT);
}
