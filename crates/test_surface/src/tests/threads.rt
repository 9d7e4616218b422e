// `workers`, `worker_steps` and `worker_threads`
ghost use Rattle.std.specs.Prelude.{◌≡◌, false, IfOk};
ghost use Rattle.workers.specs.Imaging.{IsAtRest as IsResting};
ghost use Rattle.workers.specs.Logging.{IsAtRest};
ghost use Rattle.worker_steps.specs.Begun.{IsWhole};

use super::same::same;
use capture_core::PlainCopy;
use disk_model::{Disk, FourFiles, ModelFile};
use sessions::{Batch, Request};
use shared_capture::{Front, Method, Pong, Zig};
use std::alloc::{AllocError, Global};
use std::process::Abort;
use std::sync::Wait;
use std::thread::Threads;
use worker_steps::{Gates, Opened, Together};
use worker_threads::{Acked, Ends, TickWatch, Watch, Workers, ends_meet, start, start_world, stop};
use workers::{
    AskChannel, AskReceiver, Asker, AwaitedReply, Checkpointer, Gate, ImageWriter, Log, LogWriter,
    Mutator, Open, Pass, Place, Post, Refused, Reply, ReplySlot, Spins, play,
};
use world_actions::{Action, Refusal};
use world_start::{fresh_files, recover_world};
use world_ticks::Tick;

// Asks any gate.
fn ask_gate<G: Gate>(gate: &mut G, place: Place) -> Pass {
    gate.at(place)
}

const PLACES: [Place; 3] = [Place::Tick, Place::Take, Place::Device];

#[test]
fn an_open_gate_lets_each_step_pass(rt: HostRuntime) {
    for place in &PLACES {
        let pass: Pass = ask_gate(&mut Open, *place);
        same(&rt, pass, Pass::Go);
        assert!(rt; pass != Pass::Again && pass != Pass::Stuck);
    }
}

fn empty_files(alloc: Global) -> Result<FourFiles<ModelFile>, Refusal> {
    Ok(FourFiles {
        image_a: ModelFile::new(alloc, Vec::new(alloc))?,
        image_b: ModelFile::new(alloc, Vec::new(alloc))?,
        log_a: ModelFile::new(alloc, Vec::new(alloc))?,
        log_b: ModelFile::new(alloc, Vec::new(alloc))?,
    })
}

// Makes a new world of two cells, and opens it for its workers.
fn make_world<M: Method, D: Disk + Drop>(
    alloc: Global,
    files: FourFiles<D>,
) -> Result<Opened<M, D>, (FourFiles<D>, Refusal)>
    ensures { IfOk result (λ opened. IsWhole D.Disk opened) }
{
    let files = fresh_files(alloc, 2, files)?;
    let begun = recover_world::<PlainCopy, D>(alloc, files)?;
    start_world(alloc, begun)
}

fn open_world<M: Method, D: Disk + Drop>(
    rt: &impl Abort,
    alloc: Global,
    files: FourFiles<D>,
) -> Opened<M, D>
    ensures { IsWhole D.Disk result }
{
    match make_world::<M, D>(alloc, files) {
        Ok(opened) => opened,
        Err((_, refusal)) => panic!(rt; "no new world: {refusal}"),
    }
}

fn open_gates() -> Gates<Open, Open, Open> {
    Gates {
        mutator: Open,
        checkpointer: Open,
        log_writer: Open,
    }
}

// A batch that adds 1 to the first cell and reads it.
fn new_batch(alloc: Global) -> Result<Batch, Refusal> {
    let mut batch = Batch::new(alloc)?;
    batch.push_reserved(Request::Act(Action::Add { cell: 0, by: 1 }));
    batch.push_reserved(Request::Get(0));
    Ok(batch)
}

// Plays the batch as a tick on any front.
fn play_on<M: Method>(
    alloc: Global,
    front: &mut Front<M>,
    batch: &Batch,
) -> Result<(Tick, Vec<u8>), Refusal> {
    play(alloc, Vec::new(alloc), front, batch, 0, 0)
}

// Plays a batch that no worker sees.
fn check_play<M: Method>(rt: &impl Abort, alloc: Global) {
    let files = empty_files(alloc).expect(rt, "memory");
    let mut opened = open_world::<M, ModelFile>(rt, alloc, files);
    let batch = new_batch(alloc).expect(rt, "memory");
    let (tick, text) = play_on(alloc, &mut opened.front, &batch).expect(rt, "memory");
    same(rt, tick.actions().len(), 1);
    same(rt, text.as_slice(), b"tick 1: + =1\n".as_slice());
    drop(opened);
}

#[test]
fn a_batch_is_played_on_a_front(rt: HostRuntime) {
    check_play::<Zig>(&rt, rt.alloc());
    check_play::<Pong>(&rt, rt.alloc());
}

// Sends the batch, and returns the place of its reply.
fn send(rt: &(impl Wait + Abort), alloc: Global, asker: &mut Asker) -> AwaitedReply {
    let batch = new_batch(alloc).expect(rt, "memory");
    let slot = ReplySlot::new(alloc).expect(rt, "memory");
    let (awaited, to) = slot.ask().expect(rt, "memory");
    assert!(rt; asker.send(rt, batch, Vec::new(alloc), to).is_ok());
    awaited
}

// The tick of a post, and its text.
fn open_post(post: Post) -> (u64, Vec<u8>) {
    let tick: u64 = post.tick();
    let answer: (Vec<u8>, Batch) = post.into_answer();
    (tick, answer.0)
}

// The reply is a post of this tick.
fn is_posted(rt: &(impl Wait + Abort), awaited: AwaitedReply, tick: u64, text: &[u8]) {
    let (reply, _slot) = awaited.wait(rt, 0);
    match reply {
        Some(Reply::Post(post)) => {
            let (posted, answer) = open_post(post);
            same(rt, posted, tick);
            same(rt, answer.as_slice(), text);
        }
        Some(Reply::Fault(fault)) => panic!(rt; "refused: {}", fault.reason()),
        None => panic!(rt; "no reply"),
    }
}

fn turn_mutator<M: Method, G: Gate + Drop>(rt: &(impl Wait + Abort), mutator: &mut Mutator<M, G>) {
    let turned: Option<Result<(), Refused>> = mutator.turn(rt);
    match turned {
        Some(Ok(())) => {}
        Some(Err(refused)) => panic!(rt; "refused: {}", refused.reason()),
        None => panic!(rt; "no session"),
    }
}

fn turn_log_writer<D: Disk + Drop, G: Gate + Drop>(
    rt: &(impl Wait + Abort),
    log_writer: &mut LogWriter<D, G>,
)
    requires { IsAtRest log_writer.old }
{
    assert!(rt; !log_writer.is_over());
    log_writer.turn(rt);
    assert!(rt; !log_writer.is_down());
}

fn turn_checkpointer<M: Method, D: Disk + Drop, G: Gate + Drop>(
    rt: &(impl Wait + Abort),
    checkpointer: &mut Checkpointer<M, D, G>,
) -> Option<u64>
    requires { IsResting checkpointer.old.images.keeper checkpointer.old.back }
{
    if checkpointer.is_over() {
        return None;
    }
    let opened: Option<u64> = checkpointer.turn(rt);
    opened
}

// Gives each worker a turn, after which a batch is posted and its image is open.
fn take_turns<M: Method, D: Disk + Drop>(
    rt: &(impl Wait + Abort),
    alloc: Global,
    asker: &mut Asker,
    mutator: &mut Mutator<M, Open>,
    checkpointer: &mut Checkpointer<M, D, Open>,
    log_writer: &mut LogWriter<D, Open>,
)
    requires log { IsAtRest log_writer.old }
    requires images { IsResting checkpointer.old.images.keeper checkpointer.old.back }
{
    let awaited = send(rt, alloc, asker);
    turn_mutator(rt, mutator);
    turn_log_writer(rt, log_writer);
    same(rt, turn_checkpointer(rt, checkpointer), Some(1));
    is_posted(rt, awaited, 1, b"tick 1: + =1\n");
}

// The only session of a channel, and the end that takes its asks.
fn new_session(rt: &impl Abort, alloc: Global) -> (Asker, AskReceiver) {
    let (mut asks, asked) = AskChannel::open(alloc).expect(rt, "memory");
    (asks.session().expect(rt, "a session"), asked)
}

// Gives each worker of a world a turn. A round is due after each tick.
fn check_turns<M: Method, D: Disk + Drop>(
    rt: &(impl Wait + Abort),
    alloc: Global,
    files: FourFiles<D>,
) {
    let (mut asker, asked) = new_session(rt, alloc);
    let opened = open_world::<M, D>(rt, alloc, files);
    let Together {
        mut mutator,
        mut checkpointer,
        mut log_writer,
    } = Together::begin(rt, alloc, open_gates(), opened, asked, 1)
        .ok()
        .expect(rt, "memory");
    take_turns(
        rt,
        alloc,
        &mut asker,
        &mut mutator,
        &mut checkpointer,
        &mut log_writer,
    );
    drop((mutator, checkpointer, log_writer));
}

#[test]
fn each_worker_takes_a_turn(rt: HostRuntime) {
    let alloc = rt.alloc();
    let (files, others) = (empty_files(alloc), empty_files(alloc));
    check_turns::<Zig, ModelFile>(&rt, alloc, files.expect(&rt, "memory"));
    check_turns::<Pong, ModelFile>(&rt, alloc, others.expect(&rt, "memory"));
}

// Hears of nothing.
#[derive(Clone, Copy, Drop)]
struct Deaf;

impl TickWatch for Deaf {
    fn ticks_ended(&mut self, _ticks: u64, _since: u64) {}
}

impl<D: Disk + Drop> Watch<D> for Deaf {
    fn image_opened(&mut self, _tick: u64) {}

    fn images_down(&mut self, _images: &ImageWriter<D>) {}

    fn ticks_acked(&mut self, _acked: Acked) {}

    fn log_down(&mut self, _acked: u64, _log: &Log<D>) {}
}

// The workers of a new world in threads.
type Running<M> = Workers<M, ModelFile, Open, Open, Open>;

fn start_workers<R: Threads + Wait + Abort + Copy + Send + 'static, M: Method + Send + 'static>(
    rt: &R,
    alloc: Global,
) -> (Running<M>, AskChannel) {
    let files = empty_files(alloc).expect(rt, "memory");
    let opened = open_world::<M, ModelFile>(rt, alloc, files);
    let spins = Spins::on_this_machine(rt, alloc).expect(rt, "memory");
    start(rt, alloc, open_gates(), Deaf, opened, 64, &spins)
        .ok()
        .expect(rt, "workers")
}

// Stops workers, and brings their ends together.
fn end<M: Method>(rt: &impl Threads, workers: Running<M>) -> u64 {
    let mut ends: Ends<M, ModelFile, Open, Open, Open> = stop(rt, workers);
    ends_meet(&mut ends);
    let acked: u64 = ends.acked();
    drop(ends);
    acked
}

// Plays one batch of one session.
fn play_session(rt: &(impl Wait + Abort), alloc: Global, asks: AskChannel) {
    let mut asks = asks;
    let mut asker = asks.session().expect(rt, "a session");
    let awaited = send(rt, alloc, &mut asker);
    is_posted(rt, awaited, 1, b"tick 1: + =1\n");
}

fn check_running<R: Threads + Wait + Abort + Copy + Send + 'static, M: Method + Send + 'static>(
    rt: &R,
    alloc: Global,
) {
    let (workers, asks) = start_workers::<R, M>(rt, alloc);
    play_session(rt, alloc, asks);
    same(rt, end(rt, workers), 1);
}

#[test]
fn workers_run_in_threads_until_they_are_stopped(rt: HostRuntime) {
    check_running::<HostRuntime, Zig>(&rt, rt.alloc());
    check_running::<HostRuntime, Pong>(&rt, rt.alloc());
}
