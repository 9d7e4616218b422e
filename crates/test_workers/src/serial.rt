//! Workers that take their turns in one thread.
ghost use Rattle.std.specs.Prelude.{◌≡◌, ◌≤◌, ◌∷◌, [], false};
ghost use Rattle.world_ticks.specs.declared.tick.TheConstants.{TICK_MAX};
ghost use Rattle.workers.specs.declared.item.Item.TheVariants.{Start};
ghost use Rattle.workers.specs.Logging.{IsAtRest};
ghost use Rattle.worker_steps.specs.Begun.{IsWhole};
ghost use Rattle.worker_threads.specs.Kept.{MayTake};

use crate::held::Held;
use crate::same::same;
use crate::worlds::{new_files, open_files, stands_in};
use batches::{Batch, Request};
use crossbeam_channel::{Receiver, Sender, bounded};
use disk_model::{Disk, ModelFile};
use shared_capture::{Method, Pong, SignalIn, SignalOut, Zig, signal_pair};
use std::alloc::Global;
use std::process::Abort;
use std::sync::atomic::{AtomicU64, Ordering};
use std::sync::{Arc, Wait};
use worker_steps::Opened;
use workers::{
    AskChannel, AskReceiver, Asker, AwaitedReply, Checkpointer, ItemReceiver, ItemSender,
    LogWriter, Mutator, Open, Reply, ReplySlot, open,
};
use world_actions::Action;

/// The workers of a world.
#[derive(Drop)]
pub struct Serial<M: Method, D: Disk + Drop> {
    pub mutator: Mutator<M, Open>,
    pub log_writer: LogWriter<D, Open>,
    pub checkpointer: Checkpointer<M, D, Held>,
}

// The signals between the workers beside the items: the bell, and the word that says that
// the log is down.
#[derive(Drop)]
struct Signals {
    bell: Sender<()>,
    rung: Receiver<()>,
    reported_down: SignalOut,
    heard: SignalIn,
}

fn new_signals(rt: &impl Abort, alloc: Global) -> Signals
    ensures { result.reported_down.numbers ≡ [] }
{
    let (bell, rung) = bounded(alloc, 1).expect(rt, "a channel");
    let (reported_down, heard) = signal_pair(alloc).expect(rt, "a word");
    Signals {
        bell,
        rung,
        reported_down,
        heard,
    }
}

// The ends of the items' channel and those of the word of open images.
#[derive(Drop)]
struct Channel {
    to: ItemSender,
    from: ItemReceiver,
    out: SignalOut,
    reported: SignalIn,
}

fn new_channel(rt: &(impl Wait + Abort), alloc: Global, ended: u64) -> Channel
    requires { ended ≤ TICK_MAX }
    ensures to { result.to.items ≡ Start ended ∷ [] }
    ensures pushes { result.to.refused ≡ false }
    ensures from { result.from.items ≡ Start ended ∷ [] }
    ensures out { result.out.numbers ≡ [] }
{
    let (out, reported) = signal_pair(alloc).expect(rt, "a word");
    let (to, from) = open(rt, alloc, ended).expect(rt, "a channel");
    Channel {
        to,
        from,
        out,
        reported,
    }
}

/// The workers of this world, which take these asks. An image of it is due after each tick.
pub fn begin<M: Method, D: Disk + Drop>(
    rt: &(impl Wait + Abort),
    alloc: Global,
    asks: AskReceiver,
    opened: Opened<M, D>,
    held: Held,
) -> Serial<M, D>
    requires { IsWhole D.Disk opened }
    ensures rest { IsAtRest result.log_writer }
    ensures takes { MayTake result.checkpointer }
{
    let signals = new_signals(rt, alloc);
    let channel = new_channel(rt, alloc, opened.ended);
    joined(rt, alloc, asks, opened, held, signals, channel)
}

fn joined<M: Method, D: Disk + Drop>(
    rt: &impl Abort,
    alloc: Global,
    asks: AskReceiver,
    opened: Opened<M, D>,
    held: Held,
    signals: Signals,
    channel: Channel,
) -> Serial<M, D>
    requires whole { IsWhole D.Disk opened }
    requires to { channel.to.items ≡ Start opened.ended ∷ [] }
    requires pushes { channel.to.refused ≡ false }
    requires from { channel.from.items ≡ Start opened.ended ∷ [] }
    requires out { channel.out.numbers ≡ [] }
    requires unreported { signals.reported_down.numbers ≡ [] }
    ensures rest { IsAtRest result.log_writer }
    ensures takes { MayTake result.checkpointer }
{
    let Opened {
        front,
        back,
        images,
        log,
        ended,
    } = opened;
    let Signals {
        bell,
        rung,
        reported_down,
        heard,
    } = signals;
    let Channel {
        to,
        from,
        out,
        reported,
    } = channel;
    let mutator = Mutator::new(Open, alloc, asks, front, to, ended, 1, bell, heard);
    let checkpointer = Checkpointer::new(held, back, out, images, rung);
    let log_writer = LogWriter::new(alloc, Open, from, reported, log, reported_down, ended)
        .ok()
        .expect(rt, "memory");
    Serial {
        mutator,
        log_writer,
        checkpointer,
    }
}

/// The only session of a channel, and the end that takes its asks.
pub fn new_session(rt: &impl Abort, alloc: Global) -> (Asker, AskReceiver) {
    let (mut asks, asked) = AskChannel::open(alloc).expect(rt, "a channel");
    (asks.session().expect(rt, "a session"), asked)
}

/// Lets a session ask for a batch that adds 1 to the first cell and reads it. The mutator runs it.
/// Its answer comes later.
pub fn send<M: Method>(
    rt: &(impl Wait + Abort),
    alloc: Global,
    asker: &mut Asker,
    mutator: &mut Mutator<M, Open>,
) -> AwaitedReply {
    let awaited = ask(rt, alloc, asker, 1);
    let played = mutator.turn(rt).expect(rt, "an ask");
    assert!(rt; played.is_ok());
    awaited
}

/// Lets a session ask for a batch that adds this to the first cell and reads it. Returns the
/// place of its reply.
pub fn ask(rt: &(impl Wait + Abort), alloc: Global, asker: &mut Asker, by: i64) -> AwaitedReply {
    let mut batch = Batch::new(alloc).expect(rt, "a batch");
    batch.push_reserved(Request::Act(Action::Add { cell: 0, by }));
    batch.push_reserved(Request::Get(0));
    let slot = ReplySlot::new(alloc).expect(rt, "a slot");
    let (awaited, to) = slot.ask().expect(rt, "a sender");
    assert!(rt; asker.send(rt, batch, Vec::new(alloc), to).is_ok());
    awaited
}

/// Lets the log writer take a turn, which logs the played ticks.
pub fn log_on<D: Disk + Drop>(rt: &(impl Wait + Abort), log_writer: &mut LogWriter<D, Open>)
    requires { IsAtRest log_writer.old }
    ensures { IsAtRest log_writer.new }
{
    assert!(rt; !log_writer.is_over());
    log_writer.turn(rt);
}

// Runs and logs a batch, whose answer is a post of this text.
fn answer<M: Method>(
    rt: &(impl Wait + Abort),
    alloc: Global,
    asker: &mut Asker,
    world: &mut Serial<M, ModelFile>,
    text: &[u8],
)
    requires rest { IsAtRest world.old.log_writer }
    ensures rest { IsAtRest world.new.log_writer }
    ensures checkpointer { world.new.checkpointer ≡ world.old.checkpointer }
{
    let awaited = send(rt, alloc, asker, &mut world.mutator);
    log_on(rt, &mut world.log_writer);
    is_posted(rt, awaited, text);
}

/// The answer is a post of this text.
pub fn is_posted(rt: &(impl Wait + Abort), awaited: AwaitedReply, text: &[u8]) {
    let (reply, _slot) = awaited.wait(rt, 0);
    match reply {
        Some(Reply::Post(post)) => same(rt, "a post", post.into_answer().0.as_slice(), text),
        _ => panic!(rt; "no post"),
    }
}

// The checkpointer is held for good, so its round stays open.
fn is_stuck<M: Method>(
    rt: &(impl Wait + Abort),
    checkpointer: &mut Checkpointer<M, ModelFile, Held>,
)
    requires { MayTake checkpointer.old }
{
    assert!(rt; !checkpointer.is_over());
    same(rt, "an image that is opened", checkpointer.turn(rt), None);
    let stops = (checkpointer.is_over(), checkpointer.is_down());
    same(rt, "it is over, and down", stops, (true, false));
}

// Begins the workers of a new world, whose checkpointer is held.
fn begin_held<M: Method>(
    rt: &(impl Wait + Abort),
    alloc: Global,
    asks: AskReceiver,
    answered: &Arc<AtomicU64, Global>,
) -> Serial<M, ModelFile>
    ensures rest { IsAtRest result.log_writer }
    ensures takes { MayTake result.checkpointer }
{
    let held = Held::until(answered.clone().expect(rt, "a share"));
    let opened = open_files::<M, ModelFile>(rt, alloc, new_files(rt, alloc, 2));
    begin(rt, alloc, asks, opened, held)
}

fn play_round<M: Method>(
    rt: &(impl Wait + Abort),
    alloc: Global,
    asker: &mut Asker,
    world: &mut Serial<M, ModelFile>,
    answered: &AtomicU64,
)
    requires rest { IsAtRest world.old.log_writer }
    requires takes { MayTake world.old.checkpointer }
{
    answer(rt, alloc, asker, world, b"tick 1: + =1\n");
    answered.fetch_add(1, Ordering::SeqCst);
    is_stuck(rt, &mut world.checkpointer);
    answer(rt, alloc, asker, world, b"tick 2: + =2\n");
    let (images, log) = (world.checkpointer.images(), world.log_writer.log());
    let found = stands_in(rt, alloc, images, log);
    same(rt, "what stands", found, (2, 0, 2));
}

fn try_serial_round<M: Method>(rt: &(impl Wait + Abort), alloc: Global) {
    let answered = Arc::new(alloc, AtomicU64::new(0)).expect(rt, "a count");
    let (mut asker, asks) = new_session(rt, alloc);
    let mut world = begin_held::<M>(rt, alloc, asks, &answered);
    play_round(rt, alloc, &mut asker, &mut world, &answered);
    drop(world);
    drop(asker);
}

#[test]
fn serial_rounds_are_stuck(rt: HostRuntime) {
    try_serial_round::<Zig>(&rt, rt.alloc());
    try_serial_round::<Pong>(&rt, rt.alloc());
}
