// `action_log`
ghost use Rattle.std.specs.Prelude.{◌≡◌, [], IfOk};
ghost use Rattle.action_log.specs.Progress.{QueueFollows, end_of};
ghost use Rattle.action_log.specs.Files.{FitsFiles};

use super::same::same;
use action_log::{
    LogAnswer, LogKeeper, LogState, Receipt, Record, log_outcomes, log_queues, read_log,
};
use circular_buffer::HeapCircularBuffer;
use disk_model::ModelFile;
use std::alloc::Global;
use std::process::Abort;
use world_actions::Refusal;
use world_ticks::Tick;

// A segment of base 0 with one tick, which sets the first cell to 5, in the first format.
const SEGMENT: &[u8] = &[
    1, 0, 0, 0, 0, 0, 0, 0, 0, 1, 1, 0, 1, 0, 1, 0, 0, 0, 0, 5, 0, 0, 0, 0, 0, 0, 0, 0,
];

// The base of a segment and the number of its ticks, or `None` if it is closed.
fn read(alloc: Global, bytes: &[u8]) -> Result<Option<(u64, usize)>, Refusal> {
    let log: LogState = read_log(alloc, bytes)?;
    match log {
        LogState::Closed => Ok(None),
        LogState::Open { base, ticks } => Ok(Some((base, ticks.len()))),
    }
}

#[test]
fn segments_are_read(rt: HostRuntime) {
    let alloc = rt.alloc();
    same(&rt, read(alloc, SEGMENT), Ok(Some((0, 1))));
    same(&rt, read(alloc, &SEGMENT[..9]), Ok(None));
    same(&rt, read(alloc, &SEGMENT[..26]), Err(Refusal::BadLog));
}

// A keeper of a log that begins at tick 0, and its empty files.
fn keep(alloc: Global) -> Result<(LogKeeper, ModelFile, ModelFile), Refusal>
    ensures fits { IfOk result (λ log. FitsFiles log.0 log.1.content log.2.content) }
    ensures follows { IfOk result (λ log. QueueFollows log.0 []) }
    ensures end { IfOk result (λ log. end_of log.0 [] ≡ record { base = 0; count = 0 }) }
{
    log_outcomes::<ModelFile>();
    log_queues();
    let a = ModelFile::new(alloc, Vec::new(alloc))?;
    let b = ModelFile::new(alloc, Vec::new(alloc))?;
    let keeper: LogKeeper = LogKeeper::new(alloc, 0, [false, false])?;
    Ok((keeper, a, b))
}

// Queues an empty tick and a switch.
fn queue_both(
    rt: &impl Abort,
    alloc: Global,
    keeper: &LogKeeper,
    queue: &mut HeapCircularBuffer<Record>,
)
    requires follows { QueueFollows keeper.now queue.old.items }
    requires first { end_of keeper.now queue.old.items ≡ record { base = 0; count = 0 } }
    ensures follows { QueueFollows keeper.now queue.new.items }
{
    log_queues();
    assert!(rt; queue.try_push_back(Record::Tick(Tick::new(alloc))).is_ok());
    assert!(rt; queue.try_push_back(Record::Switch(1)).is_ok());
}

// More steps than the start and the tick take.
const STEPS: u64 = 100;

// Makes steps up to the first answer that isn't Working. Returns how many were answered Working,
// and the tick that the other one acknowledges.
fn run(
    keeper: &mut LogKeeper,
    queue: &mut HeapCircularBuffer<Record>,
    a: &mut ModelFile,
    b: &mut ModelFile,
) -> (u64, Option<u64>)
    requires fits { FitsFiles keeper.old a.old.content b.old.content }
    requires follows { QueueFollows keeper.old queue.old.items }
    ensures fits { FitsFiles keeper.new a.new.content b.new.content }
    ensures follows { QueueFollows keeper.new queue.new.items }
{
    for steps in 0..STEPS {
        let answer: LogAnswer = keeper.step(queue, a, b);
        if answer != LogAnswer::Working {
            return (steps, acked(answer));
        }
    }
    (STEPS, None)
}

// The tick that an answer acknowledges.
fn acked(answer: LogAnswer) -> Option<u64> {
    match answer {
        LogAnswer::Acked(receipt) => Some(tick_of(receipt)),
        LogAnswer::Idle | LogAnswer::Working | LogAnswer::Down => None,
    }
}

// The tick of a receipt, which can be copied.
fn tick_of(receipt: Receipt) -> u64 {
    let copied: (Receipt, Receipt) = (receipt, receipt);
    copied.0.tick().max(copied.1.tick())
}

// Writes the tick. A cover of the switch after it then finds no record before it.
fn check_log(
    rt: &impl Abort,
    keeper: &mut LogKeeper,
    queue: &mut HeapCircularBuffer<Record>,
    a: &mut ModelFile,
    b: &mut ModelFile,
)
    requires fits { FitsFiles keeper.old a.old.content b.old.content }
    requires follows { QueueFollows keeper.old queue.old.items }
{
    let (starting, work): (bool, u64) = (keeper.starting(), keeper.work(queue));
    same(rt, (starting, work), (true, 18));
    same(rt, run(keeper, queue, a, b), (11, Some(1)));
    same(rt, (keeper.starting(), keeper.work(queue)), (false, 6));
    same(rt, keeper.cover(queue, 1), LogAnswer::Idle);
}

#[test]
fn a_tick_is_logged(rt: HostRuntime) {
    let (mut keeper, mut a, mut b) = keep(rt.alloc()).expect(&rt, "memory");
    let mut queue = HeapCircularBuffer::with_capacity(rt.alloc(), 64).expect(&rt, "memory");
    queue_both(&rt, rt.alloc(), &keeper, &mut queue);
    check_log(&rt, &mut keeper, &mut queue, &mut a, &mut b);
    same(&rt, read(rt.alloc(), a.durable()), Ok(Some((0, 1))));
}
