ghost use Rattle.std.specs.Prelude.{◌≡◌, ◌+◌, ◌<◌, ◌≤◌, [], IfOk, OnOk};
ghost use Rattle.world_ticks.specs.declared.tick.TheConstants.{TICK_MAX};
ghost use Rattle.action_log.specs.declared.format.TheConstants.{SEGMENT_TICKS};
ghost use Rattle.action_log.specs.Progress.{QueueFollows, end_of};
ghost use Rattle.action_log.specs.Files.{FitsFiles};

use action_log::{LogAnswer, LogKeeper, Record, log_outcomes, log_queues};
use circular_buffer::HeapCircularBuffer;
use disk_model::ModelFile;
use std::alloc::Global;
use std::process::Abort;
use std::test::Fail;
use world_actions::{Action, Refusal};
use world_ticks::Tick;

fn queue_tick(
    rt: &impl Abort,
    alloc: Global,
    keeper: &LogKeeper,
    queue: &mut HeapCircularBuffer<Record>,
    action: Action,
) -> Result<(), Refusal>
    requires follows { QueueFollows keeper.now queue.old.items }
    requires few { (end_of keeper.now queue.old.items).count < SEGMENT_TICKS }
    requires numbered { (end_of keeper.now queue.old.items).base
        + (end_of keeper.now queue.old.items).count < TICK_MAX }
    ensures follows { QueueFollows keeper.now queue.new.items }
    ensures end { OnOk result (end_of keeper.now queue.new.items
        ≡ record {
          base = (end_of keeper.now queue.old.items).base;
          count = (end_of keeper.now queue.old.items).count + 1;
        }) }
{
    log_queues();
    let mut tick = Tick::new(alloc);
    tick.reserve(1)?;
    tick.push_reserved(action);
    assert!(rt; queue.try_push_back(Record::Tick(tick)).is_ok());
    Ok(())
}

// Queues the first ticks after base 0.
fn queue_ticks(
    rt: &impl Abort,
    alloc: Global,
    keeper: &LogKeeper,
    queue: &mut HeapCircularBuffer<Record>,
    n: u64,
) -> Result<(), Refusal>
    requires follows { QueueFollows keeper.now queue.old.items }
    requires first { end_of keeper.now queue.old.items ≡ record { base = 0; count = 0 } }
    requires few { n ≤ SEGMENT_TICKS }
    ensures follows { QueueFollows keeper.now queue.new.items }
{
    for _ in 0..n {
        queue_tick(rt, alloc, keeper, queue, Action::Add { cell: 1, by: -6 })?;
    }
    Ok(())
}

fn queue_switch(
    rt: &impl Abort,
    keeper: &LogKeeper,
    queue: &mut HeapCircularBuffer<Record>,
    tick: u64,
)
    requires follows { QueueFollows keeper.now queue.old.items }
    requires last { (end_of keeper.now queue.old.items).base
        + (end_of keeper.now queue.old.items).count ≤ tick }
    requires most { tick ≤ TICK_MAX }
    ensures follows { QueueFollows keeper.now queue.new.items }
    ensures end { end_of keeper.now queue.new.items ≡ record { base = tick; count = 0 } }
{
    log_queues();
    assert!(rt; queue.try_push_back(Record::Switch(tick)).is_ok());
}

// Numbers for answers that acknowledge no tick.
const IDLE: u64 = 1_000;

const OTHER: u64 = 1_001;

// The tick that an answer acknowledges, or a number for another answer.
fn acked(answer: LogAnswer) -> u64 {
    match answer {
        LogAnswer::Acked(receipt) => receipt.tick(),
        LogAnswer::Idle => IDLE,
        LogAnswer::Working | LogAnswer::Down => OTHER,
    }
}

// Makes steps up to the first answer that isn't Working. Returns how many were answered Working,
// and `acked` of the other one.
fn run(
    keeper: &mut LogKeeper,
    queue: &mut HeapCircularBuffer<Record>,
    a: &mut ModelFile,
    b: &mut ModelFile,
) -> (u64, u64)
    requires fits { FitsFiles keeper.old a.old.content b.old.content }
    requires follows { QueueFollows keeper.old queue.old.items }
    ensures fits { FitsFiles keeper.new a.new.content b.new.content }
    ensures follows { QueueFollows keeper.new queue.new.items }
    ensures end { end_of keeper.new queue.new.items ≡ end_of keeper.old queue.old.items }
{
    for steps in 0..100 {
        let answer = keeper.step(queue, a, b);
        if answer != LogAnswer::Working {
            return (steps, acked(answer));
        }
    }
    (100, OTHER)
}

// A keeper of a log that begins at tick 0, and its empty files.
fn begin(alloc: Global) -> Result<(LogKeeper, ModelFile, ModelFile), Refusal>
    ensures fits { IfOk result (λ log. FitsFiles log.0 log.1.content log.2.content) }
    ensures follows { IfOk result (λ log. QueueFollows log.0 []) }
    ensures end { IfOk result (λ log. end_of log.0 [] ≡ record { base = 0; count = 0 }) }
{
    log_outcomes::<ModelFile>();
    log_queues();
    let a = ModelFile::new(alloc, Vec::new(alloc))?;
    let b = ModelFile::new(alloc, Vec::new(alloc))?;
    let keeper = LogKeeper::new(alloc, 0, [false, false])?;
    Ok((keeper, a, b))
}

// A queue of two ticks, with a switch between them.
fn two_ticks(
    rt: &impl Abort,
    alloc: Global,
    keeper: &LogKeeper,
) -> Result<HeapCircularBuffer<Record>, Refusal>
    requires follows { QueueFollows keeper.now [] }
    requires first { end_of keeper.now [] ≡ record { base = 0; count = 0 } }
    ensures follows { IfOk result (λ queue. QueueFollows keeper.now queue.items) }
    ensures end { IfOk result (λ queue. end_of keeper.now queue.items
        ≡ record { base = 1; count = 1 }) }
{
    let mut queue = HeapCircularBuffer::with_capacity(alloc, 8)?;
    let set = Action::Set { cell: 0, value: 5 };
    queue_tick(rt, alloc, keeper, &mut queue, set)?;
    queue_switch(rt, keeper, &mut queue, 1);
    let add = Action::Add { cell: 0, by: 2 };
    queue_tick(rt, alloc, keeper, &mut queue, add)?;
    Ok(queue)
}

// True if log.a has tick 1 after base 0.
fn has_first(a: &ModelFile) -> bool {
    let segment = [
        1, 0, 0, 0, 0, 0, 0, 0, 0x20, 1, 1, 0, 1, 0, 1, 0, 0, 0, 0, 5, 0, 0, 0, 0, 0, 0, 0, 0,
    ];
    a.durable() == segment.as_slice()
}

// True if log.b has tick 2 after base 1.
fn has_second(b: &ModelFile) -> bool {
    let segment = [
        1, 1, 0, 0, 0, 0, 0, 0, 0x20, 1, 1, 0, 1, 0, 2, 0, 0, 0, 0, 2, 0, 0, 0, 0, 0, 0, 0, 0,
    ];
    b.durable() == segment.as_slice()
}

// Writes the two ticks, and switches back.
fn check_switches(
    rt: &impl Abort,
    keeper: &mut LogKeeper,
    queue: &mut HeapCircularBuffer<Record>,
    a: &mut ModelFile,
    b: &mut ModelFile,
)
    requires fits { FitsFiles keeper.old a.old.content b.old.content }
    requires follows { QueueFollows keeper.old queue.old.items }
    requires end { end_of keeper.old queue.old.items ≡ record { base = 1; count = 1 } }
{
    assert_eq!(rt; (queue.len(), keeper.work(queue)), (3, 22));
    // The start, and tick 1.
    assert_eq!(rt; run(keeper, queue, a, b), (11, 1));
    assert!(rt; !keeper.starting() && has_first(a));
    // The switch to log.b, which the start has shut, and tick 2.
    assert_eq!(rt; run(keeper, queue, a, b), (7, 2));
    assert!(rt; has_second(b));
    // The switch back to log.a, which isn't shut.
    queue_switch(rt, keeper, queue, 2);
    assert_eq!(rt; run(keeper, queue, a, b), (6, IDLE));
}

#[test]
fn writes_ticks_and_switches(rt: HostRuntime) -> Result<(), Fail> {
    let (mut keeper, mut a, mut b) = begin(rt.alloc())?;
    let mut queue = two_ticks(&rt, rt.alloc(), &keeper)?;
    check_switches(&rt, &mut keeper, &mut queue, &mut a, &mut b);
    Ok(())
}

// Writes 33 ticks, of which the first group has 32.
fn check_groups(
    rt: &impl Abort,
    alloc: Global,
    keeper: &mut LogKeeper,
    queue: &mut HeapCircularBuffer<Record>,
    a: &mut ModelFile,
    b: &mut ModelFile,
) -> Result<(), Refusal>
    requires fits { FitsFiles keeper.old a.old.content b.old.content }
    requires follows { QueueFollows keeper.old queue.old.items }
    requires first { end_of keeper.old queue.old.items ≡ record { base = 0; count = 0 } }
{
    assert_eq!(rt; run(keeper, queue, a, b), (8, IDLE));
    queue_ticks(rt, alloc, keeper, queue, 33)?;
    assert_eq!(rt; (queue.len(), keeper.work(queue)), (33, 132));
    assert_eq!(rt; run(keeper, queue, a, b), (3, 32));
    assert_eq!(rt; run(keeper, queue, a, b), (3, 33));
    Ok(())
}

#[test]
fn writes_ticks_in_groups(rt: HostRuntime) -> Result<(), Fail> {
    let mut queue = HeapCircularBuffer::with_capacity(rt.alloc(), 40)?;
    let (mut keeper, mut a, mut b) = begin(rt.alloc())?;
    check_groups(&rt, rt.alloc(), &mut keeper, &mut queue, &mut a, &mut b)?;
    Ok(())
}

// Covers nothing in front of a switch, and then only an older switch. Returns the work of the
// switch that is left, which is at tick 3.
fn cover_switches(
    rt: &impl Abort,
    keeper: &LogKeeper,
    queue: &mut HeapCircularBuffer<Record>,
) -> u64
    requires follows { QueueFollows keeper.now queue.old.items }
    requires first { end_of keeper.now queue.old.items ≡ record { base = 0; count = 0 } }
    ensures follows { QueueFollows keeper.now queue.new.items }
    ensures end { end_of keeper.now queue.new.items ≡ record { base = 3; count = 0 } }
{
    queue_switch(rt, keeper, queue, 1);
    queue_switch(rt, keeper, queue, 3);
    assert!(rt; keeper.cover(queue, 2) == LogAnswer::Idle);
    assert!(rt; keeper.cover(queue, 3) == LogAnswer::Working);
    keeper.work(queue)
}

// Covers a tick. Returns the work of the switch that is left, which is at tick 4.
fn cover_tick(
    rt: &impl Abort,
    alloc: Global,
    keeper: &LogKeeper,
    queue: &mut HeapCircularBuffer<Record>,
) -> Result<u64, Refusal>
    requires follows { QueueFollows keeper.now queue.old.items }
    requires end { end_of keeper.now queue.old.items ≡ record { base = 3; count = 0 } }
    ensures follows { QueueFollows keeper.now queue.new.items }
{
    let action = Action::Set { cell: 0, value: 5 };
    queue_tick(rt, alloc, keeper, queue, action)?;
    queue_switch(rt, keeper, queue, 4);
    assert_eq!(rt; acked(keeper.cover(queue, 4)), 4);
    Ok(keeper.work(queue))
}

// Covers the records of the queue, and writes the switch that is left.
fn check_covers(
    rt: &impl Abort,
    alloc: Global,
    keeper: &mut LogKeeper,
    queue: &mut HeapCircularBuffer<Record>,
    a: &mut ModelFile,
    b: &mut ModelFile,
) -> Result<(), Refusal>
    requires fits { FitsFiles keeper.old a.old.content b.old.content }
    requires follows { QueueFollows keeper.old queue.old.items }
    requires first { end_of keeper.old queue.old.items ≡ record { base = 0; count = 0 } }
{
    assert!(rt; keeper.cover(queue, 0) == LogAnswer::Idle);
    assert_eq!(rt; run(keeper, queue, a, b).1, IDLE);
    assert_eq!(rt; cover_switches(rt, keeper, queue), 6);
    assert_eq!(rt; cover_tick(rt, alloc, keeper, queue)?, 6);
    // The segment begins at the covered tick.
    assert_eq!(rt; run(keeper, queue, a, b), (4, IDLE));
    assert!(rt; b.durable() == [1, 4, 0, 0, 0, 0, 0, 0, 0x20, 0].as_slice());
    Ok(())
}

// A cover takes the records before the switch: a tick, nothing, and only an older switch.
#[test]
fn covers_what_stands_before_a_switch(rt: HostRuntime) -> Result<(), Fail> {
    let mut queue = HeapCircularBuffer::with_capacity(rt.alloc(), 8)?;
    let (mut keeper, mut a, mut b) = begin(rt.alloc())?;
    check_covers(&rt, rt.alloc(), &mut keeper, &mut queue, &mut a, &mut b)?;
    Ok(())
}
