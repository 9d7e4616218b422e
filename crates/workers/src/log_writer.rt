//! The worker that writes the log.
mod advance;
mod answers;
mod holding;
mod keep;

ghost use Rattle.std.specs.Prelude.{◌≡◌, ◌≢◌, ◌↔◌, ◌⊎◌, ◌+◌, ◌<◌, ◌≤◌, ◌++◌, ◌∷◌, [], ℕ, true};
ghost use Rattle.std.specs.Prelude.{false, List, length, IfOk, IfErr, IsTrue};
ghost use Rattle.world_ticks.specs.declared.tick.TheConstants.{TICK_MAX};
ghost use Rattle.disk_model.specs.Disk.{OneCalledAtMostOnce};
ghost use Rattle.action_log.specs.declared.answer.LogAnswer.TheVariants.{Idle};
ghost use Rattle.action_log.specs.Cover.{uncovered, cover_answer};
ghost use Rattle.action_log.specs.Files.{FitsFiles};
ghost use Rattle.action_log.specs.Progress.{work_of};
ghost use Rattle.restart.specs.declared.start.TheConstants.{QUEUE_RECORDS};
ghost use Rattle.shared_capture.specs.SignalWord.{with_number};
ghost use Rattle.workers.specs.declared.gate.Place.TheVariants.{Device};
ghost use Rattle.workers.specs.declared.item.Item.{Item as Popped};
ghost use Rattle.workers.specs.declared.item.Item.TheVariants.{Start};
ghost use Rattle.workers.specs.Covering.{LoadsOn};
ghost use Rattle.workers.specs.Gates.{MayGo, MayStick};
ghost use Rattle.workers.specs.Logging.{is_stop, has_stop, is_over, writer_at, Took, Loses, Pops};
ghost use Rattle.workers.specs.Logging.{refused, Settles, receipt_of, Acknowledges, IsReady};
ghost use Rattle.workers.specs.Logging.{IsAtRest, LogReportsFaults, FallsBy, IsPosted, IsLogging};
ghost use Rattle.workers.specs.Logging.{WritesOnly, PopsOnly};

use crate::gate::{Gate, Place, passes};
use crate::item_channel::ItemReceiver;
use crate::spins::Spins;
use action_log::{LogAnswer, LogKeeper, Record};
use advance::advance;
use answers::Answers;
use circular_buffer::HeapCircularBuffer;
use disk_model::Disk;
pub(crate) use holding::Holding;
use keep::{keep, lose};
use restart::QUEUE_RECORDS;
use shared_capture::{SignalIn, SignalOut};
use std::alloc::Global;
use std::marker::Model;
use std::snapshot::Snapshot;
use std::sync::Wait;

/// The keeper of the log, and its two files.
#[derive(Drop)]
pub struct Log<D: Disk + Drop> {
    pub keeper: LogKeeper,
    pub a: D,
    pub b: D,
}

/// Writes the popped records to the log, except those that an open image has, and answers the
/// durable ticks. It begins after the start of the log.
#[derive(Drop)]
pub struct LogWriter<D: Disk + Drop, G: Gate + Drop> {
    gate: G,
    pub(crate) from: ItemReceiver,
    /// Holds the tick of the newest open image.
    pub(crate) covers: SignalIn,
    /// Gets a 1 once the log is down.
    pub(crate) reported_down: SignalOut,
    log: Log<D>,
    ring: HeapCircularBuffer<Record>,
    answers: Answers,
    opening: Snapshot<Log<D>>,
    acked: u64,
    down: bool,
    over: bool,
}

impl<D: Disk + Drop, G: Gate + Drop> Model for LogWriter<D, G> {
    ghost use Rattle.workers.specs.Gates.{MayGo, MayStick};
    ghost use Rattle.workers.specs.Logging.{Logging, IsLogging};

    ghost Value = { Logging D };

    ghost use Rattle.workers.specs.LoggingView.{logging_of};

    ghost view = { logging_of };

    ghost invariant = { λ w. IsLogging D.Disk (logging_of w) };
}

impl<D: Disk + Drop, G: Gate + Drop> LogWriter<D, G> {
    /// A log writer for a log that begins after this tick. Its keeper has just made the start, the
    /// channel was just opened, and no tick of an open image has come yet. Without memory for its
    /// queues it gives the log back.
    pub fn new(
        alloc: Global,
        gate: G,
        from: ItemReceiver,
        covers: SignalIn,
        log: Log<D>,
        reported_down: SignalOut,
        tick: u64,
    ) -> Result<Self, Log<D>>
        requires opened { from.items ≡ Start tick ∷ [] }
        requires unreported { reported_down.numbers ≡ [] }
        requires most { tick ≤ TICK_MAX }
        requires ready { IsReady log.keeper tick }
        requires fits { IsTrue D.honest → FitsFiles log.keeper (D.content log.a) (D.content log.b) }
        ensures begun { IfOk result (λ w. w ≡ writer_at from covers reported_down log tick) }
        ensures rest { IfOk result (λ w. IsAtRest w) }
        ensures kept { IfErr result (λ left. left ≡ log) }
    {
        let Ok(ring) = HeapCircularBuffer::with_capacity(alloc, QUEUE_RECORDS) else {
            return Err(log);
        };
        let Ok(answers) = Answers::new(alloc, QUEUE_RECORDS, tick) else {
            return Err(log);
        };
        let opening = Snapshot::of(&log);
        Ok(LogWriter {
            gate,
            from,
            covers,
            reported_down,
            log,
            ring,
            answers,
            opening,
            acked: tick,
            down: false,
            over: false,
        })
    }

    /// Spins for items like this from now on.
    pub fn spin_by(&mut self, spins: Spins)
        ensures { self.new ≡ self.old }
    {
        self.from.spin_by(spins);
    }

    /// True if there are no more items.
    pub fn is_over(&self) -> bool
        ensures { result ≡ self.now.over }
    {
        self.over
    }

    /// True if the log is down, so that no tick is acknowledged any more.
    pub fn is_down(&self) -> bool
        ensures { result ≡ self.now.down }
    {
        self.down
    }

    /// The keeper of the log and its files.
    pub fn log(&self) -> &Log<D>
        ensures { result.now ≡ self.now.log }
    {
        &self.log
    }

    /// The same, of a log writer that doesn't go on.
    pub fn into_log(self) -> Log<D>
        ensures { result ≡ self.log }
    {
        self.log
    }

    /// The greatest tick of a receipt, or the tick of the start if there is no receipt.
    pub fn acked(&self) -> u64
        ensures { result ≡ self.now.acked }
    {
        self.acked
    }

    // The log is down: reports it to the mutator, and loses each answer that waits.
    fn fall<R: Wait>(&mut self, rt: &R)
        requires up { self.old.down ≡ false }
        ensures { self.new ≡ record self.old {
          down = true;
          reported_down = with_number self.old.reported_down 1;
          answers = refused self.old.answers;
        } }
    {
        self.down = true;
        self.reported_down.publish(1);
        self.answers.lose_all(rt);
    }

    // Waits for an item, pops it and keeps it.
    fn take<R: Wait>(&mut self, rt: &R)
        requires up { self.old.down ≡ false }
        requires goes_on { self.old.over ≡ false }
        requires room { (length self.old.ring.items < QUEUE_RECORDS)
            × (length self.old.answers.waiting < QUEUE_RECORDS) }
        ensures { (more : List Popped) × Took self.old self.new more
            × (self.new.over ≡ is_over more) }
    {
        match self.from.pop(rt) {
            Ok(item) => self.over = keep(&self.log.keeper, &mut self.ring, &mut self.answers, item),
            Err(_) => self.over = true,
        }
    }

    // Pops an item and keeps it, if there is one.
    fn try_take<R: Wait>(&mut self, rt: &R) -> bool
        requires up { self.old.down ≡ false }
        requires goes_on { self.old.over ≡ false }
        requires room { (length self.old.ring.items < QUEUE_RECORDS)
            × (length self.old.answers.waiting < QUEUE_RECORDS) }
        ensures took { result ≡ true → (item : Popped) × Took self.old self.new (item ∷ [])
            × (self.new.over ≡ is_stop item) }
        ensures none { result ≡ false → self.new ≡ self.old }
        ensures queued { result ≡ true → self.new.over ≡ false
            → length self.new.ring.items ≡ length self.old.ring.items + 1 }
    {
        match self.from.try_pop(rt) {
            Ok(item) => {
                self.over = keep(&self.log.keeper, &mut self.ring, &mut self.answers, item);
                true
            }
            Err(_) => false,
        }
    }

    // Pops the items that are there and keeps them, as long as there is room.
    fn gather<R: Wait>(&mut self, rt: &R)
        requires up { self.old.down ≡ false }
        requires goes_on { self.old.over ≡ false }
        requires few { length self.old.answers.waiting ≤ length self.old.ring.items }
        ensures { (more : List Popped) × Took self.old self.new more
            × (self.new.over ≡ has_stop more) }
    {
        while !self.over && self.ring.len() < QUEUE_RECORDS {
            if !self.try_take(rt) {
                return;
            }
        }
    }

    // Waits for an item, and pops it with those after it, as long as there is room.
    fn fill<R: Wait>(&mut self, rt: &R)
        requires up { self.old.down ≡ false }
        requires goes_on { self.old.over ≡ false }
        requires none { (self.old.ring.items ≡ []) × (self.old.answers.waiting ≡ []) }
        ensures { (more : List Popped) × Took self.old self.new more
            × (self.new.over ≡ is_over more) }
    {
        self.take(rt);
        if self.over {
            return;
        }
        self.gather(rt);
    }

    /// Leaves out the records that the newest open image has, or makes a step of the log, if the
    /// gate lets it. It posts the answers of the ticks that became durable. If the log goes down,
    /// it loses each answer that waits.
    pub fn step<R: Wait>(&mut self, rt: &R)
        requires up { self.old.down ≡ false }
        ensures same { WritesOnly self.old self.new }
        ensures loads { LoadsOn self.old.covers self.new.covers }
        ensures word { self.new.reported_down.pair ≡ self.old.reported_down.pair }
        ensures covers { self.new.down ≡ false
            → (tick : ℕ) × (self.new.covers ≡ with_number self.old.covers tick)
            × (cover_answer self.old.log.keeper tick self.old.ring.items ≢ Idle
            → (self.new.log ≡ self.old.log)
            × (self.new.ring.items ≡ uncovered self.old.log.keeper tick self.old.ring.items)) }
        ensures acked { self.old.acked ≤ self.new.acked }
        ensures posts { self.new.down ≡ false
            → (tick : ℕ) × (self.new.covers ≡ with_number self.old.covers tick)
            × Acknowledges
            (receipt_of self.old.log.keeper tick self.old.ring.items self.new.log.keeper) self.old
            self.new }
        ensures lowers { self.new.down ≡ false → 0 < work_of self.old.log.keeper self.old.ring.items
            → work_of self.new.log.keeper self.new.ring.items
            < work_of self.old.log.keeper self.old.ring.items }
        ensures faults { LogReportsFaults D.faults self.old.log self.new.log }
        ensures asks { (self.new.log ≡ self.old.log) ⊎ MayGo G.answers Device }
        ensures calls { OneCalledAtMostOnce D.called self.old.log.a self.new.log.a
            self.old.log.b self.new.log.b }
        ensures cause { self.new.down ≡ true → (self.new.log.keeper.down ≡ true)
            ⊎ ((self.new.log ≡ self.old.log) × MayStick G.answers Device) }
        ensures lost { self.new.down ≡ true
            → (self.new.acked ≡ self.old.acked) × (self.new.answers ≡ refused self.old.answers) }
    {
        if !passes(rt, &mut self.gate, Place::Device) {
            self.fall(rt);
            return;
        }
        let tick = self.covers.latest();
        match advance(&mut self.log, &mut self.ring, tick) {
            LogAnswer::Down => self.fall(rt),
            LogAnswer::Acked(receipt) => {
                let holding = Holding {
                    opening: &self.opening,
                    from: &self.from,
                    covers: &self.covers,
                    log: &self.log,
                    ring: &self.ring,
                };
                self.answers.post_all(rt, receipt, &holding);
                self.acked = self.acked.max(receipt.tick());
            }
            LogAnswer::Idle | LogAnswer::Working => {}
        }
    }

    // Steps the log until nothing is left to do or it is down. An answer that still waits then has
    // no receipt, so it is lost too.
    fn write_all<R: Wait>(&mut self, rt: &R)
        requires up { self.old.down ≡ false }
        ensures same { WritesOnly self.old self.new }
        ensures loads { LoadsOn self.old.covers self.new.covers }
        ensures word { self.new.reported_down.pair ≡ self.old.reported_down.pair }
        ensures acked { self.old.acked ≤ self.new.acked }
        ensures faults { LogReportsFaults D.faults self.old.log self.new.log }
        ensures asks { (self.new.log ≡ self.old.log) ⊎ MayGo G.answers Device }
        ensures cause { self.new.down ≡ true → FallsBy (MayStick G.answers Device) self.new }
        ensures rest { IsAtRest self.new }
        ensures posted { self.new.down ≡ false → IsPosted self.new }
    {
        while !self.down && self.has_work() {
            self.step(rt);
        }
        if !self.down {
            self.settle(rt);
        }
    }

    /// True if a step is left to make, unless the log is down.
    pub fn has_work(&self) -> bool
        ensures { IsTrue result ↔ (0 < work_of self.now.log.keeper self.now.ring.items) }
    {
        self.log.keeper.has_work(&self.ring)
    }

    /// Ends the writing, for callers that have no step left to make. An answer that still waits has
    /// no receipt, so it is lost, and the log counts as down.
    pub fn settle<R: Wait>(&mut self, rt: &R)
        requires up { self.old.down ≡ false }
        ensures { Settles self.old self.new }
    {
        if !self.answers.is_empty() {
            self.fall(rt);
        }
    }

    /// Pops an item and keeps it, if there is one and room for it, without waiting. Once the log is
    /// down it pops an item and loses its answer. Returns true if it popped one.
    pub fn pop<R: Wait>(&mut self, rt: &R) -> bool
        requires goes_on { self.old.over ≡ false }
        ensures popped { result ≡ true → (item : Popped) × Pops self.old item self.new }
        ensures none { result ≡ false → self.new ≡ self.old }
    {
        if self.down {
            return self.answers.is_empty() && self.try_lose(rt);
        }
        if self.ring.len() >= QUEUE_RECORDS || self.answers.len() >= QUEUE_RECORDS {
            return false;
        }
        self.try_take(rt)
    }

    // Pops an item and loses its answer, if there is one: the log is down.
    fn try_lose<R: Wait>(&mut self, rt: &R) -> bool
        requires down { self.old.down ≡ true }
        requires goes_on { self.old.over ≡ false }
        requires none { self.old.answers.waiting ≡ [] }
        ensures lost { result ≡ true
            → (item : Popped) × Loses self.old item self.new × (self.new.over ≡ is_stop item) }
        ensures none { result ≡ false → self.new ≡ self.old }
    {
        match self.from.try_pop(rt) {
            Ok(item) => {
                self.over = lose(rt, &mut self.answers, item);
                true
            }
            Err(_) => false,
        }
    }

    // Waits for an item, pops it and loses its answer: the log is down.
    fn lose_next<R: Wait>(&mut self, rt: &R)
        requires down { self.old.down ≡ true }
        requires goes_on { self.old.over ≡ false }
        requires none { self.old.answers.waiting ≡ [] }
        ensures popped { (more : List Popped) × (self.new.from.items ≡ self.old.from.items ++ more)
            × (self.new.over ≡ is_over more) }
        ensures end { self.new.from.end ≡ self.old.from.end }
        ensures none { self.new.answers.waiting ≡ [] }
        ensures same { PopsOnly self.old self.new }
    {
        match self.from.pop(rt) {
            Ok(item) => self.over = lose(rt, &mut self.answers, item),
            Err(_) => self.over = true,
        }
    }

    /// Waits for an item, and pops it with those after it, as long as there is room. It writes them
    /// to the log, except those that an open image has, and answers the durable ticks. Once the log
    /// is down it pops an item and loses it.
    pub fn turn<R: Wait>(&mut self, rt: &R)
        requires goes_on { self.old.over ≡ false }
        requires rest { IsAtRest self.old }
        ensures rest { IsAtRest self.new }
        ensures popped { (more : List Popped) × (self.new.from.items ≡ self.old.from.items ++ more)
            × (self.new.over ≡ is_over more) }
        ensures same { (self.new.from.end ≡ self.old.from.end)
            × (self.new.opening ≡ self.old.opening) }
        ensures loads { LoadsOn self.old.covers self.new.covers }
        ensures word { self.new.reported_down.pair ≡ self.old.reported_down.pair }
        ensures down { self.old.down ≡ true → PopsOnly self.old self.new }
        ensures faults { LogReportsFaults D.faults self.old.log self.new.log }
        ensures asks { (self.new.log ≡ self.old.log) ⊎ MayGo G.answers Device }
        ensures cause { self.old.down ≡ false → self.new.down ≡ true
            → FallsBy (MayStick G.answers Device) self.new }
        ensures posted { self.new.down ≡ false → IsPosted self.new }
        ensures acked { self.old.acked ≤ self.new.acked }
    {
        if self.down {
            self.lose_next(rt);
            return;
        }
        self.fill(rt);
        self.write_all(rt);
    }
}
