use crate::model::PlainModel;
use crate::wrong::{Wrong, expect};
use plain_moves::PlainAnswer;
use world_actions::{Action, Refusal};

/// The most actions of a tick.
const ACTIONS: u32 = 256;

/// The most ticks that end between two marks.
const TICKS: u32 = 65_536;

impl PlainModel {
    pub fn follow_act(&mut self, action: Action, given: PlainAnswer) -> Result<(), Wrong> {
        let wanted = match self.act(action) {
            Ok(()) => PlainAnswer::Did,
            Err(refusal) => PlainAnswer::Refused(refusal),
        };
        expect(wanted, given)
    }

    pub fn follow_get(&mut self, cell: u32, given: PlainAnswer) -> Result<(), Wrong> {
        let wanted = match self.live.get(cell) {
            Ok(word) => PlainAnswer::Word(word),
            Err(refusal) => PlainAnswer::Refused(refusal),
        };
        expect(wanted, given)
    }

    pub fn follow_end(&mut self, given: PlainAnswer) -> Result<(), Wrong> {
        if let Some(refusal) = self.end_refusal() {
            return expect(PlainAnswer::Refused(refusal), given);
        }
        self.worlds.push(self.live.copy(self.alloc)?)?;
        self.running = 0;
        self.since = self.since.saturating_add(1);
        self.log.queue_tick()?;
        expect(PlainAnswer::Ended(self.ended()), given)
    }

    pub fn follow_mark(&mut self, given: PlainAnswer) -> Result<(), Wrong> {
        if let Some(refusal) = self.mark_refusal() {
            return expect(PlainAnswer::Refused(refusal), given);
        }
        let ended = self.ended();
        self.images.begin(ended);
        self.since = 0;
        self.log.queue_switch(ended)?;
        expect(PlainAnswer::Started(ended), given)
    }

    pub fn follow_cover(&mut self, tick: u64, given: PlainAnswer) -> Result<(), Wrong> {
        match self.cover_refusal(tick) {
            Some(refusal) => expect(PlainAnswer::Refused(refusal), given),
            None => self.log.cover(tick, given),
        }
    }

    fn act(&mut self, action: Action) -> Result<(), Refusal> {
        if let Some(refusal) = self.tick_refusal() {
            return Err(refusal);
        }
        if self.running >= ACTIONS {
            return Err(Refusal::TickFull);
        }
        self.live.act(action)?;
        self.running = self.running.saturating_add(1);
        Ok(())
    }

    // The reason why the tick gets no action and can't end, if there is one.
    fn tick_refusal(&self) -> Option<Refusal> {
        if self.is_starting() {
            Some(Refusal::Starting)
        } else if self.log.is_down() {
            Some(Refusal::LogDown)
        } else if self.since >= TICKS {
            Some(Refusal::SegmentFull)
        } else {
            None
        }
    }

    fn end_refusal(&self) -> Option<Refusal> {
        match self.tick_refusal() {
            None if self.log.is_full() => Some(Refusal::QueueFull),
            refusal => refusal,
        }
    }

    fn cover_refusal(&self, tick: u64) -> Option<Refusal> {
        if self.is_starting() {
            Some(Refusal::Starting)
        } else if self.log.is_down() {
            Some(Refusal::LogDown)
        } else if tick > self.newest() {
            Some(Refusal::Uncovered)
        } else {
            None
        }
    }

    fn mark_refusal(&self) -> Option<Refusal> {
        if self.is_starting() {
            Some(Refusal::Starting)
        } else if self.log.is_down() {
            Some(Refusal::LogDown)
        } else if self.images.is_down() {
            Some(Refusal::ImageDown)
        } else if self.running > 0 {
            Some(Refusal::OpenTick)
        } else if self.images.round().is_some() {
            Some(Refusal::Busy)
        } else if self.images.newest() == Some(self.ended()) {
            Some(Refusal::NothingNew)
        } else if self.log.is_full() {
            Some(Refusal::QueueFull)
        } else {
            None
        }
    }
}
