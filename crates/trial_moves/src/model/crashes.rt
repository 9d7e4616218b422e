use crate::image_model::ImageModel;
use crate::log_model::LogModel;
use crate::model::PlainModel;
use crate::wrong::{Rule, Wrong, hold};
use plain_moves::PlainAnswer;

impl PlainModel {
    pub fn follow_crash(&mut self, given: PlainAnswer) -> Result<(), Wrong> {
        match given {
            PlainAnswer::Recovered { tick, from } => self.recover(tick, from),
            PlainAnswer::Blank => {
                hold(self.images.newest().is_none(), Rule::Recovers)?;
                self.begin(0, None)
            }
            _ => hold(false, Rule::Recovers),
        }
    }

    fn recover(&mut self, tick: u64, from: u64) -> Result<(), Wrong> {
        hold(tick >= self.log.acknowledged(), Rule::KeepsAcknowledged)?;
        hold(tick <= self.ended(), Rule::KeepsEnded)?;
        let is_known = self.images.newest() == Some(from) || self.images.round() == Some(from);
        hold(from <= tick && is_known, Rule::FromKnownImage)?;
        self.begin(tick, Some(from))
    }

    // Begins the start at this tick. `newest` is the tick of the newest image, if there is one.
    fn begin(&mut self, tick: u64, newest: Option<u64>) -> Result<(), Wrong> {
        let Some(world) = self.worlds.get(tick as usize) else {
            return hold(false, Rule::KeepsEnded);
        };
        self.live = world.copy(self.alloc)?;
        self.worlds.truncate((tick as usize).saturating_add(1));
        self.running = 0;
        self.since = 0;
        self.images = ImageModel::new(self.cells, newest, tick);
        self.log = LogModel::new(self.alloc, tick);
        Ok(())
    }
}
