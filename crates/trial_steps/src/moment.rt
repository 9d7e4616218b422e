use crate::tally::{Kind, Tally};
use crate::world::World;
use shared_capture::Method;

/// The state of the workers between two steps.
#[derive(Clone, Copy)]
pub struct Moment {
    // The tick of the newest image.
    image: Option<u64>,
    log_calls: u64,
    has_work: bool,
    // True if the checkpointer or the log writer makes no more steps, though no call of
    // its files failed.
    images_stuck: bool,
    log_stuck: bool,
    log_down: bool,
}

impl Moment {
    /// The state of the workers now.
    pub fn of<M: Method>(world: &World<M>) -> Self {
        Moment {
            image: world.newest(),
            log_calls: world.stand().log_calls(),
            has_work: world.log_writer().has_work(),
            images_stuck: images_stuck(world),
            log_stuck: log_stuck(world),
            log_down: world.log_writer().is_down(),
        }
    }

    /// Counts the things that a step led to. `self` is the state before it.
    pub fn report(&self, step: Kind, after: &Moment, tally: &mut Tally) {
        tally.count_if(self.image != after.image, Kind::ImageOpened);
        tally.count_if(
            !self.images_stuck && after.images_stuck,
            Kind::CheckpointerStuck,
        );
        tally.count_if(!self.log_stuck && after.log_stuck, Kind::LogWriterStuck);
        // A step that has work and makes no call on the log's files leaves out records
        // that an image has.
        let covers = self.has_work && self.log_calls == after.log_calls && !after.log_down;
        tally.count_if(step == Kind::Log && covers, Kind::Covered);
    }
}

fn images_stuck<M: Method>(world: &World<M>) -> bool {
    let checkpointer = world.checkpointer();
    checkpointer.is_over() && !checkpointer.is_down()
}

fn log_stuck<M: Method>(world: &World<M>) -> bool {
    let log_writer = world.log_writer();
    log_writer.is_down() && !log_writer.log().keeper.is_down()
}
