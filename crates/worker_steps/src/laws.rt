ghost use Rattle.worker_steps.specs.Stopped.{StopsAreSound};

use action_log::log_outcomes;
use batches::answers_are_ticks;
use capture_core::PlainCopy;
use disk_model::Disk;
use image_files::images_stay;
use recovery::{events_keep, law_of_recovery, whole_events_keep};
use world_ticks::actions_go_on;

/// Law: once the ends of a world's three workers have met, its four files are sound.
pub fn stops_are_sound<D: Disk>()
    ensures { StopsAreSound D.Disk }
{
    actions_go_on();
    answers_are_ticks();
    events_keep::<PlainCopy>();
    whole_events_keep();
    images_stay::<D>();
    log_outcomes::<D>();
    law_of_recovery::<D>();
}
