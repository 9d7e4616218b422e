ghost use Rattle.std.specs.Prelude.{ℕ, List, length};
ghost use Rattle.world_actions.specs.declared.action.Action.{Action};
ghost use Rattle.capture_core.specs.Content.{Content};
ghost use Rattle.image_files.specs.Images.{ImageFiles, ImageFilesAre};
ghost use Rattle.action_log.specs.declared.record.Record.{Record};
ghost use Rattle.action_log.specs.Logs.{Journal, JournalIs};
ghost use Rattle.restart.specs.InStep.{InStep, WorldsGoOn, IsSafe};

use crate::following::stores_follow;
use capture_core::PlainCopy;
use disk_model::Disk;
use recovery::{events_keep, law_of_first_start, law_of_recovery, law_of_start, start_events_keep};
use world_ticks::actions_go_on;

/// Laws: a start begins in step with the ticks that it keeps. Store, images, log and queue stay in
/// step, event by event. A round with nothing left is whole.
pub fn worlds_go_on()
    ensures { WorldsGoOn }
{
    actions_go_on();
    events_keep::<PlainCopy>();
    start_events_keep::<PlainCopy>();
    stores_follow();
}

/// Law on the files of a world in step with its ticks. Whatever a crash leaves of them,
/// recovery gives the world after the first n ticks, and n is at least the acknowledged count.
/// Each open image is the world after its tick. Before there is an image, the files are those
/// of a fresh world.
pub fn worlds_are_safe<D: Disk>()
    ensures { (image_a image_b log_a log_b : D) (first : List ℕ)
        (ticks : List (List Action)) (acknowledged : ℕ)
        (content : Content) (images : ImageFiles) (journal : Journal) (queue : List Record)
        → InStep first ticks acknowledged content images journal queue
        → ImageFilesAre (length first) images (D.may_leave image_a) (D.may_leave image_b)
        → JournalIs journal (D.may_leave log_a) (D.may_leave log_b)
        → IsSafe images (D.may_leave image_a) (D.may_leave image_b)
        (D.may_leave log_a) (D.may_leave log_b)
        first ticks acknowledged }
{
    law_of_recovery::<D>();
    law_of_start::<D>();
    law_of_first_start::<D>();
}
