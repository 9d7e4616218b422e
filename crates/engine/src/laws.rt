ghost use Rattle.std.specs.Prelude.{◌≡◌, ℕ, List, false};
ghost use Rattle.world_actions.specs.declared.action.Action.{Action};
ghost use Rattle.engine.specs.World.{World};
ghost use Rattle.engine.specs.Follows.{Follows, AreSound};
ghost use Rattle.engine.specs.Runs.{HasNewest};
ghost use Rattle.engine.specs.Laws.{EventLaws, KeeperLaws};

use action_log::log_outcomes;
use capture_core::PlainCopy;
use disk_model::Disk;
use image_files::images_stay;
use recovery::events_keep;
use restart::{worlds_are_safe, worlds_go_on};
use world_ticks::actions_go_on;

/// Laws: the files of a world that follows its ticks are sound for them and the acknowledged count,
/// once there is an image. After a start there is an image.
pub fn followed_files_are_sound<D: Disk>()
    ensures begun { (world : World D) (first : List ℕ)
        (ticks : List (List Action)) (acknowledged : ℕ) → HasNewest world.images
        → Follows D.Disk world first ticks acknowledged
        → AreSound D.Disk world.files first ticks acknowledged }
    ensures started { (world : World D) (first : List ℕ)
        (ticks : List (List Action)) (acknowledged : ℕ) → world.log.starting ≡ false
        → Follows D.Disk world first ticks acknowledged
        → AreSound D.Disk world.files first ticks acknowledged }
{
    keeper_laws::<D>();
}

/// Laws: store, images, log and queue stay in step with the ticks, event by event. They are the
/// same for every kind of store, so the plain copy represents any.
pub fn event_laws()
    ensures { EventLaws }
{
    actions_go_on();
    events_keep::<PlainCopy>();
    worlds_go_on();
}

/// Laws: the keepers with their files represent images and a log. Whatever a crash leaves of the
/// files holds these.
pub fn keeper_laws<D: Disk>()
    ensures { KeeperLaws D.Disk }
{
    images_stay::<D>();
    log_outcomes::<D>();
    worlds_are_safe::<D>();
}
