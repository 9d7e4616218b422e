//! A round from its first step to its last.
ghost use Rattle.std.specs.Prelude.{◌≡◌, ◌<◌, IsTrue};
ghost use Rattle.disk_model.specs.Disk.{OneCalledAtMostOnce};
ghost use Rattle.image_files.specs.declared.phase.Phase.TheVariants.{Taking};
ghost use Rattle.image_files.specs.Progress.{left_of};
ghost use Rattle.workers.specs.declared.checkpointer.round.ImageWriter.{ImageWriter as Writer};
ghost use Rattle.workers.specs.Imaging.{AreInStep, FollowsRounds, Publishes, RoundRuns};
ghost use Rattle.workers.specs.Imaging.{ReportsFaults, WriterFits};
ghost use Rattle.workers.specs.Publishing.{IsNext};

use crate::checkpointer::publisher::Publisher;
use disk_model::Disk;
use image_files::{ImageAnswer, ImageKeeper};
use shared_capture::{Back, Method};

/// The keeper of the images, and its two files.
#[derive(Drop)]
pub struct ImageWriter<D: Disk> {
    pub keeper: ImageKeeper,
    pub image_a: D,
    pub image_b: D,
}

// Makes a step of the round in work. If the step opens the image, its tick is published and the
// back ends the round.
pub(crate) fn step<M: Method, D: Disk>(
    back: &mut Back<M>,
    covers: &mut Publisher,
    images: &mut ImageWriter<D>,
    tick: u64,
)
    requires step { AreInStep images.old.keeper back.old }
    requires next { IsNext covers.old tick }
    requires fits { IsTrue D.honest → WriterFits D.Disk images.old }
    requires left { 0 < left_of images.old.keeper }
    ensures step { AreInStep images.new.keeper back.new }
    ensures fits { IsTrue D.honest → WriterFits D.Disk images.new }
    ensures faults { ReportsFaults D.faults images.old images.new }
    ensures less { left_of images.new.keeper < left_of images.old.keeper }
    ensures calls { OneCalledAtMostOnce D.called images.old.image_a images.new.image_a
        images.old.image_b images.new.image_b }
    ensures takes { images.old.keeper.phase ≡ Taking
        → (images.new.image_a ≡ images.old.image_a) × (images.new.image_b ≡ images.old.image_b) }
    ensures runs { RoundRuns back.old images.new.keeper back.new }
    ensures publishes { Publishes tick images.new.keeper covers.old covers.new }
    ensures follows { (opening : Writer D)
        → FollowsRounds D.Disk opening images.old back.old
        → FollowsRounds D.Disk opening images.new back.new }
{
    let ImageAnswer::Opened(_) = images
        .keeper
        .step(back, &mut images.image_a, &mut images.image_b)
    else {
        return;
    };
    covers.publish(back, tick);
    back.finish();
}
