ghost use Rattle.world_core.specs.Past.{Past};
ghost use Rattle.world_core.specs.Facts.{IsCoreAt};
ghost use Rattle.world_core.specs.Repeating.{RepeatsImages, RepeatsLog, RunsStart, ImagesSettled};
ghost use Rattle.world_core.specs.Repeating.{LogSettled, StartSettled};

use crate::moves::Fate;
use crate::world_core::Core;
use action_log::LogAnswer;
use capture_core::Capture;
use image_files::ImageAnswer;

impl<C: Capture> Core<C> {
    /// Steps the image keeper until it is idle or down. Returns `Down`, or else the last image that
    /// was opened, or `Idle` if none was.
    pub fn run_images(&mut self, fate: Fate) -> ImageAnswer
        ensures repeats { (past : Past) → IsCoreAt past self.old
            → (next : Past) × RepeatsImages fate past self.old result next self.new
            × ImagesSettled next.standing }
    {
        let mut reported = ImageAnswer::Idle;
        loop {
            let given = self.image(fate);
            match given {
                ImageAnswer::Idle => return reported,
                ImageAnswer::Working => {}
                ImageAnswer::Opened(_) => reported = given,
                ImageAnswer::Down => return given,
            }
        }
    }

    /// Steps the log keeper until it is idle or down. Returns `Down`, or else the last receipt, or
    /// `Idle` if there was none.
    pub fn run_log(&mut self, fate: Fate) -> LogAnswer
        ensures repeats { (past : Past) → IsCoreAt past self.old
            → (next : Past) × RepeatsLog fate past self.old result next self.new
            × LogSettled next.standing self.new }
    {
        let mut reported = LogAnswer::Idle;
        loop {
            let given = self.log(fate);
            match given {
                LogAnswer::Idle => return reported,
                LogAnswer::Working => {}
                LogAnswer::Acked(_) => reported = given,
                LogAnswer::Down => return given,
            }
        }
    }

    /// Runs the start to its end, or until a keeper is down.
    pub fn run_start(&mut self)
        ensures starts { (past : Past) → IsCoreAt past self.old
            → (next : Past) × RunsStart past self.old next self.new × StartSettled next.standing }
    {
        self.run_images(Fate::Done);
        self.run_log(Fate::Done);
    }
}
