ghost use Rattle.std.specs.Prelude.{◌≡◌, ◌↔◌, ◌<◌, IsTrue};
ghost use Rattle.image_files.specs.Progress.{left_of};
ghost use Rattle.action_log.specs.Progress.{work_of};
ghost use Rattle.engine.specs.Steps.{TakesImageStep, TakesLogStep};

use crate::engine::Engine;
use action_log::LogAnswer;
use capture_core::Capture;
use disk_model::Disk;
use image_files::ImageAnswer;

impl<C: Capture, D: Disk> Engine<C, D> {
    /// Makes a step of the image keeper.
    pub fn step_images(&mut self) -> ImageAnswer
        ensures steps { TakesImageStep D.Disk self.old result self.new }
    {
        self.images.step(
            &mut self.store,
            &mut self.files.image_a,
            &mut self.files.image_b,
        )
    }

    /// Makes a step of the log keeper.
    pub fn step_log(&mut self) -> LogAnswer
        ensures steps { TakesLogStep D.Disk self.old result self.new }
    {
        self.log.step(
            &mut self.queue,
            &mut self.files.log_a,
            &mut self.files.log_b,
        )
    }

    // The number of steps that the round in work can still need, 0 if it is down.
    pub(crate) fn images_left(&self) -> u64
        ensures { result ≡ left_of self.now.images }
    {
        self.images.left()
    }

    // True if the log has a step left to make.
    pub(crate) fn log_has_work(&self) -> bool
        ensures { IsTrue result ↔ (0 < work_of self.now.log self.now.queue) }
    {
        self.log.has_work(&self.queue)
    }
}
