ghost use Rattle.std.specs.Prelude.{◌≡◌};
ghost use Rattle.engine.specs.Fuses.{armed, images_armed, log_armed};

use crate::engine::Engine;
use capture_core::Capture;
use disk_model::{Disk, Fused};

impl<C: Capture, D: Disk> Engine<C, Fused<D>> {
    /// Makes the next call of each image file fail, or lets each call pass.
    pub fn arm_images(&mut self, fails: bool)
        ensures { self.new ≡ images_armed fails self.old }
    {
        arm(&mut self.files.image_a, fails);
        arm(&mut self.files.image_b, fails);
    }

    /// Makes the next call of each log file fail, or lets each call pass.
    pub fn arm_log(&mut self, fails: bool)
        ensures { self.new ≡ log_armed fails self.old }
    {
        arm(&mut self.files.log_a, fails);
        arm(&mut self.files.log_b, fails);
    }
}

fn arm<D>(file: &mut Fused<D>, fails: bool)
    ensures { file.new ≡ armed fails file.old }
{
    if fails {
        file.arm(1);
    } else {
        file.disarm();
    }
}
