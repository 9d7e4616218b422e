ghost use Rattle.std.specs.Prelude.{◌≡◌, IfOk, IfErr};
ghost use Rattle.world_core.specs.Repeating.{AreLeft};
ghost use Rattle.disk_model.specs.FourFiles.{value_of};

use crate::world_core::Core;
use capture_core::Capture;
use disk_model::{FourFiles, Leaving, ModelFile, WorldFile};
use world_actions::Refusal;

impl<C: Capture> Core<C> {
    /// The number of cells.
    pub fn cells(&self) -> u32
        ensures { result ≡ self.now.images.cells }
    {
        self.engine.in_order();
        self.engine.cells() as u32
    }

    /// One of the four files.
    pub fn file(&self, file: WorldFile) -> &ModelFile
        ensures { result.now ≡ (value_of file self.now.files).inner }
    {
        self.engine.files().get(file).inner()
    }

    /// Returns the bytes that such a crash leaves of the four files. Its only refusal
    /// is `NoMemory`.
    pub fn remains(&self, leaving: Leaving) -> Result<FourFiles<Vec<u8>>, Refusal>
        ensures left { IfOk result (AreLeft leaving self.now) }
        ensures memory { IfErr result (λ refusal. refusal ≡ Refusal.NoMemory) }
    {
        let files = self.engine.files();
        Ok(FourFiles {
            image_a: files.image_a.inner().left_by(self.alloc, leaving)?,
            image_b: files.image_b.inner().left_by(self.alloc, leaving)?,
            log_a: files.log_a.inner().left_by(self.alloc, leaving)?,
            log_b: files.log_b.inner().left_by(self.alloc, leaving)?,
        })
    }
}
