ghost use Rattle.std.specs.Prelude.{◌≡◌};
ghost use Rattle.disk_model.specs.FourFiles.{name_of};

/// One of the four files of a world.
#[derive(Clone, Copy, Debug, PartialEq, Eq)]
pub enum WorldFile {
    ImageA,
    ImageB,
    LogA,
    LogB,
}

/// The names of the files in a folder.
pub const IMAGE_A: &str = "image.a";

pub const IMAGE_B: &str = "image.b";

pub const LOG_A: &str = "log.a";

pub const LOG_B: &str = "log.b";

impl WorldFile {
    /// Its name in a folder.
    pub fn name(self) -> &'static str
        ensures { result.now ≡ name_of self }
    {
        match self {
            WorldFile::ImageA => IMAGE_A,
            WorldFile::ImageB => IMAGE_B,
            WorldFile::LogA => LOG_A,
            WorldFile::LogB => LOG_B,
        }
    }
}
