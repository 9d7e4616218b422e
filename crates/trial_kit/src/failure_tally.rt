use std::fmt;

/// How many files a world has. Each of them is made to fail.
pub const FAILING_FILES: u32 = 4;

/// Counts of runs in which a call was to fail. A call failed while the world was opened, or later
/// one of an image or of the log, or none did. A run is wrong if an answered tick was lost or
/// recovery found another world.
#[derive(Clone, Copy, Debug, PartialEq, Eq)]
pub struct FailureTally {
    pub opening: u32,
    pub images: u32,
    pub log: u32,
    pub none: u32,
    pub wrong: u32,
}

impl FailureTally {
    ghost use Rattle.std.specs.Prelude.{◌≡◌, ◌<◌, IsTrue};

    /// Counts that are all 0.
    pub fn new() -> Self {
        FailureTally {
            opening: 0,
            images: 0,
            log: 0,
            none: 0,
            wrong: 0,
        }
    }

    /// True if nothing was wrong, each file was tried until no call failed, and each kind came.
    pub fn passes(&self) -> bool
        ensures { IsTrue result
            → (self.now.wrong ≡ 0) × (self.now.none ≡ 4) × (0 < self.now.opening)
            × (0 < self.now.images) × (0 < self.now.log) }
    {
        let each_came = self.opening > 0 && self.images > 0 && self.log > 0;
        each_came && self.none == FAILING_FILES && self.wrong == 0
    }
}

impl fmt::Display for FailureTally {
    fn fmt<W: fmt::Write>(&self, f: &mut fmt::Formatter<W>) -> fmt::Result {
        write!(
            f,
            "{} calls failed in a start, {} of images and {} of the log under workers; {} wrong",
            self.opening, self.images, self.log, self.wrong
        )
    }
}
