use std::fmt;

/// Counts of power cuts and of the worlds that recovery found after them.
#[derive(Clone, Copy, Debug, PartialEq, Eq)]
pub struct CutTally {
    /// How many power cuts there were.
    pub cuts: u64,
    /// How many power cuts came while a file had bytes that weren't durable.
    pub uncertain: u64,
    /// After how many power cuts recovery found a tick that wasn't answered yet.
    pub kept_more: u64,
    /// How many worlds were built from image.a, and from image.b.
    pub from_a: u64,
    pub from_b: u64,
    /// After how many power cuts an answered tick was lost, or recovery found no
    /// world or a wrong one.
    pub wrong: u64,
}

impl CutTally {
    ghost use Rattle.std.specs.Prelude.{◌≡◌, ◌<◌, ◌≤◌, IsTrue};

    /// Counts that are all 0.
    pub fn new() -> Self {
        CutTally {
            cuts: 0,
            uncertain: 0,
            kept_more: 0,
            from_a: 0,
            from_b: 0,
            wrong: 0,
        }
    }

    /// True if nothing was wrong, there were at least `cuts` power cuts, and each kind came.
    pub fn passes(&self, cuts: u64) -> bool
        ensures { IsTrue result
            → (self.now.wrong ≡ 0) × (cuts ≤ self.now.cuts) × (0 < self.now.uncertain)
            × (0 < self.now.kept_more) × (0 < self.now.from_a) × (0 < self.now.from_b) }
    {
        let each_came = self.uncertain > 0
            && self.kept_more > 0
            && self.from_a > 0
            && self.from_b > 0;
        each_came && self.cuts >= cuts && self.wrong == 0
    }
}

impl fmt::Display for CutTally {
    fn fmt<W: fmt::Write>(&self, f: &mut fmt::Formatter<W>) -> fmt::Result {
        write!(
            f,
            "{} power cuts, {} in the midst of writes; {} kept a tick that wasn't answered yet; {} worlds from image.a, {} from image.b; {} wrong",
            self.cuts, self.uncertain, self.kept_more, self.from_a, self.from_b, self.wrong
        )
    }
}
