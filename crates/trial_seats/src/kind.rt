/// The things that a trial counts.
#[derive(Clone, Copy)]
pub enum Kind {
    WriteBetween,
    WriteWithin,
    WriteAgain,
    Mark,
    Word,
    Same,
    End,
}

/// How many kinds there are.
pub const KINDS: usize = 7;

/// All kinds in the order in which they are declared.
pub const NAMES: [&str; KINDS] = [
    "writes between rounds",
    "writes in a round",
    "writes of the cell written before",
    "marks",
    "takes of words",
    "takes of unchanged cells",
    "takes past the last cell",
];
