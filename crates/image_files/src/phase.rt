/// The next step of a keeper.
#[derive(Clone, Copy, Debug, PartialEq, Eq)]
pub enum Phase {
    /// Nothing: no round is in work.
    Idle,
    /// Writes the target's closed gate.
    Closing,
    /// Makes the closed gate durable.
    ClosingSync,
    /// Writes the number of cells and the tick.
    Header,
    /// Takes a cell of the chunk.
    Taking,
    /// Reads the newest image's words for the chunk, which needs some of them.
    Reading,
    /// Writes the chunk.
    Writing,
    /// Makes header and words durable.
    BodySync,
    /// Writes the open gate.
    Opening,
    /// Makes the open gate durable.
    OpeningSync,
    /// Nothing: a call of a device failed.
    Down,
}
