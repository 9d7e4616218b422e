/// The requests of clients to a server.
#[derive(Clone, Copy, Debug, PartialEq, Eq)]
pub struct Load {
    /// How many connections there are at once, each with its own thread.
    pub connections: u32,
    /// How many sets a batch has.
    pub lines: u32,
    /// How many cells are set, from the first one on.
    pub cells: u32,
    /// After how many batches a connection ends, if it isn't the seconds that end it.
    pub batches: Option<u32>,
    /// After how many seconds no more batches are sent.
    pub seconds: u32,
}
