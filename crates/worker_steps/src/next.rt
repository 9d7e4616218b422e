/// The next step of a running world.
#[derive(Drop)]
pub enum Next {
    /// The mutator takes the next batch, if there is one. It runs it, and owes its tick.
    Play,
    /// The mutator opens a round, if one is due, and owes its switch.
    Mark,
    /// The mutator pushes the item that it owes. A server's mutator does this before it
    /// does anything else.
    Push,
    /// The mutator reports that no more comes.
    Stop,
    /// The log writer pops an item, if there is one and room for it.
    Pop,
    /// The log writer makes a step of the log. If none is left to make, it refuses the answers that
    /// can't be posted.
    Log,
    /// The checkpointer looks for a round and begins its image, or makes a step of
    /// the round in work.
    Image,
}
