//! The items that go from the mutator to the log writer.
use crate::post::Waiting;
use world_ticks::Tick;

/// A tick that ended, and the answer of its batch.
#[derive(Drop)]
pub struct Ended {
    pub tick: Tick,
    pub answer: Waiting,
}

#[derive(Drop)]
pub enum Item {
    /// The first item: the log begins after the tick of this number.
    Start(u64),
    /// A tick ended.
    Tick(Ended),
    /// A round was opened at the end of the tick of this number.
    Switch(u64),
    /// There are no more.
    Stop,
}

/// The item that a mutator pushes next, for what its front did last.
#[derive(Drop)]
pub enum Owed {
    Tick(Ended),
    Switch(u64),
}

/// The knowledge of an end of the channel. No value of this type is made, and a clause reads an
/// array as a list of any length.
pub enum View {
    Spent,
    Pushes([Item; 0]),
    Pops([Item; 0]),
    Both([Item; 0], [Item; 0]),
}
