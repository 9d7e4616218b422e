/// How a file reads, or what recovery finds, after a crash.
#[derive(Clone, Copy, Debug, PartialEq, Eq)]
pub enum Outcome {
    /// It has nothing.
    Closed,
    /// It has the state before.
    Before,
    /// It has the state that is being written.
    Whole,
    /// It has none of these.
    Wrong,
}
