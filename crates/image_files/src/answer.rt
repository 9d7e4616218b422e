/// The result of a step.
#[derive(Clone, Copy, Debug, PartialEq, Eq)]
pub enum ImageAnswer {
    /// No round is in work.
    Idle,
    /// The round continues.
    Working,
    /// The image of this tick is durable, and the round has ended.
    Opened(u64),
    /// A call of a device failed, in this step or an earlier one.
    Down,
}
