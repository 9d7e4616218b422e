use capture_core::Taken;
use std::alloc::{AllocError, AllocFailed};
use thiserror::Error;
use world_actions::Refusal;

/// The reason why a trial ended early.
#[derive(Clone, Copy, Debug, Error)]
pub enum Wrong {
    /// There is no memory left.
    #[error("{0}")]
    Refused(Refusal),
    /// A round is open in only one of two stores.
    #[error("move {0}: a round is open in only one of two stores")]
    OpenInOne(usize),
    /// A take didn't hand out the word that the plain copy did.
    #[error("move {0}: {1:?} was taken, where the plain copy has {2:?}")]
    OtherWord(usize, Option<Taken>, Option<Taken>),
    /// No round could be opened for too long.
    #[error("round {0} could not be opened")]
    NotOpened(u64),
    /// No round was found open for too long.
    #[error("round {0} was not found open")]
    NotFound(u64),
    /// A round had more or fewer cells than the store.
    #[error("round {0} has not as many cells as the store")]
    OtherCells(u64),
    /// The words that were taken are not those of the mark.
    #[error("round {0} differs")]
    Differs(usize),
    /// Both threads are done, and yet a round is open.
    #[error("a round is open at the end")]
    OpenAtEnd,
}

impl From<Refusal> for Wrong {
    fn from(refusal: Refusal) -> Self {
        Wrong::Refused(refusal)
    }
}

impl From<AllocError> for Wrong {
    fn from(_error: AllocError) -> Self {
        Wrong::Refused(Refusal::NoMemory)
    }
}

impl<T: Drop> From<AllocFailed<T>> for Wrong {
    fn from(_error: AllocFailed<T>) -> Self {
        Wrong::Refused(Refusal::NoMemory)
    }
}
