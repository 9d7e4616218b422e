use std::alloc::Global;
use std::fmt;
use trial_kit::{end_stretch, refuse_one};
use world_actions::Refusal;

/// A call that takes memory, with the values that it is made on.
pub trait Case: Sized + Drop {
    /// The name that is printed.
    fn name() -> &'static str;

    /// The refusal that it answers if an allocation is refused.
    fn refusal() -> Refusal;

    /// True if a refused allocation may lead to this refusal. `is_same` says if the
    /// values are as before.
    fn is_refused(refusal: Refusal, is_same: bool) -> bool {
        is_same && refusal == Self::refusal()
    }

    /// Makes the values for the call.
    fn set_up(alloc: Global) -> Result<Self, Refusal>;

    /// Makes the call, and returns a number for its answer.
    fn call(&mut self) -> Result<u64, Refusal>;

    /// A number for the values.
    fn seen(&mut self) -> u64;
}

/// How a call went, if one of its allocations may have been refused.
#[derive(Clone, Copy, Debug, PartialEq, Eq)]
pub enum Outcome {
    /// No allocation was refused.
    Answered,
    /// The call was refused with this, and its values were as they may be then. Made once more, it
    /// gave the right answer.
    Refused(Refusal),
    /// Something else.
    Wrong,
}

impl fmt::Display for Outcome {
    fn fmt<W: fmt::Write>(&self, f: &mut fmt::Formatter<W>) -> fmt::Result {
        match self {
            Outcome::Answered => f.write_str("answered"),
            Outcome::Refused(refusal) => {
                write!(f, "refused with {}, and answered then", refusal.code())
            }
            Outcome::Wrong => f.write_str("wrong"),
        }
    }
}

/// Makes a call while one of its allocations may be refused, and once more if it was.
pub fn try_case<X: Case>(alloc: Global) -> Result<Outcome, Refusal> {
    let mut ample = X::set_up(alloc)?;
    let wanted = ample.call()?;
    let mut case = X::set_up(alloc)?;
    let before = case.seen();
    refuse_one(alloc);
    let first = case.call();
    end_stretch(alloc);
    let (outcome, answer) = match first {
        Ok(answer) => (Outcome::Answered, answer),
        Err(refusal) if X::is_refused(refusal, case.seen() == before) => {
            (Outcome::Refused(refusal), case.call()?)
        }
        Err(_) => return Ok(Outcome::Wrong),
    };
    if answer == wanted && case.seen() == ample.seen() {
        Ok(outcome)
    } else {
        Ok(Outcome::Wrong)
    }
}

/// A number for some words.
pub fn digest(words: &[u64]) -> u64 {
    let mut sum = 0_u64;
    for word in words {
        sum = folded(sum, *word);
    }
    sum
}

/// A number for some bytes.
pub fn digest_of_bytes(bytes: &[u8]) -> u64 {
    let mut sum = 0_u64;
    for byte in bytes {
        sum = folded(sum, u64::from(*byte));
    }
    sum
}

/// Combines a number with one more.
pub fn folded(sum: u64, more: u64) -> u64 {
    sum.wrapping_mul(6_364_136_223_846_793_005)
        .wrapping_add(more)
        .wrapping_add(1)
}
