ghost use Rattle.std.specs.Prelude.{◌≡◌};
ghost use Rattle.plain_moves.specs.Plain.{reported_of};

use action_log::LogAnswer;
use image_files::ImageAnswer;
use world_actions::Refusal;
use world_core::Answer;

/// An answer as the model sees it.
#[derive(Clone, Copy, Debug, PartialEq, Eq)]
pub enum PlainAnswer {
    /// The action was accepted.
    Did,
    /// The word of a cell.
    Word(u64),
    /// The running tick has ended, with this number.
    Ended(u64),
    /// A round of this tick is open.
    Started(u64),
    /// The images have nothing to do.
    ImageIdle,
    /// The images did a step.
    ImageWorking,
    /// The image of this tick is open.
    ImageOpened(u64),
    /// The images are down.
    ImageDown,
    /// The log has nothing to do.
    LogIdle,
    /// The log did a step.
    LogWorking,
    /// All ticks up to this one are acknowledged.
    LogAcked(u64),
    /// The log is down.
    LogDown,
    /// Recovery built the world after `tick`, from the image of the tick `from`.
    Recovered { tick: u64, from: u64 },
    /// Recovery found no image.
    Blank,
    /// The move was refused.
    Refused(Refusal),
}

impl PlainAnswer {
    /// Turns an answer into a plain value.
    pub fn of(given: Answer) -> Self
        ensures { result ≡ reported_of given }
    {
        match given {
            Answer::Did => PlainAnswer::Did,
            Answer::Word(word) => PlainAnswer::Word(word),
            Answer::Ended(tick) => PlainAnswer::Ended(tick),
            Answer::Started(tick) => PlainAnswer::Started(tick),
            Answer::Image(given) => PlainAnswer::of_image(given),
            Answer::Log(given) => PlainAnswer::of_log(given),
            Answer::Recovered { tick, from } => PlainAnswer::Recovered { tick, from },
            Answer::Blank => PlainAnswer::Blank,
            Answer::Refused(refusal) => PlainAnswer::Refused(refusal),
        }
    }

    fn of_image(given: ImageAnswer) -> Self
        ensures { result ≡ reported_of (Answer.Image given) }
    {
        match given {
            ImageAnswer::Idle => PlainAnswer::ImageIdle,
            ImageAnswer::Working => PlainAnswer::ImageWorking,
            ImageAnswer::Opened(tick) => PlainAnswer::ImageOpened(tick),
            ImageAnswer::Down => PlainAnswer::ImageDown,
        }
    }

    fn of_log(given: LogAnswer) -> Self
        ensures { result ≡ reported_of (Answer.Log given) }
    {
        match given {
            LogAnswer::Idle => PlainAnswer::LogIdle,
            LogAnswer::Working => PlainAnswer::LogWorking,
            LogAnswer::Acked(receipt) => PlainAnswer::LogAcked(receipt.tick()),
            LogAnswer::Down => PlainAnswer::LogDown,
        }
    }
}
