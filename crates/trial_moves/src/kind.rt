use plain_moves::{Asked, PlainAnswer};
use world_actions::Refusal;

/// The kinds of answers that can come. NoMemory would need a refused allocation, and TicksEnded
/// more ticks than can be played. The core gives none of the other refusals that aren't here. A
/// cover isn't answered Working, because between two switches a tick has ended.
#[derive(Clone, Copy)]
pub enum Kind {
    Did,
    Word,
    Ended,
    Started,
    ImageIdle,
    ImageWorking,
    ImageOpened,
    ImageDown,
    LogIdle,
    LogWorking,
    LogAcked,
    LogDown,
    CoverIdle,
    CoverAcked,
    RecoveredReplayed,
    RecoveredAtImage,
    Blank,
    BadCell,
    BadValue,
    OutOfRange,
    SameCell,
    TickFull,
    SegmentFull,
    QueueFull,
    OpenTick,
    Busy,
    NothingNew,
    MarkImageDown,
    MarkLogDown,
    Starting,
    Impossible,
    CoverLogDown,
    CoverStarting,
    Uncovered,
}

/// How many kinds there are.
pub const KINDS: usize = 34;

/// All kinds, each with its name, in the order in which they are declared.
pub const NAMES: [&str; KINDS] = [
    "Did",
    "Word",
    "Ended",
    "Started",
    "Image(Idle)",
    "Image(Working)",
    "Image(Opened)",
    "Image(Down)",
    "Log(Idle)",
    "Log(Working)",
    "Log(Acked)",
    "Log(Down)",
    "Cover: Log(Idle)",
    "Cover: Log(Acked)",
    "Recovered, from < tick",
    "Recovered, from = tick",
    "Blank",
    "Refused(BadCell)",
    "Refused(BadValue)",
    "Refused(OutOfRange)",
    "Refused(SameCell)",
    "Refused(TickFull)",
    "Refused(SegmentFull)",
    "Refused(QueueFull)",
    "Refused(OpenTick)",
    "Refused(Busy)",
    "Refused(NothingNew)",
    "Refused(ImageDown)",
    "Refused(LogDown)",
    "Refused(Starting)",
    "Refused(Impossible)",
    "Cover: Refused(LogDown)",
    "Cover: Refused(Starting)",
    "Cover: Refused(Uncovered)",
];

/// The kind of an answer to a move, if it can come.
pub fn kind_of(asked: Asked, given: PlainAnswer) -> Option<Kind> {
    match asked {
        Asked::Cover(_) => kind_of_cover(given),
        _ => kind_of_other(given),
    }
}

fn kind_of_cover(given: PlainAnswer) -> Option<Kind> {
    match given {
        PlainAnswer::LogIdle => Some(Kind::CoverIdle),
        PlainAnswer::LogAcked(_) => Some(Kind::CoverAcked),
        PlainAnswer::Refused(Refusal::LogDown) => Some(Kind::CoverLogDown),
        PlainAnswer::Refused(Refusal::Starting) => Some(Kind::CoverStarting),
        PlainAnswer::Refused(Refusal::Uncovered) => Some(Kind::Uncovered),
        _ => None,
    }
}

fn kind_of_other(given: PlainAnswer) -> Option<Kind> {
    match given {
        PlainAnswer::Did => Some(Kind::Did),
        PlainAnswer::Word(_) => Some(Kind::Word),
        PlainAnswer::Ended(_) => Some(Kind::Ended),
        PlainAnswer::Started(_) => Some(Kind::Started),
        PlainAnswer::ImageIdle => Some(Kind::ImageIdle),
        PlainAnswer::ImageWorking => Some(Kind::ImageWorking),
        PlainAnswer::ImageOpened(_) => Some(Kind::ImageOpened),
        PlainAnswer::ImageDown => Some(Kind::ImageDown),
        PlainAnswer::LogIdle => Some(Kind::LogIdle),
        PlainAnswer::LogWorking => Some(Kind::LogWorking),
        PlainAnswer::LogAcked(_) => Some(Kind::LogAcked),
        PlainAnswer::LogDown => Some(Kind::LogDown),
        PlainAnswer::Recovered { tick, from } if from < tick => Some(Kind::RecoveredReplayed),
        PlainAnswer::Recovered { .. } => Some(Kind::RecoveredAtImage),
        PlainAnswer::Blank => Some(Kind::Blank),
        PlainAnswer::Refused(refusal) => kind_of_refusal(refusal),
    }
}

fn kind_of_refusal(refusal: Refusal) -> Option<Kind> {
    match refusal {
        Refusal::BadCell => Some(Kind::BadCell),
        Refusal::BadValue => Some(Kind::BadValue),
        Refusal::OutOfRange => Some(Kind::OutOfRange),
        Refusal::SameCell => Some(Kind::SameCell),
        Refusal::TickFull => Some(Kind::TickFull),
        Refusal::SegmentFull => Some(Kind::SegmentFull),
        Refusal::QueueFull => Some(Kind::QueueFull),
        Refusal::OpenTick => Some(Kind::OpenTick),
        Refusal::Busy => Some(Kind::Busy),
        Refusal::NothingNew => Some(Kind::NothingNew),
        Refusal::ImageDown => Some(Kind::MarkImageDown),
        Refusal::LogDown => Some(Kind::MarkLogDown),
        Refusal::Starting => Some(Kind::Starting),
        Refusal::Impossible => Some(Kind::Impossible),
        _ => None,
    }
}
