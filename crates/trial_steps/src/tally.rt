use trial_kit::Counts;
use world_actions::Refusal;

/// The things that can come. A refused push is none of them, because the end that pops is never
/// dropped here. Neither is a lack of memory, which ends the trial.
#[derive(Clone, Copy, PartialEq, Eq)]
pub enum Kind {
    Play,
    Mark,
    Push,
    End,
    Pop,
    Log,
    Image,
    Posted,
    BadCell,
    BadValue,
    OutOfRange,
    SameCell,
    TickFull,
    BadLine,
    LogIsDown,
    LogWentDown,
    SegmentFull,
    TicksEnded,
    ImageOpened,
    Covered,
    ImageAFailed,
    ImageBFailed,
    LogAFailed,
    LogBFailed,
    OpeningFailed,
    MutatorStuck,
    CheckpointerStuck,
    LogWriterStuck,
    FromImageA,
    FromImageB,
    Replayed,
    KeptMore,
    MutatorCut,
    CheckpointerCut,
    LogWriterCut,
}

const KINDS: usize = 35;

/// The kinds in the order in which they are declared.
const NAMES: [&str; KINDS] = [
    "steps: a batch is played",
    "steps: a round is marked, if one is due",
    "steps: what is owed is pushed",
    "steps: the play ends",
    "steps: an item is popped",
    "steps: the log continues",
    "steps: the image continues",
    "answers: posted",
    "answers: no such cell (1)",
    "answers: a bad value (2)",
    "answers: out of range (3)",
    "answers: one cell twice (4)",
    "answers: a full tick (5)",
    "answers: a bad line (16)",
    "refused: the log is down (12)",
    "refused: the log went down under a tick (12)",
    "refused: a full segment (6)",
    "refused: the last tick has ended (21)",
    "images opened",
    "covers: what an open image has isn't logged",
    "failed: image.a",
    "failed: image.b",
    "failed: log.a",
    "failed: log.b",
    "failed: the opening",
    "stuck: the mutator",
    "stuck: the checkpointer",
    "stuck: the log writer",
    "recovered from image.a",
    "recovered from image.b",
    "recovered with ticks of the log",
    "recovered more than was acknowledged",
    "cut: the mutator",
    "cut: the checkpointer",
    "cut: the log writer",
];

/// A rule that has to hold.
#[derive(Clone, Copy)]
pub enum Rule {
    /// Whatever a crash leaves is recovered.
    IsRecovered,
    /// The recovered tick is acknowledged or later, and was pushed.
    KeepsAcknowledged,
    /// The recovered words are those of the model.
    HasWords,
    /// A world is opened at the tick that was recovered.
    OpensThere,
    /// A post is of the session's own ask, of its tick, and with its text.
    AnswersAsk,
    /// A post is of an acknowledged tick.
    PostsAcknowledged,
    /// A batch that isn't run has an answer, which says why.
    Refuses,
    /// As many ticks have ended as the model has.
    Counts,
}

const RULES: usize = 8;

const RULE_NAMES: [&str; RULES] = [
    "nothing is recovered",
    "an acknowledged tick is lost, or one stands that wasn't pushed",
    "other words stand",
    "a world is opened at another tick",
    "a post answers something else",
    "a post is of a tick that isn't acknowledged",
    "a refusal isn't reported, or has no cause",
    "another number of ticks has ended",
];

/// How often each kind came, and how often each rule was broken.
#[derive(Drop)]
pub struct Tally {
    came: Counts<KINDS>,
    broken: Counts<RULES>,
}

impl Tally {
    /// Counts that are all 0.
    pub fn new() -> Self {
        Tally {
            came: Counts::new(),
            broken: Counts::new(),
        }
    }

    /// Counts a kind.
    pub fn count(&mut self, kind: Kind) {
        self.came.count(kind as usize);
    }

    /// Counts a kind if it came.
    pub fn count_if(&mut self, came: bool, kind: Kind) {
        if came {
            self.count(kind);
        }
    }

    /// Counts the refusal of an action, a read or a line in an answer.
    pub fn count_refusal(&mut self, refusal: Refusal) {
        match refusal {
            Refusal::BadCell => self.count(Kind::BadCell),
            Refusal::BadValue => self.count(Kind::BadValue),
            Refusal::OutOfRange => self.count(Kind::OutOfRange),
            Refusal::SameCell => self.count(Kind::SameCell),
            Refusal::TickFull => self.count(Kind::TickFull),
            Refusal::BadLine => self.count(Kind::BadLine),
            _ => {}
        }
    }

    /// Counts a rule as broken if it doesn't hold.
    pub fn hold(&mut self, holds: bool, rule: Rule) {
        if !holds {
            self.broken.count(rule as usize);
        }
    }

    /// The name of a broken rule, if there is one.
    pub fn broken(&self) -> Option<&'static str> {
        for (rule, name) in RULE_NAMES.iter().enumerate() {
            if self.broken.of(rule) > 0 {
                return Some(name);
            }
        }
        None
    }

    /// Prints to standard error how often each kind came and each rule was broken. Returns true
    /// if each kind came.
    pub fn report<R: Eprint>(&self, rt: &R, method: &str) -> bool {
        report_counts(rt, method, &NAMES, &self.came);
        report_counts(rt, method, &RULE_NAMES, &self.broken);
        self.came.each_came()
    }
}

// Prints a line for each name.
fn report_counts<R: Eprint, const N: usize>(
    rt: &R,
    method: &str,
    names: &[&str],
    counts: &Counts<N>,
) {
    for (thing, name) in names.iter().enumerate() {
        let _ = eprintln!(rt; "{method}: {name}: {}", counts.of(thing));
    }
}
