ghost use Rattle.std.specs.Prelude.{◌≡◌, ◌≤◌, ◌<◌, ◌+◌, ◌++◌, ◌∷◌, [], ℕ, List, length, take, IfOk};
ghost use Rattle.std.specs.Prelude.{IfErr, Option};
ghost use Rattle.line_grammar.specs.declared.command.Command.{Command as Meaning};
ghost use Rattle.batches.specs.Batch.{request_of};
ghost use Rattle.line_grammar.specs.Command.{Means};
ghost use Rattle.line_grammar.specs.Kept.{KeptMeans};
ghost use Rattle.batches.specs.Reading.{IsBegun, IsWhole, IsTooMuch};
ghost use Rattle.batches.specs.declared.reader.Fed.TheVariants.{More, Whole, TooLong};

use crate::batch::{Batch, Request};
use line_grammar::{Command, KeptLine, kept_bytes, read_command};
use std::alloc::Global;
use std::marker::Model;
use world_actions::Refusal;

/// The result of reading some bytes.
#[derive(Clone, Copy, Debug, PartialEq, Eq)]
pub enum Fed {
    /// No batch has ended.
    More,
    /// A batch has ended.
    Whole,
    /// The batch has more lines than a batch may have.
    TooLong,
}

/// Reads batches from bytes that come in pieces of any length. It keeps at most 81 bytes of a line,
/// which is one more than a line with a meaning can have.
#[derive(Drop)]
pub struct BatchReader {
    line: KeptLine,
    batch: Batch,
}

impl Model for BatchReader {
    ghost use Rattle.std.specs.Prelude.{◌≤◌, ◌+◌, length};
    ghost use Rattle.batches.specs.declared.batch.TheConstants.{BATCH_LINES};
    ghost use Rattle.batches.specs.Reading.{Reading};

    ghost Value = { Reading };

    ghost view = { λ reader. record { requests = reader.batch.list; kept = reader.line } };

    ghost invariant = { λ reader. BATCH_LINES ≤ reader.batch.room + length reader.batch.list };
}

impl BatchReader {
    /// A reader that has read nothing. It reserves all memory that it ever uses.
    pub fn new(alloc: Global) -> Result<Self, Refusal>
        ensures fresh { IfOk result (λ reader. reader ≡ record { requests = []; kept = [] }) }
        ensures begun { IfOk result (IsBegun []) }
        ensures memory { IfErr result (λ refusal. refusal ≡ Refusal.NoMemory) }
    {
        Ok(BatchReader {
            line: KeptLine::new(alloc)?,
            batch: Batch::new(alloc)?,
        })
    }

    /// The batch that has ended, or the part of it that is read so far.
    pub fn batch(&self) -> &Batch
        ensures { result.now.list ≡ self.now.requests }
    {
        &self.batch
    }

    /// Begins the next batch.
    pub fn clear(&mut self)
        ensures fresh { self.new ≡ record { requests = []; kept = [] } }
        ensures begun { IsBegun [] self.new }
    {
        self.line.clear();
        self.batch.clear();
    }

    /// Takes bytes from the front of a piece, up to the end of a batch, and says how many it took.
    pub fn take(&mut self, piece: &[u8]) -> (usize, Fed)
        ensures count { result.0 ≤ length piece.now }
        ensures some { 0 < length piece.now → 0 < result.0 }
        ensures more { result.1 ≡ More → (result.0 ≡ length piece.now)
            × ((before : List ℕ) → IsBegun before self.old
            → IsBegun (before ++ piece.now) self.new) }
        ensures whole { result.1 ≡ Whole → (before : List ℕ) → IsBegun before self.old
            → IsWhole (before ++ take result.0 piece.now) self.new.requests }
        ensures too_long { result.1 ≡ TooLong → (before : List ℕ) → IsBegun before self.old
            → IsTooMuch (before ++ take result.0 piece.now) }
    {
        for (i, byte) in piece.iter().enumerate() {
            match self.take_byte(*byte) {
                Fed::More => {}
                fed => return (i + 1, fed),
            }
        }
        (piece.len(), Fed::More)
    }

    // Takes a byte of the line, or reads the line that ends.
    fn take_byte(&mut self, byte: u8) -> Fed
        ensures more { result ≡ More
            → (before : List ℕ) → IsBegun before self.old → IsBegun (before ++ byte ∷ []) self.new }
        ensures whole { result ≡ Whole → (before : List ℕ) → IsBegun before self.old
            → IsWhole (before ++ byte ∷ []) self.new.requests }
        ensures too_long { result ≡ TooLong → (before : List ℕ) → IsBegun before self.old
            → IsTooMuch (before ++ byte ∷ []) }
    {
        if byte == b'\n' {
            return self.end_line();
        }
        self.line.push(byte);
        Fed::More
    }

    // Reads the kept line, and keeps nothing of it.
    fn end_line(&mut self) -> Fed
        ensures more { result ≡ More → (before : List ℕ) → IsBegun before self.old
            → IsBegun (before ++ 10 ∷ []) self.new }
        ensures whole { result ≡ Whole → (before : List ℕ) → IsBegun before self.old
            → IsWhole (before ++ 10 ∷ []) self.new.requests }
        ensures too_long { result ≡ TooLong → (before : List ℕ) → IsBegun before self.old
            → IsTooMuch (before ++ 10 ∷ []) }
    {
        let meaning = read_kept(self.line.bytes());
        self.line.clear();
        let Some(request) = asked_by(meaning) else {
            return Fed::Whole;
        };
        if self.batch.is_full() {
            return Fed::TooLong;
        }
        self.batch.push_reserved(request);
        Fed::More
    }
}

// The request of a line with this meaning, or `None` if the line ends its batch.
fn asked_by(meaning: Option<Command>) -> Option<Request>
    ensures { result ≡ request_of meaning }
{
    match meaning {
        Some(Command::End) => None,
        Some(Command::Act(action)) => Some(Request::Act(action)),
        Some(Command::Get(cell)) => Some(Request::Get(cell)),
        None => Some(Request::Bad),
    }
}

// Reads a line of which these bytes are kept.
fn read_kept(kept: &[u8]) -> Option<Command>
    ensures { KeptMeans Means kept.now result }
{
    kept_bytes();
    read_command(kept)
}
