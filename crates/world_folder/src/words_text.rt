//! A text that lists the words of a world.
ghost use Rattle.std.specs.Prelude.{◌≡◌, ◌≢◌, ◌↔◌, ◌≤◌, ◌<◌, ◌+◌, ◌∷◌, ℕ, [], Err, decimal, length};
ghost use Rattle.std.specs.Prelude.{slice_index, take, drop, IsTrue, IfOk, OnOk, IfSome, IfNone};
ghost use Rattle.std.specs.Prelude.{Some};
ghost use Rattle.world_actions.specs.World.{IsWord, IsWorld};
ghost use Rattle.world_folder.specs.WordsText.{IsSeparator, HasNoSeparator, EndsPart, newlines};
ghost use Rattle.world_folder.specs.WordsText.{Lists, EndsLine, IsUnreadAt, HasTooMany};
ghost use Rattle.world_folder.specs.WordsText.{HasOtherCount};
ghost use Rattle.world_folder.specs.Texts.{bad_words_text, bad_line_text};

use line_grammar::read_number;
use std::alloc::Global;
use std::fmt;
use world_actions::{CELLS, LIMIT, Refusal};

/// More bytes than the longest text of a world has: a word has 18 digits at most, and a
/// separator after them.
pub const TEXT_BYTES: usize = 20 * CELLS as usize;

/// Why a text doesn't list the words of a world.
#[derive(Clone, Copy, Debug, PartialEq, Eq)]
pub enum BadWords {
    /// There is no memory for them.
    NoMemory,
    /// It lists none.
    Empty,
    /// It lists more than a world has cells.
    TooMany,
    /// Its last line has no newline.
    Cut,
    /// It lists this number of words, and another one was asked for.
    Count(u64),
    /// This line, counted from 1, has something else.
    Line(u64),
}

impl BadWords {
    ghost use Rattle.std.specs.Prelude.{◌≡◌, ◌≢◌};

    /// By which code the text is refused.
    pub fn refusal(&self) -> Refusal
        ensures memory { self.now ≡ BadWords.NoMemory → result ≡ Refusal.NoMemory }
        ensures other { self.now ≢ BadWords.NoMemory → result ≡ Refusal.BadLine }
    {
        match self {
            BadWords::NoMemory => Refusal::NoMemory,
            BadWords::Empty
            | BadWords::TooMany
            | BadWords::Cut
            | BadWords::Count(_)
            | BadWords::Line(_) => Refusal::BadLine,
        }
    }
}

impl fmt::Display for BadWords {
    ghost output = { λ bad. Some (bad_words_text bad) };

    fn fmt<W: fmt::Write>(&self, f: &mut fmt::Formatter<W>) -> fmt::Result {
        match *self {
            BadWords::NoMemory => f.write_str("there is no memory for its words"),
            BadWords::Empty => f.write_str("it has no word"),
            BadWords::TooMany => write!(f, "it has more than {CELLS} words"),
            BadWords::Cut => f.write_str("its last line has no newline, so it may be cut off"),
            BadWords::Count(count) => write!(f, "--cells isn't the number of its words, {count}"),
            BadWords::Line(line) => write!(f, "{}", BadLine(line)),
        }
    }
}

// A line that has something else, counted from 1.
#[derive(Clone, Copy)]
struct BadLine(u64);

impl fmt::Display for BadLine {
    ghost output = { λ bad. Some (bad_line_text bad.0) };

    fn fmt<W: fmt::Write>(&self, f: &mut fmt::Formatter<W>) -> fmt::Result {
        write!(
            f,
            "line {} has something other than numbers from 0 to {LIMIT} with one space between them",
            self.0
        )
    }
}

/// The words of a world as a text lists them. Only `Listed::read` gives them, so a world is
/// made of no others.
#[derive(Debug, Drop)]
pub struct Listed {
    words: Vec<u64>,
}

impl Listed {
    /// Reads the words of a world from a text, which has to be of the number of cells that is asked
    /// for. Each word is in decimal, with a space or a newline after it, the last one with a
    /// newline.
    pub fn read(alloc: Global, text: &[u8], asked: Option<u32>) -> Result<Self, BadWords>
        ensures listed { IfOk result (λ listed. Lists listed.words.items text.now) }
        ensures world { IfOk result (λ listed. IsWorld listed.words.items) }
        ensures count { IfOk result (λ listed. IfSome asked (λ cells.
            length listed.words.items ≡ cells)) }
        ensures cut { result ≡ Err BadWords.Cut → ¬ EndsLine text.now }
        ensures other { (count : ℕ) → result ≡ Err (BadWords.Count count)
            → HasOtherCount text.now asked count }
        ensures empty { result ≡ Err BadWords.Empty → text.now ≡ [] }
        ensures too_many { result ≡ Err BadWords.TooMany → HasTooMany text.now }
        ensures line { (line : ℕ) → result ≡ Err (BadWords.Line line) → IsUnreadAt line text.now }
    {
        let mut words = Vec::new(alloc);
        list_words(text, &mut words)?;
        match asked {
            Some(cells) if words.len() != cells as usize => {
                Err(BadWords::Count(words.len() as u64))
            }
            _ => Ok(Listed { words }),
        }
    }

    /// The words, in the order of their cells.
    pub fn words(&self) -> &[u64]
        ensures { result.now ≡ self.now.words.items }
    {
        &self.words
    }
}

// Adds the words that a text lists to none.
fn list_words(text: &[u8], words: &mut Vec<u64>) -> Result<(), BadWords>
    requires { words.old.items ≡ [] }
    ensures listed { OnOk result (Lists words.new.items text.now) }
    ensures world { OnOk result (IsWorld words.new.items) }
    ensures cut { result ≡ Err BadWords.Cut → ¬ EndsLine text.now }
    ensures other { (count : ℕ) → result ≢ Err (BadWords.Count count) }
    ensures empty { result ≡ Err BadWords.Empty → text.now ≡ [] }
    ensures too_many { result ≡ Err BadWords.TooMany → HasTooMany text.now }
    ensures line { (line : ℕ) → result ≡ Err (BadWords.Line line) → IsUnreadAt line text.now }
{
    let mut line = 1;
    let mut rest = text;
    while !rest.is_empty() {
        let end = end_of_part(rest);
        let Some(word) = read_word(&rest[..end]) else {
            return Err(BadWords::Line(line));
        };
        if words.len() == CELLS as usize {
            return Err(BadWords::TooMany);
        }
        if end == rest.len() {
            return Err(BadWords::Cut);
        }
        if words.push(word).is_err() {
            return Err(BadWords::NoMemory);
        }
        line += newlines_at(rest, end);
        rest = behind(rest, end);
    }
    if words.is_empty() {
        return Err(BadWords::Empty);
    }
    if !ends_line(text) {
        return Err(BadWords::Cut);
    }
    Ok(())
}

// True if the last byte is a newline.
fn ends_line(text: &[u8]) -> bool
    ensures { IsTrue result ↔ EndsLine text.now }
{
    !text.is_empty() && text[text.len() - 1] == b'\n'
}

// The place of the first separator, or the end of the text.
fn end_of_part(text: &[u8]) -> usize
    ensures inside { result ≤ length text.now }
    ensures part { HasNoSeparator (take result text.now) }
    ensures ends { EndsPart (drop result text.now) }
{
    for at in 0..text.len() {
        if is_separator(text[at]) {
            return at;
        }
    }
    text.len()
}

// How many newlines stand at a place: one or none.
fn newlines_at(text: &[u8], at: usize) -> u64
    requires { at < length text.now }
    ensures count { result ≡ newlines (slice_index text.now at ∷ []) }
    ensures few { result ≤ 1 }
{
    if text[at] == b'\n' { 1 } else { 0 }
}

// The bytes after a place.
fn behind(text: &[u8], at: usize) -> &[u8]
    requires { at < length text.now }
    ensures { result.now ≡ drop (at + 1) text.now }
{
    &text[at + 1..]
}

fn is_separator(byte: u8) -> bool
    ensures { IsTrue result ↔ IsSeparator byte }
{
    byte == b' ' || byte == b'\n'
}

// The word that a part of a text is, if it is one.
fn read_word(part: &[u8]) -> Option<u64>
    ensures some { IfSome result (λ word. IsWord word × (part.now ≡ decimal word)) }
    ensures none { IfNone result ((word : ℕ) → IsWord word → part.now ≢ decimal word) }
{
    let word = read_number(part)?;
    if word <= LIMIT { Some(word) } else { None }
}
