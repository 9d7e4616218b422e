use disk_model::Leaving;
use line_grammar::{Command, after, one_reading, read_cell, read_command};
use world_actions::CELLS;
use world_core::Fate;

/// The method that captures a world's words at a mark.
#[derive(Clone, Copy, Debug, PartialEq, Eq)]
pub enum Method {
    /// A mark copies all words.
    Plain,
    /// Two arrays, and for each cell which of them is read and which is written.
    Zigzag,
    /// The live words and two arrays of what was written, which a mark swaps.
    PingPong,
    /// Zigzag over the table that a writer and a taker share.
    ZigzagShared,
    /// Ping-Pong over such a table.
    PingPongShared,
}

/// The meaning of one line of a script.
#[derive(Clone, Copy, Debug, PartialEq, Eq)]
pub enum Line {
    /// `open METHOD N`: a fresh core of this many cells, 1 to `CELLS`, and its start.
    Open(Method, u32),
    /// A client's line: an action, a read or the end of the tick.
    Command(Command),
    /// `mark`: opens a round.
    Mark,
    /// `image`: one step of the image keeper.
    Image,
    /// `log`: one step of the log keeper.
    Log,
    /// `cover`: the records that the newest image has leave the queue.
    Cover,
    /// `image*`, or `fail image` whose calls fail: steps of the image keeper until it
    /// is idle or down.
    Images(Fate),
    /// `log*`, or `fail log` whose calls fail: steps of the log keeper until it is idle or down.
    Logs(Fate),
    /// `crash lose`, `crash keep` or `crash fill HH`: a crash, and the start after it.
    Crash(Leaving),
    /// `world`: all words.
    World,
}

ghost use Rattle.std.specs.Prelude.{◌≡◌, ◌≢◌, ◌<◌, ℕ, List, ◌∷◌, ◌++◌, codes, IfSome, IfNone};
ghost use Rattle.std.specs.Prelude.{Option};
ghost use Rattle.line_grammar.specs.Reading.{IsReading};
ghost use Rattle.steps.specs.declared.line.Method.{Method};
ghost use Rattle.steps.specs.declared.line.Line.{Line};
ghost use Rattle.steps.specs.Line.{LineMeans, IsWord, line_spelling, method_word};
ghost use Rattle.steps.specs.Line.{hex_digit, hex_text};

/// Reads a line, without its newline. Returns `None` if it isn't of the grammar.
pub fn read_line(line: &[u8]) -> Option<Line>
    ensures { LineMeans line.now result }
{
    if let Some(words) = after(line, b"open ") {
        return read_open(words);
    }
    if let Some(byte) = after(line, b"crash fill ") {
        return Some(Line::Crash(Leaving::Fill(read_byte(byte)?)));
    }
    if let Some(word) = read_word(line) {
        return Some(word);
    }
    Some(Line::Command(read_command(line)?))
}

/// A law: no line has two meanings.
pub fn line_has_one_meaning()
    ensures { (line : List ℕ) (a b : Option Line) → LineMeans line a → LineMeans line b → a ≡ b }
{
    one_reading();
}

fn read_open(words: &[u8]) -> Option<Line>
    ensures { LineMeans (codes "open " ++ words.now) result }
{
    let (method, cells) = read_method(words)?;
    let cells = read_cell(cells)?;
    if 1 <= cells && cells <= CELLS {
        Some(Line::Open(method, cells))
    } else {
        None
    }
}

// Reads the method at the front. Returns it with the bytes after the space after it.
fn read_method(words: &[u8]) -> Option<(Method, &[u8])>
    ensures found { IfSome result (λ found. words.now ≡ method_word found.0 ++ (32 ∷ found.1.now)) }
    ensures none { IfNone result
        ((method : Method) (rest : List ℕ) → words.now ≢ method_word method ++ (32 ∷ rest)) }
{
    if let Some(rest) = after(words, b"plain ") {
        return Some((Method::Plain, rest));
    }
    if let Some(rest) = after(words, b"zigzag ") {
        return Some((Method::Zigzag, rest));
    }
    if let Some(rest) = after(words, b"pingpong ") {
        return Some((Method::PingPong, rest));
    }
    if let Some(rest) = after(words, b"zigzag-shared ") {
        return Some((Method::ZigzagShared, rest));
    }
    let rest = after(words, b"pingpong-shared ")?;
    Some((Method::PingPongShared, rest))
}

// Reads a byte of two digits.
fn read_byte(text: &[u8]) -> Option<u8>
    ensures { IsReading hex_text (λ byte. byte < 256) text.now result }
{
    if text.len() != 2 {
        return None;
    }
    let high = read_digit(text[0])?;
    let low = read_digit(text[1])?;
    Some(high * 16 + low)
}

fn read_digit(byte: u8) -> Option<u8>
    ensures digit { IfSome result (λ digit. (digit < 16) × (byte ≡ hex_digit digit)) }
    ensures none { IfNone result ((digit : ℕ) → digit < 16 → byte ≢ hex_digit digit) }
{
    match byte {
        b'0'..=b'9' => Some(byte - b'0'),
        b'a'..=b'f' => Some(byte - b'a' + 10),
        _ => None,
    }
}

// Reads a line that has no number in it and isn't a client's.
fn read_word(line: &[u8]) -> Option<Line>
    ensures found { IfSome result (λ word. IsWord word × (line.now ≡ line_spelling word)) }
    ensures none { IfNone result ((word : Line) → IsWord word → line.now ≢ line_spelling word) }
{
    match line {
        b"mark" => Some(Line::Mark),
        b"image" => Some(Line::Image),
        b"log" => Some(Line::Log),
        b"cover" => Some(Line::Cover),
        b"world" => Some(Line::World),
        b"image*" => Some(Line::Images(Fate::Done)),
        b"fail image" => Some(Line::Images(Fate::Failed)),
        b"log*" => Some(Line::Logs(Fate::Done)),
        b"fail log" => Some(Line::Logs(Fate::Failed)),
        b"crash lose" => Some(Line::Crash(Leaving::Lose)),
        b"crash keep" => Some(Line::Crash(Leaving::Keep)),
        _ => None,
    }
}
