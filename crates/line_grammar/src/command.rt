ghost use Rattle.std.specs.Prelude.{◌≡◌, ◌≢◌, ℕ, ◌<◌, ◌^◌, List, ◌∷◌, ◌++◌, IfSome, IfNone};
ghost use Rattle.std.specs.Prelude.{decimal, codes};
ghost use Rattle.line_grammar.specs.Command.{Means};

use crate::number::{read_cell, read_difference, read_number};
use crate::word::{after, split_word};
use world_actions::Action;

/// The greatest number of bytes of a line that means something, without its newline.
pub const LINE_BYTES: usize = 80;

/// The command of one line of a client or a script.
#[derive(Clone, Copy, Debug, PartialEq, Eq)]
pub enum Command {
    /// A change of the world.
    Act(Action),
    /// The word of a cell.
    Get(u32),
    /// The end of the running tick.
    End,
}

/// Reads a line, without its newline. The numbers of the command are within the bounds of the
/// grammar, and may still be out of the world's range.
pub fn read_command(line: &[u8]) -> Option<Command>
    ensures { Means line.now result }
{
    if let Some(words) = after(line, b"set ") {
        return read_set(words);
    }
    if let Some(words) = after(line, b"add ") {
        return read_add(words);
    }
    if let Some(words) = after(line, b"move ") {
        return read_move(words);
    }
    if let Some(words) = after(line, b"swap ") {
        return read_swap(words);
    }
    if let Some(words) = after(line, b"cap ") {
        return read_cap(words);
    }
    if let Some(words) = after(line, b"get ") {
        return read_get(words);
    }
    if line == b"end".as_slice() {
        Some(Command::End)
    } else {
        None
    }
}

fn read_set(words: &[u8]) -> Option<Command>
    ensures { Means (codes "set " ++ words.now) result }
{
    let (cell, value) = read_cell_word(words)?;
    let value = read_number(value)?;
    Some(Command::Act(Action::Set { cell, value }))
}

fn read_add(words: &[u8]) -> Option<Command>
    ensures { Means (codes "add " ++ words.now) result }
{
    let (cell, by) = read_cell_word(words)?;
    let by = read_difference(by)?;
    Some(Command::Act(Action::Add { cell, by }))
}

fn read_move(words: &[u8]) -> Option<Command>
    ensures { Means (codes "move " ++ words.now) result }
{
    let (from, rest) = read_cell_word(words)?;
    let (to, amount) = read_cell_word(rest)?;
    let amount = read_number(amount)?;
    Some(Command::Act(Action::Transfer { from, to, amount }))
}

fn read_swap(words: &[u8]) -> Option<Command>
    ensures { Means (codes "swap " ++ words.now) result }
{
    let (a, b) = read_cell_word(words)?;
    let b = read_cell(b)?;
    Some(Command::Act(Action::Swap { a, b }))
}

fn read_cap(words: &[u8]) -> Option<Command>
    ensures { Means (codes "cap " ++ words.now) result }
{
    let (cell, value) = read_cell_word(words)?;
    let value = read_number(value)?;
    Some(Command::Act(Action::Cap { cell, value }))
}

fn read_get(words: &[u8]) -> Option<Command>
    ensures { Means (codes "get " ++ words.now) result }
{
    Some(Command::Get(read_cell(words)?))
}

// Returns the cell at the front, and the bytes that follow the space after it.
fn read_cell_word(words: &[u8]) -> Option<(u32, &[u8])>
    ensures found { IfSome result (λ found. words.now ≡ decimal found.0 ++ (32 ∷ found.1.now)) }
    ensures none { IfNone result ((cell : ℕ) (rest : List ℕ) → cell < 2 ^ 32
        → words.now ≢ decimal cell ++ (32 ∷ rest)) }
{
    let (word, rest) = split_word(words)?;
    let cell = read_cell(word)?;
    Some((cell, rest))
}
