ghost use Rattle.std.specs.Prelude.{◌≡◌, ◌<◌, ◌^◌, ◌++◌, ◌∷◌, [], decimal, codes, IfOk, IfSome};
ghost use Rattle.world_actions.specs.Refusal.{code_of};
ghost use Rattle.line_grammar.specs.Reading.{IsReading};
ghost use Rattle.world_load.specs.Answer.{answer_with, all_accepted};

use line_grammar::{after, read_number};
use std::alloc::{AllocError, Global};
use world_actions::Refusal;

/// The text after the number in an answer to this many accepted lines.
pub fn accepted(alloc: Global, lines: u32) -> Result<Vec<u8>, AllocError>
    ensures { IfOk result (λ text. text.items ≡ all_accepted lines) }
{
    let mut text = Vec::new(alloc);
    text.push(b':')?;
    for _ in 0..lines {
        text.extend_from_slice(b" +")?;
    }
    text.push(b'\n')?;
    Ok(text)
}

/// The number of the tick in an answer that ends so, if it is one.
pub fn tick_of(answer: &[u8], end: &[u8]) -> Option<u64>
    ensures { IsReading (answer_with end.now) (λ tick. tick < 2 ^ 64) answer.now result }
{
    number_between(answer, b"tick ", end)
}

/// Why a batch of sets is refused as a whole, if the answer says so.
pub fn refusal_of(answer: &[u8]) -> Option<Refusal>
    ensures { IfSome result (λ refusal. answer.now
        ≡ codes "fault " ++ (decimal (code_of refusal) ++ (10 ∷ []))) }
{
    match number_between(answer, b"fault ", b"\n")? {
        6 => Some(Refusal::SegmentFull),
        12 => Some(Refusal::LogDown),
        17 => Some(Refusal::NoMemory),
        21 => Some(Refusal::TicksEnded),
        _ => None,
    }
}

// The number in a text, between what is before it and what is after it.
fn number_between(text: &[u8], front: &[u8], end: &[u8]) -> Option<u64>
    ensures { IsReading (λ number. front.now ++ (decimal number ++ end.now))
        (λ number. number < 2 ^ 64) text.now result }
{
    let rest = after(text, front)?;
    let digits = rest.strip_suffix(end)?;
    read_number(digits)
}

/// True if a line of a batch is refused since the world doesn't have its cell.
pub fn names_no_cell(answer: &[u8]) -> bool {
    answer
        .trim_ascii_end()
        .split(|byte| *byte == b' ')
        .any(|word| word == b"-1".as_slice())
}
