ghost use Rattle.std.specs.Prelude.{◌≡◌, ◌++◌, decimal, OnOk, OnErr, IfErr};
ghost use Rattle.world_core.specs.declared.moves.Answer.TheVariants as answer;
ghost use Rattle.steps.specs.Text.{answer_text};

use action_log::LogAnswer;
use image_files::ImageAnswer;
use itoa::Buffer;
use world_actions::Refusal;
use world_core::Answer;

/// Adds the text of an answer.
pub fn push_answer(text: &mut Vec<u8>, answer: Answer) -> Result<(), Refusal>
    ensures text { OnOk result (text.new.items ≡ text.old.items ++ answer_text answer) }
    ensures memory { IfErr result (λ refusal. refusal ≡ Refusal.NoMemory) }
{
    match answer {
        Answer::Did => push_bytes(text, b"+"),
        Answer::Word(word) => push_with_number(text, b"= ", word),
        Answer::Ended(tick) => push_with_number(text, b"tick ", tick),
        Answer::Started(tick) => push_with_number(text, b"mark ", tick),
        Answer::Image(given) => push_image_answer(text, given),
        Answer::Log(given) => push_log_answer(text, given),
        Answer::Recovered { tick, from } => {
            push_with_number(text, b"recovered ", tick)?;
            push_with_number(text, b" from ", from)
        }
        Answer::Blank => push_bytes(text, b"blank"),
        Answer::Refused(refusal) => push_with_number(text, b"- ", u64::from(refusal.code())),
    }
}

fn push_image_answer(text: &mut Vec<u8>, given: ImageAnswer) -> Result<(), Refusal>
    ensures text { OnOk result
        (text.new.items ≡ text.old.items ++ answer_text (answer.Image given)) }
    ensures memory { IfErr result (λ refusal. refusal ≡ Refusal.NoMemory) }
{
    match given {
        ImageAnswer::Idle => push_bytes(text, b"idle"),
        ImageAnswer::Working => push_bytes(text, b"working"),
        ImageAnswer::Opened(tick) => push_with_number(text, b"image open ", tick),
        ImageAnswer::Down => push_bytes(text, b"image down"),
    }
}

fn push_log_answer(text: &mut Vec<u8>, given: LogAnswer) -> Result<(), Refusal>
    ensures text { OnOk result (text.new.items ≡ text.old.items ++ answer_text (answer.Log given)) }
    ensures memory { IfErr result (λ refusal. refusal ≡ Refusal.NoMemory) }
{
    match given {
        LogAnswer::Idle => push_bytes(text, b"idle"),
        LogAnswer::Working => push_bytes(text, b"working"),
        LogAnswer::Acked(receipt) => push_with_number(text, b"acked ", receipt.tick()),
        LogAnswer::Down => push_bytes(text, b"log down"),
    }
}

/// Adds bytes as they are.
pub fn push_bytes(text: &mut Vec<u8>, bytes: &[u8]) -> Result<(), Refusal>
    ensures text { OnOk result (text.new.items ≡ text.old.items ++ bytes.now) }
    ensures same { OnErr result (text.new.items ≡ text.old.items) }
    ensures memory { IfErr result (λ refusal. refusal ≡ Refusal.NoMemory) }
{
    text.extend_from_slice(bytes)?;
    Ok(())
}

fn push_with_number(text: &mut Vec<u8>, bytes: &[u8], number: u64) -> Result<(), Refusal>
    ensures text { OnOk result (text.new.items ≡ text.old.items ++ (bytes.now ++ decimal number)) }
    ensures memory { IfErr result (λ refusal. refusal ≡ Refusal.NoMemory) }
{
    push_bytes(text, bytes)?;
    push_number(text, number)?;
    Ok(())
}

/// Adds a number in decimal.
pub fn push_number(text: &mut Vec<u8>, number: u64) -> Result<(), Refusal>
    ensures text { OnOk result (text.new.items ≡ text.old.items ++ decimal number) }
    ensures memory { IfErr result (λ refusal. refusal ≡ Refusal.NoMemory) }
{
    let mut buffer = Buffer::new();
    push_bytes(text, buffer.format(number).as_bytes())
}
