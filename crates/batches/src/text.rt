ghost use Rattle.std.specs.Prelude.{◌≡◌, ◌+◌, ◌≤◌, ◌<◌, ◌^◌, ◌++◌, ◌∷◌, [], length, vec_capacity};
ghost use Rattle.std.specs.Prelude.{decimal};
ghost use Rattle.batches.specs.Answer.{refusal_text, text_of};

use crate::requests::Answer;
use itoa::Buffer;
use world_actions::Refusal;

/// Appends bytes for which there is room.
pub fn put(text: &mut Vec<u8>, bytes: &[u8])
    requires { length text.old.items + length bytes.now ≤ vec_capacity text.old }
    ensures text { text.new.items ≡ text.old.items ++ bytes.now }
    ensures room { vec_capacity text.old ≤ vec_capacity text.new }
{
    let _ = text.extend_from_slice(bytes);
}

/// Appends a number in decimal, for which there is room.
pub fn put_number(text: &mut Vec<u8>, number: u64)
    requires { length text.old.items + 20 ≤ vec_capacity text.old }
    ensures text { text.new.items ≡ text.old.items ++ decimal number }
    ensures few { length text.new.items ≤ length text.old.items + 20 }
    ensures room { vec_capacity text.old ≤ vec_capacity text.new }
{
    let mut buffer = Buffer::new();
    put(text, buffer.format(number).as_bytes());
}

/// Appends the text of an answer, for which there is room.
pub fn put_answer(text: &mut Vec<u8>, answer: Answer)
    requires { length text.old.items + 21 ≤ vec_capacity text.old }
    ensures text { text.new.items ≡ text.old.items ++ text_of answer }
    ensures few { length text.new.items ≤ length text.old.items + 21 }
    ensures room { vec_capacity text.old ≤ vec_capacity text.new }
{
    match answer {
        Answer::Done => put(text, b"+"),
        Answer::Word(word) => {
            put(text, b"=");
            put_number(text, word);
        }
        Answer::Refused(refusal) => put_refusal(text, refusal),
    }
}

// Appends a minus and the number of a refusal.
fn put_refusal(text: &mut Vec<u8>, refusal: Refusal)
    requires { length text.old.items + 21 ≤ vec_capacity text.old }
    ensures text { text.new.items ≡ text.old.items ++ refusal_text refusal }
    ensures few { length text.new.items ≤ length text.old.items + 21 }
    ensures room { vec_capacity text.old ≤ vec_capacity text.new }
{
    put(text, b"-");
    put_number(text, u64::from(refusal.code()));
}
