ghost use Rattle.std.specs.Prelude.{◌≡◌, ◌≤◌, ◌++◌, ◌∷◌, [], ℕ, List, length, Option};
ghost use Rattle.line_grammar.specs.declared.command.Command.{Command};
ghost use Rattle.line_grammar.specs.Command.{Means, IsInBounds, spelling};
ghost use Rattle.line_grammar.specs.Kept.{kept_of, KeptMeans};

use crate::command::LINE_BYTES;

/// A law: each line has one meaning.
pub fn one_reading()
    ensures some { (line : List ℕ) → (meaning : Option Command) × Means line meaning }
    ensures unique { (line : List ℕ) (a b : Option Command) → Means line a → Means line b → a ≡ b }
{}

/// A law: the greatest length of a line. Clients depend on the number.
pub fn line_numbers()
    ensures { LINE_BYTES ≡ 80 }
{}

/// A law: each command's text has at most `LINE_BYTES` bytes, so a longer line means nothing.
pub fn command_length()
    ensures { (command : Command) → IsInBounds command → length (spelling command) ≤ LINE_BYTES }
{}

/// Laws: the bytes that are kept of a line one by one are those that are kept of it at once. They
/// decide the line's meaning.
pub fn kept_bytes()
    ensures next { (line : List ℕ) (byte : ℕ)
        → kept_of (line ++ byte ∷ []) ≡ kept_of (kept_of line ++ byte ∷ []) }
    ensures means { (kept : List ℕ) (meaning : Option Command) → Means kept meaning
        → KeptMeans Means kept meaning }
{
    command_length();
}
