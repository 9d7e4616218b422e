ghost use Rattle.std.specs.Prelude.{◌≡◌, ◌≢◌, List, ℕ, ◌∷◌, ◌++◌, IfSome, IfNone};
ghost use Rattle.line_grammar.specs.Word.{HasNoSpace};

/// Returns the bytes after a word at the front of a line. If the word ends in a space, the line
/// must have that space.
pub fn after<'a>(line: &'a [u8], word: &[u8]) -> Option<&'a [u8]>
    ensures found { IfSome result (λ rest. line.now ≡ word.now ++ rest.now) }
    ensures none { IfNone result ((rest : List ℕ) → line.now ≢ word.now ++ rest) }
{
    line.strip_prefix(word)
}

// Returns the bytes before the first space, and those after it.
pub(crate) fn split_word(words: &[u8]) -> Option<(&[u8], &[u8])>
    ensures found { IfSome result (λ parts. words.now ≡ parts.0.now ++ (32 ∷ parts.1.now)) }
    ensures first { IfSome result (λ parts. HasNoSpace parts.0.now) }
    ensures none { IfNone result (HasNoSpace words.now) }
{
    let space = words.iter().position(|&b| b == b' ')?;
    Some((&words[..space], &words[space + 1..]))
}
