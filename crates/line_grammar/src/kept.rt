ghost use Rattle.std.specs.Prelude.{◌≡◌, ◌++◌, ◌∷◌, [], IfOk, IfErr};
ghost use Rattle.line_grammar.specs.Kept.{kept_of};

use crate::command::LINE_BYTES;
use std::alloc::Global;
use std::marker::Model;
use world_actions::Refusal;

/// The first bytes of a line that has not ended, as many as decide its meaning. These are at most
/// one more than a line with a meaning can have. Contracts see these bytes.
#[derive(Drop)]
pub struct KeptLine {
    bytes: Vec<u8>,
}

impl Model for KeptLine {
    ghost use Rattle.std.specs.Prelude.{◌≤◌, ◌+◌, ℕ, List, vec_len, vec_capacity};
    ghost use Rattle.line_grammar.specs.declared.command.TheConstants.{LINE_BYTES};

    ghost Value = { List ℕ };

    ghost view = { λ line. line.bytes.items };

    ghost invariant = { λ line. (vec_len line.bytes ≤ LINE_BYTES + 1)
        × (LINE_BYTES + 1 ≤ vec_capacity line.bytes) };
}

impl KeptLine {
    /// Makes a line with no byte. It reserves all that it ever uses.
    pub fn new(alloc: Global) -> Result<Self, Refusal>
        ensures empty { IfOk result (λ line. line ≡ []) }
        ensures memory { IfErr result (λ refusal. refusal ≡ Refusal.NoMemory) }
    {
        Ok(KeptLine {
            bytes: Vec::with_capacity(alloc, LINE_BYTES + 1)?,
        })
    }

    /// Takes the line's next byte. Keeps it, unless so many bytes are kept that the line means
    /// nothing, whatever follows.
    pub fn push(&mut self, byte: u8)
        ensures { self.new ≡ kept_of (self.old ++ byte ∷ []) }
    {
        if self.bytes.len() <= LINE_BYTES {
            self.bytes.push_reserved(byte);
        }
    }

    /// Returns the kept bytes.
    pub fn bytes(&self) -> &[u8]
        ensures { result.now ≡ self.now }
    {
        &self.bytes
    }

    /// Begins the next line.
    pub fn clear(&mut self)
        ensures { self.new ≡ [] }
    {
        self.bytes.clear();
    }
}
