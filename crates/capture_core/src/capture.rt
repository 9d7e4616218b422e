ghost use Rattle.std.specs.Prelude.{◌≡◌, ◌<◌, ◌↔◌, ℕ, List, [], ◌∷◌, Option, length, All, IsTrue};
ghost use Rattle.std.specs.Prelude.{IfOk, IfErr};
ghost use Rattle.world_actions.specs.World.{IsWord};
ghost use Rattle.world_actions.specs.Effect.{Write};
ghost use Rattle.world_ticks.specs.Cells.{Access, writes_among, Performs};
ghost use Rattle.capture_core.specs.declared.taker.Taken.{Taken};
ghost use Rattle.capture_core.specs.Content.{Content, all_touched, content_after, Marks, Takes};
ghost use Rattle.capture_core.specs.Content.{Covers};

use crate::taker::Taker;
use std::alloc::Global;
use world_actions::Refusal;
use world_ticks::Cells;

/// A store of words whose state at a mark can be taken while the words keep changing. Its live
/// words are those of `Cells`. A write touches its cell.
pub trait Capture: Cells + Taker + Drop {
    /// The live words, the touched cells, and the cells that are left of the open round.
    ghost content: { Self → Content };

    /// Builds a store of these words, with no round open. It takes all the memory that
    /// it will ever need.
    fn build(alloc: Global, words: &[u64]) -> Result<Self, Refusal>
        requires { All IsWord words.now }
        ensures ok { IfOk result (λ store. content store ≡ all_touched words.now []) }
        ensures err { IfErr result (λ refusal. refusal ≡ Refusal.NoMemory) };

    /// Opens a round of the words as they are now. The store decides which cells are touched
    /// afterwards. It takes no memory.
    fn mark(&mut self)
        requires { (content self.old).left ≡ [] }
        ensures { Marks (content self.old) (content self.new) };

    /// True if a round is open. A take then hands out a cell.
    fn open_round(&self) -> bool
        ensures { IsTrue result ↔ (0 < length (content self.now).left) };

    /// The live words are the words that reads and writes see.
    ghost live_is_words: { (store : Self) → (content store).live ≡ Self.words store };

    /// A write changes the content by `content_after`, and a read leaves the content as it is.
    ghost after_access: { (old new : Self) (access : Access) → Self.accessed old access new
        → content new ≡ content_after (content old) (writes_among (access ∷ [])) };

    /// A take hands out the first of the cells that are left.
    ghost after_take: { (old new : Self) (answer : Option Taken) → Self.took old answer new
        → Takes (content old) answer (content new) };
}

/// Laws: the effect of accesses on a store's content is that of their writes. Accesses that write
/// nothing leave the content as it was. The number of live words stays. An image that had the word
/// of each untouched cell still has it.
pub fn accesses_write<C: Capture>()
    ensures content { (old new : _) (writes : List Write) → Performs C.accessed old writes new
        → C.content new ≡ content_after (C.content old) writes }
    ensures unchanged { (old new : _) → Performs C.accessed old [] new
        → C.content new ≡ C.content old }
    ensures cells { (old new : _) (writes : List Write) → Performs C.accessed old writes new
        → length (C.content new).live ≡ length (C.content old).live }
    ensures covered { (old new : _) (writes : List Write) (image : List ℕ)
        → Performs C.accessed old writes new → Covers image (C.content old)
        → Covers image (C.content new) }
{}
