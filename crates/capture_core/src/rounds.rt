ghost use Rattle.std.specs.Prelude.{◌≡◌, ◌<◌, ◌≤◌, [], Option, length, map, All};
ghost use Rattle.world_actions.specs.Effect.{written};
ghost use Rattle.capture_core.specs.declared.taker.Taken.{Taken};
ghost use Rattle.capture_core.specs.Content.{Covers};
ghost use Rattle.capture_core.specs.Rounds.{with_taken, IsChange, write_of};

use crate::capture::Capture;
use crate::taker::{Taken, Taker};
use world_ticks::Cells;

/// Marks a store and takes the round into an image, which then has the words at the mark. A change
/// is a cell and its new word. After each take the next change is written.
pub fn copy_round<C: Capture>(store: &mut C, image: &mut [u64], changes: &[(usize, u64)])
    requires closed { (C.content store.old).left ≡ [] }
    requires cells { length image.old ≡ length (C.content store.old).live }
    requires covered { Covers image.old (C.content store.old) }
    requires changes { All (IsChange (length image.old)) changes.now }
    requires enough { length changes.now ≤ length image.old }
    ensures image { image.new ≡ (C.content store.old).live }
    ensures live { (C.content store.new).live
        ≡ written (C.content store.old).live (map write_of changes.now) }

    // With this fact the next round may go into the same image.
    ensures covered { Covers image.new (C.content store.new) }
    ensures closed { (C.content store.new).left ≡ [] }
{
    store.mark();
    for i in 0..image.len() {
        copy_cell(store, image, i);
        if i < changes.len() {
            let (cell, word) = changes[i];
            store.write(cell, word);
        }
    }
}

// Takes a cell, and puts its word into the image.
fn copy_cell<T: Taker>(from: &mut T, image: &mut [u64], i: usize)
    requires { i < length image.old }
    ensures { (answer : Option Taken) × T.took from.old answer from.new
        × (image.new ≡ with_taken image.old i answer) }
{
    if let Some(Taken::Word(word)) = from.take() {
        image[i] = word;
    }
}
