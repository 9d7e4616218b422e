ghost use Rattle.std.specs.Prelude.{◌≡◌, ◌<◌, ◌≤◌, length, slice_index, All, IfOk, IfErr};
ghost use Rattle.world_actions.specs.World.{IsWord};

use crate::engine::Engine;
use capture_core::Capture;
use disk_model::Disk;
use std::alloc::Global;
use world_actions::Refusal;

impl<C: Capture, D: Disk> Engine<C, D> {
    /// The number of cells. Cells are numbered from 0.
    pub fn cells(&self) -> usize
        ensures { result ≡ length self.now.content.live }
    {
        self.store.len()
    }

    /// The word of a cell. It refuses with `BadCell` if there is no such cell.
    pub fn read(&mut self, cell: u32) -> Result<u64, Refusal>
        ensures inside { IfOk result (λ _. cell < length self.old.content.live) }
        ensures word { IfOk result (λ word. word ≡ slice_index self.old.content.live cell) }
        ensures outside { IfErr result (λ refusal. (refusal ≡ Refusal.BadCell)
            × (length self.old.content.live ≤ cell)) }
        ensures same { self.new ≡ self.old }
    {
        let cell = cell as usize;
        if cell >= self.store.len() {
            return Err(Refusal::BadCell);
        }
        Ok(self.store.read(cell))
    }

    /// The words, in the order of their cells.
    pub fn words(&mut self) -> Result<Vec<u64>, Refusal>
        ensures words { IfOk result (λ words. words.items ≡ self.old.content.live) }
        ensures limit { IfOk result (λ words. All IsWord words.items) }
        ensures same { self.new ≡ self.old }
        ensures memory { IfErr result (λ refusal. refusal ≡ Refusal.NoMemory) }
    {
        words_of(self.alloc, &mut self.store)
    }
}

// The words of a store, in the order of their cells.
fn words_of<C: Capture>(alloc: Global, store: &mut C) -> Result<Vec<u64>, Refusal>
    ensures words { IfOk result (λ words. words.items ≡ (C.content store.old).live) }
    ensures limit { IfOk result (λ words. All IsWord words.items) }
    ensures same { C.content store.new ≡ C.content store.old }
    ensures memory { IfErr result (λ refusal. refusal ≡ Refusal.NoMemory) }
{
    let cells = store.len();
    let mut words = Vec::with_capacity(alloc, cells)?;
    for i in 0..cells {
        words.push(store.read(i))?;
    }
    Ok(words)
}
