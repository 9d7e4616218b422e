ghost use Rattle.std.specs.Prelude.{◌≡◌, ◌+◌, ◌*◌, ◌≤◌, ◌<◌, ℕ, List, length, take, drop, IsTrue};
ghost use Rattle.std.specs.Prelude.{OnOk, OnErr, IfNone, Option, Some, is_ok, []};
ghost use Rattle.image_files.specs.Image.{header_bytes};
ghost use Rattle.image_files.specs.Taken.{filled_words};
ghost use Rattle.std.specs.List.{flat_map};
ghost use Rattle.file_format.specs.Number.{number_bytes};
ghost use Rattle.file_format.specs.declared.format.TheConstants.{MARK_PLACE};
ghost use Rattle.file_format.specs.declared.format.Format.{Format};
ghost use Rattle.disk_model.specs.Disk.{counted, Read, Write};
ghost use Rattle.file_format.specs.Gate.{HasShutGate};
ghost use Rattle.capture_core.specs.declared.taker.Taken.{Taken};
ghost use Rattle.capture_core.specs.Taken.{IsTakenWord};
ghost use Rattle.image_files.specs.declared.phase.Phase.TheVariants.{Header, Taking, Reading};
ghost use Rattle.image_files.specs.declared.phase.Phase.TheVariants.{Writing, Down};
ghost use Rattle.image_files.specs.Progress.{left_of};
ghost use Rattle.image_files.specs.Keeper.{Fits};
ghost use Rattle.image_files.specs.Steps.{IsOnlyRead};
ghost use Rattle.image_files.specs.Calls.{with_chunk_written, read_cells, TookCell, GoesOn, Reads};

use super::ImageKeeper;
use crate::chunk::{CHUNK_CELLS, any_same, encode, fill};
use crate::format::{HEADER_BYTES, WORD_BYTES, encode_header};
use crate::phase::Phase;
use capture_core::{Taken, Taker};
use disk_model::Disk;
use file_format::MARK_PLACE;
use world_actions::Refusal;

// The header and the words of the target, after its closed gate.
impl ImageKeeper {
    // Writes the number of cells and the tick.
    #[tactic(auto, unfolding(crate::specs::Image::image_of))]
    pub(super) fn write_header<D: Disk>(&mut self, target: &mut D) -> Result<(), Refusal>
        requires phase { self.old.phase ≡ Header }
        requires gate { IsTrue D.honest → HasShutGate (D.content target.old) }
        ensures ok { OnOk result (self.new ≡ record self.old { phase = Taking }) }
        ensures failed { OnErr result (self.new ≡ record self.old { phase = Down }) }
        ensures goes_on { GoesOn D.Disk self.old self.new target.old target.new }
        ensures lowers { OnOk result (left_of self.new < left_of self.old) }
        ensures faults { D.faults target.new ≡ counted (D.faults target.old) result }
        ensures called { D.called target.old
            (Write MARK_PLACE (header_bytes Format.Second self.old.cells self.old.tick))
            (is_ok result) target.new }
    {
        encode_header(&mut self.buffer, self.cells as u64, self.tick);
        if let Err(refusal) = target.write_at(MARK_PLACE as u64, &self.buffer[..2 * WORD_BYTES]) {
            self.go_down();
            return Err(refusal);
        }
        self.phase = Phase::Taking;
        Ok(())
    }

    // Takes the next cell.
    pub(super) fn take_cell<T: Taker>(&mut self, from: &mut T)
        requires phase { self.old.phase ≡ Taking }
        ensures took { (cell : Option Taken) × T.took from.old cell from.new
            × IfNone cell (from.new ≡ from.old) × TookCell cell self.old self.new }
    {
        if let Some(cell) = from.take() {
            self.keep(cell);
        }
    }

    fn keep(&mut self, cell: Taken)
        requires phase { self.old.phase ≡ Taking }
        requires limit { IsTakenWord cell }
        ensures { TookCell (Some cell) self.old self.new }
    {
        let size = CHUNK_CELLS.min(self.cells - self.written);
        let has_newest = self.newest.is_some();
        let _ = self.chunk.push(cell);
        self.phase = if self.chunk.len() < size {
            Phase::Taking
        } else if has_newest && any_same(&self.chunk) {
            Phase::Reading
        } else {
            Phase::Writing
        };
    }

    // Reads the newest image's words of the chunk in work, and gives them to the cells without a
    // word of their own.
    pub(super) fn read_chunk<D: Disk>(&mut self, newest: &mut D) -> Result<(), Refusal>
        requires phase { self.old.phase ≡ Reading }
        requires image { IsTrue D.honest
            → (target : List ℕ) × Fits self.old target (D.content newest.old) }
        ensures ok { OnOk result ((chunk : List Taken)
            × (self.new ≡ record self.old { phase = Writing; chunk = chunk })
            × (length chunk ≡ length self.old.chunk)
            × (IsTrue D.honest → chunk ≡ read_cells self.old (D.content newest.old))) }
        ensures failed { OnErr result (self.new ≡ record self.old { phase = Down }) }
        ensures goes_on { Reads D.Disk self.old self.new newest.old newest.new }
        ensures lowers { OnOk result (left_of self.new < left_of self.old) }
        ensures faults { D.faults newest.new ≡ counted (D.faults newest.old) result }
        ensures called { D.called newest.old
            (Read (HEADER_BYTES + WORD_BYTES * self.old.written)
            (WORD_BYTES * length self.old.chunk))
            (is_ok result) newest.new }
    {
        let place = HEADER_BYTES + WORD_BYTES * self.written;
        let length = WORD_BYTES * self.chunk.len();
        if let Err(refusal) = read_front(newest, place as u64, &mut self.buffer, length) {
            self.go_down();
            return Err(refusal);
        }
        fill(&mut self.chunk, &self.buffer);
        self.phase = Phase::Writing;
        Ok(())
    }

    // Writes the chunk in work.
    pub(super) fn write_chunk<D: Disk>(&mut self, target: &mut D) -> Result<(), Refusal>
        requires phase { self.old.phase ≡ Writing }
        requires room { IsTrue D.honest
            → HEADER_BYTES + WORD_BYTES * self.old.written ≤ length (D.content target.old) }
        ensures ok { OnOk result (self.new ≡ with_chunk_written self.old) }
        ensures failed { OnErr result (self.new ≡ record self.old { phase = Down }) }
        ensures goes_on { GoesOn D.Disk self.old self.new target.old target.new }
        ensures lowers { OnOk result (left_of self.new < left_of self.old) }
        ensures faults { D.faults target.new ≡ counted (D.faults target.old) result }
        ensures called { D.called target.old
            (Write (HEADER_BYTES + WORD_BYTES * self.old.written)
            (flat_map (number_bytes WORD_BYTES) (filled_words self.old.chunk [])))
            (is_ok result) target.new }
    {
        let place = HEADER_BYTES + WORD_BYTES * self.written;
        let count = self.chunk.len();
        encode(&mut self.buffer, &self.chunk);
        if let Err(refusal) = target.write_at(place as u64, &self.buffer[..WORD_BYTES * count]) {
            self.go_down();
            return Err(refusal);
        }
        self.finish_chunk();
        Ok(())
    }

    // Continues with the next chunk, or with the end of the body.
    fn finish_chunk(&mut self)
        requires phase { self.old.phase ≡ Writing }
        ensures ended { self.new ≡ with_chunk_written self.old }
        ensures lowers { left_of self.new < left_of self.old }
    {
        self.written += self.chunk.len();
        self.chunk.clear();
        self.phase = if self.written == self.cells {
            Phase::BodySync
        } else {
            Phase::Taking
        };
    }
}

// Reads `count` bytes to the front of a buffer.
fn read_front<D: Disk>(
    disk: &mut D,
    at: u64,
    buffer: &mut [u8],
    count: usize,
) -> Result<(), Refusal>
    requires room { count ≤ length buffer.old }
    requires inside { IsTrue D.honest → at + count ≤ length (D.content disk.old) }
    ensures read { IsTrue D.honest
        → OnOk result (take count buffer.new ≡ take count (drop at (D.content disk.old))) }
    ensures stays { IsOnlyRead D.Disk disk.old disk.new }
    ensures faults { D.faults disk.new ≡ counted (D.faults disk.old) result }
    ensures called { D.called disk.old (Read at count) (is_ok result) disk.new }
{
    disk.read_at(at, &mut buffer[..count])
}
