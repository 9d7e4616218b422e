ghost use Rattle.std.specs.Prelude.{◌≡◌, ◌+◌, ◌*◌, ◌/◌, if◌then◌else◌, ◌≤◌, ◌<◌, ◌⊎◌, ◌↔◌, ℕ, List};
ghost use Rattle.std.specs.Prelude.{[], false, get_or, IsTrue, OnOk, OnErr, IfOk, IfErr, IfNone};
ghost use Rattle.std.specs.Prelude.{Option, Some, None, ⊤};
ghost use Rattle.world_ticks.specs.declared.tick.TheConstants.{TICK_MAX};
ghost use Rattle.file_format.specs.Slot.{of_slot, in_slot};
ghost use Rattle.capture_core.specs.declared.taker.Taken.{Taken};
ghost use Rattle.image_files.specs.declared.format.TheConstants.{CELLS_MAX};
ghost use Rattle.image_files.specs.declared.phase.Phase.TheVariants.{Idle, Closing, Taking, Down};
ghost use Rattle.image_files.specs.Image.{Image, image_of};
ghost use Rattle.image_files.specs.Images.{ImageFiles, StepsImages};
ghost use Rattle.image_files.specs.Progress.{target_of, done, cells_taken, left_of, made_keeper};
ghost use Rattle.image_files.specs.Progress.{begun_keeper, opened_keeper, IsInOrder};
ghost use Rattle.image_files.specs.Keeper.{Fits, Endures};
ghost use Rattle.image_files.specs.Files.{done_in, FitsFiles, DisksStand};
ghost use Rattle.image_files.specs.Steps.{IfOpened, OnOpened, OnWorking, CallsIn, closed, TookWord};
ghost use Rattle.image_files.specs.Steps.{HasCause, IsOnlyRead, IsOpenedImage};
ghost use Rattle.image_files.specs.Calls.{TookCell};

use crate::answer::ImageAnswer;
use crate::chunk::CHUNK_CELLS;
use crate::format::WORD_BYTES;
use crate::phase::Phase;
use capture_core::{Taken, Taker};
use disk_model::Disk;
use file_format::{CLOSED_GATE, OPEN_GATE, Slot};
use std::alloc::Global;
use std::marker::Model;
use world_actions::Refusal;

mod body;
mod closing;
mod opening;

/// Writes the image of a round, one take or one device call at a time.
#[derive(Drop)]
pub struct ImageKeeper {
    cells: usize,
    newest: Option<(Slot, u64)>,
    target_shut: bool,
    newest_shut: bool,
    phase: Phase,
    tick: u64,
    written: usize,
    chunk: Vec<Taken>,
    buffer: Vec<u8>,
}

impl Model for ImageKeeper {
    ghost use Rattle.image_files.specs.Progress.{Progress};

    ghost Value = { Progress };

    ghost use Rattle.image_files.specs.View.{progress_of, IsReady};

    ghost view = { progress_of };

    ghost invariant = { IsReady };
}

impl ImageKeeper {
    /// Makes a keeper of two files for a world of `cells` cells, with no round in work. It reserves
    /// all that it ever uses. `shut` is exactly what `is_shut` returns for the durable bytes of
    /// image.a and image.b. Don't pass `false` to be safe. A shut file is then closed again, and a
    /// crash during that write can leave it open over bytes that are no image.
    pub fn new(
        alloc: Global,
        cells: u32,
        newest: Option<(Slot, u64)>,
        shut: [bool; 2],
    ) -> Result<Self, Refusal>
        requires some_cells { 1 ≤ cells }
        requires most_cells { cells ≤ CELLS_MAX }
        ensures made { IfOk result (λ keeper.
            keeper ≡ made_keeper cells newest (get_or shut 0 false) (get_or shut 1 false)) }
        ensures memory { IfErr result (λ refusal. refusal ≡ Refusal.NoMemory) }
    {
        let chunk = Vec::with_capacity(alloc, CHUNK_CELLS)?;
        let buffer = vec![in alloc; 0; CHUNK_CELLS * WORD_BYTES]?;
        let [shut_a, shut_b] = shut;
        let (target_shut, newest_shut) = match target_beside(newest) {
            Slot::A => (shut_a, shut_b),
            Slot::B => (shut_b, shut_a),
        };
        Ok(ImageKeeper {
            cells: cells as usize,
            newest,
            target_shut,
            newest_shut,
            phase: Phase::Idle,
            tick: 0,
            written: 0,
            chunk,
            buffer,
        })
    }

    /// Returns the file that the round writes, or the next round will.
    pub fn target(&self) -> Slot
        ensures { result ≡ target_of self.now.newest }
    {
        target_beside(self.newest)
    }

    /// Returns the file of the newest image, and its tick.
    pub fn newest(&self) -> Option<(Slot, u64)>
        ensures { result ≡ self.now.newest }
    {
        self.newest
    }

    /// Returns the number of moves that the round can still need. It is 0 if no round is in work or
    /// the keeper is down.
    pub fn left(&self) -> u64
        ensures { result ≡ left_of self.now }
    {
        let cells = self.cells as u64;
        let rest = cells - (self.written + self.chunk.len()) as u64;
        let chunks = (self.cells - self.written).div_ceil(CHUNK_CELLS) as u64;
        let all_chunks = self.cells.div_ceil(CHUNK_CELLS) as u64;
        match self.phase {
            Phase::Idle | Phase::Down => 0,
            Phase::Closing => cells + 2 * all_chunks + 6,
            Phase::ClosingSync => cells + 2 * all_chunks + 5,
            Phase::Header => cells + 2 * all_chunks + 4,
            Phase::Taking | Phase::Reading => rest + 2 * chunks + 3,
            Phase::Writing => rest + 2 * chunks + 2,
            Phase::BodySync => 3,
            Phase::Opening => 2,
            Phase::OpeningSync => 1,
        }
    }

    /// True if a call of a device failed.
    pub fn is_down(&self) -> bool
        ensures { IsTrue result ↔ (self.now.phase ≡ Down) }
    {
        self.phase == Phase::Down
    }

    /// True if a round is in work, also one in which the keeper went down.
    pub fn has_open_round(&self) -> bool
        ensures { IsTrue result ↔ (self.now.phase ≡ Idle → ⊥) }
    {
        self.phase != Phase::Idle
    }

    /// True if the next step takes a cell, and calls no device.
    pub fn takes_next(&self) -> bool
        ensures { IsTrue result ↔ (self.now.phase ≡ Taking) }
    {
        self.phase == Phase::Taking
    }

    /// Begins a round. It needs one move for each cell, at most two for each chunk of 64, and six
    /// others. These are four if the target is known to be shut.
    pub fn begin(&mut self, tick: u64)
        requires idle { self.old.phase ≡ Idle }
        requires most { tick ≤ TICK_MAX }
        ensures begun { self.new ≡ begun_keeper tick self.old }
        ensures left { left_of self.new + (if self.old.target_shut then 2 else 0)
            ≡ self.old.cells + 2 * ((self.old.cells + 63) / 64) + 6 }
        ensures done { (target newest : List ℕ) → done self.new target newest ≡ [] }
        ensures fits { (target newest : List ℕ) → Fits self.old target newest
            → Fits self.new target newest }
    {
        self.chunk.clear();
        self.written = 0;
        self.tick = tick;
        self.phase = if self.target_shut {
            Phase::Header
        } else {
            Phase::Closing
        };
    }

    /// Makes the next step: one take, or at most one device call. The two files are the keeper's
    /// own, and nothing else may change them. The round writes one of them. The other holds the
    /// newest image, once there is one.
    pub fn step<T: Taker, D: Disk>(
        &mut self,
        from: &mut T,
        image_a: &mut D,
        image_b: &mut D,
    ) -> ImageAnswer
        requires fits { IsTrue D.honest
            → FitsFiles self.old (D.content image_a.old) (D.content image_b.old) }

        // Answers: Idle if no round is in work. Opened if the last call of a round succeeded, which
        // ends the round. Down from a failed call on. Else Working. With Idle, and once it is down,
        // nothing changes.
        ensures idle { (result ≡ ImageAnswer.Idle) ↔ (self.old.phase ≡ Idle) }
        ensures ended { IfOpened result (self.new ≡ opened_keeper self.old)
            ((self.new.tick ≡ self.old.tick) × (self.new.newest ≡ self.old.newest)) }
        ensures down { (result ≡ ImageAnswer.Down) ↔ (self.new.phase ≡ Down) }
        ensures goes_on { OnWorking result (self.new.phase ≡ Idle → ⊥) }
        ensures rests { (self.old.phase ≡ Idle) ⊎ (self.old.phase ≡ Down)
            → (self.new ≡ self.old) × (image_a.new ≡ image_a.old) × (image_b.new ≡ image_b.old) }

        // Counts: a round that continues has less left, except if a take gave no cell while cells
        // were still to be taken.
        ensures working { OnWorking result ((left_of self.new < left_of self.old)
            ⊎ ((cells_taken self.old < self.old.cells) × T.took from.old None from.new
            × (from.new ≡ from.old) × (self.new ≡ self.old))) }
        ensures cells { self.new.cells ≡ self.old.cells }

        // Takes: a step takes a cell, or leaves the taker. All cells are taken when the
        // image is opened.
        ensures taken { ((from.new ≡ from.old)
            × IfOpened result ⊤ (cells_taken self.new ≡ cells_taken self.old))
            ⊎ ((cell : Taken) × T.took from.old (Some cell) from.new
            × (cells_taken self.new ≡ cells_taken self.old + 1)) }
        ensures all_taken { IfOpened result (cells_taken self.old ≡ self.old.cells) ⊤ }

        // Words: a take adds the cell's own word, or the newest image's word of that cell.
        // No other step changes the words. An opened image has the words of the round,
        // whatever a crash leaves.
        ensures took { self.old.phase ≡ Taking
            → (cell : Option Taken) × T.took from.old cell from.new
            × (IsTrue D.honest → TookWord cell self.old
            (of_slot (target_of self.old.newest) (D.content image_b.old) (D.content image_a.old))
            (done_in self.old (D.content image_a.old) (D.content image_b.old))
            (done_in self.new (D.content image_a.new) (D.content image_b.new))) }
        ensures done { (self.old.phase ≡ Taking → ⊥) → IsTrue D.honest → IfOpened result ⊤
            (done_in self.new (D.content image_a.new) (D.content image_b.new)
            ≡ done_in self.old (D.content image_a.old) (D.content image_b.old)) }
        ensures opened { IsTrue D.honest → OnOpened result (IsOpenedImage self.old
            (done_in self.old (D.content image_a.old) (D.content image_b.old))
            (of_slot (target_of self.old.newest) (D.content image_a.new) (D.content image_b.new))
            (in_slot (target_of self.old.newest) (D.may_leave image_a.new)
            (D.may_leave image_b.new))) }

        // Disks: by the keeper's phase there is no call, or one call on one of the disks. The
        // newest image's file is only read. Down comes only once a call failed, and no failure is
        // passed over. A file is closed by the closed gate, and by no other byte.
        ensures newest { IsOnlyRead D.Disk
            (of_slot (target_of self.old.newest) image_b.old image_a.old)
            (of_slot (target_of self.old.newest) image_b.new image_a.new) }
        ensures calls { CallsIn self.old.phase D.called
            (of_slot (target_of self.old.newest) image_a.old image_b.old)
            (of_slot (target_of self.old.newest) image_a.new image_b.new)
            (of_slot (target_of self.old.newest) image_b.old image_a.old)
            (of_slot (target_of self.old.newest) image_b.new image_a.new) }
        ensures cause { HasCause result self.old.phase (D.faults image_a.old) (D.faults image_a.new)
            (D.faults image_b.old) (D.faults image_b.new) }
        ensures closes { IsTrue D.honest → self.old.phase ≡ Closing → OnWorking result
            (of_slot (target_of self.old.newest) (D.content image_a.new) (D.content image_b.new)
            ≡ closed
            (of_slot (target_of self.old.newest) (D.content image_a.old) (D.content image_b.old))) }

        // Crashes: the next step may be made. The images that keeper and files represent change
        // by takes and openings. `images_stay` begins that relation, and states what a crash
        // leaves of such files.
        ensures fits { IsTrue D.honest
            → FitsFiles self.new (D.content image_a.new) (D.content image_b.new) }
        ensures stands { IsTrue D.honest → (images : ImageFiles)
            → DisksStand D.Disk self.old images image_a.old image_b.old → (next : ImageFiles)
            × DisksStand D.Disk self.new next image_a.new image_b.new
            × StepsImages T.took self.old.cells images result next from.old from.new }
    {
        match self.target() {
            Slot::A => self.step_by_phase(from, image_a, image_b),
            Slot::B => self.step_by_phase(from, image_b, image_a),
        }
    }
}

impl ImageKeeper {
    // Makes a step by the keeper's phase. States its effect on the phase, on the words so far, and
    // on the bytes that a crash may leave.
    #[tactic(auto, unfolding(crate::specs::Image::image_of))]
    fn step_by_phase<T: Taker, D: Disk>(
        &mut self,
        from: &mut T,
        target: &mut D,
        newest: &mut D,
    ) -> ImageAnswer
        requires fits { IsTrue D.honest
            → Fits self.old (D.content target.old) (D.content newest.old) }

        // The next step may be made. An opened image is the newest one, and its file is the
        // newest image's file.
        ensures fits { IsTrue D.honest → IfOpened result
            (Fits self.new (D.content newest.new) (D.content target.new))
            (Fits self.new (D.content target.new) (D.content newest.new)) }
        ensures endures { IsTrue D.honest → (before : Image)
            → Endures self.old before (D.content target.old) (D.content newest.old)
            (D.may_leave target.old) (D.may_leave newest.old)
            → IfOpened result
            (Endures self.new (image_of (D.content newest.new)) (D.content newest.new)
            (D.content target.new) (D.may_leave newest.new) (D.may_leave target.new))
            (Endures self.new before (D.content target.new) (D.content newest.new)
            (D.may_leave target.new) (D.may_leave newest.new)) }

        ensures opened { IsTrue D.honest → OnOpened result (IsOpenedImage self.old
            (done self.old (D.content target.old) (D.content newest.old))
            (D.content target.new) (D.may_leave target.new)) }

        // A step takes a cell, whose word is then done, or leaves the taker and the words.
        ensures took { self.old.phase ≡ Taking → (cell : Option Taken)
            × T.took from.old cell from.new × IfNone cell (from.new ≡ from.old)
            × TookCell cell self.old self.new
            × (IsTrue D.honest → TookWord cell self.old (D.content newest.old)
            (done self.old (D.content target.old) (D.content newest.old))
            (done self.new (D.content target.new) (D.content newest.new))) }
        ensures not_took { (self.old.phase ≡ Taking → ⊥) → from.new ≡ from.old }
        ensures done { (self.old.phase ≡ Taking → ⊥) → IsTrue D.honest → IfOpened result ⊤
            (done self.new (D.content target.new) (D.content newest.new)
            ≡ done self.old (D.content target.old) (D.content newest.old)) }
        ensures counted { (self.old.phase ≡ Taking → ⊥) → IfOpened result
            (cells_taken self.old ≡ self.old.cells) (cells_taken self.new ≡ cells_taken self.old) }

        // It makes progress, except if a take gave no cell.
        ensures working { OnWorking result ((left_of self.new < left_of self.old)
            ⊎ ((self.old.phase ≡ Taking) × (cells_taken self.old < self.old.cells)
            × T.took from.old None from.new × (from.new ≡ from.old) × (self.new ≡ self.old))) }
        ensures goes_on { OnWorking result (self.new.phase ≡ Idle → ⊥) }
        ensures takes { self.old.phase ≡ Taking → result ≡ ImageAnswer.Working }
        ensures idle { (result ≡ ImageAnswer.Idle) ↔ (self.old.phase ≡ Idle) }
        ensures down { (result ≡ ImageAnswer.Down) ↔ (self.new.phase ≡ Down) }

        // The target is closed by the closed gate, and by no other byte.
        ensures closes { IsTrue D.honest → self.old.phase ≡ Closing
            → OnWorking result (D.content target.new ≡ closed (D.content target.old)) }

        // Nothing else of the round changes, and an opened image ends it.
        ensures cells { self.new.cells ≡ self.old.cells }
        ensures ended { IfOpened result (self.new ≡ opened_keeper self.old)
            ((self.new.tick ≡ self.old.tick) × (self.new.newest ≡ self.old.newest)) }
        ensures rests { (self.old.phase ≡ Idle) ⊎ (self.old.phase ≡ Down) → self.new ≡ self.old }

        ensures calls { CallsIn self.old.phase D.called
            target.old target.new newest.old newest.new }
        ensures cause { HasCause result self.old.phase (D.faults target.old) (D.faults target.new)
            (D.faults newest.old) (D.faults newest.new) }

        // No step writes to the newest image's file.
        ensures newest { IsOnlyRead D.Disk newest.old newest.new }
    {
        match self.phase {
            Phase::Idle => ImageAnswer::Idle,
            Phase::Closing => {
                self.follow(target.write_at(0, &[CLOSED_GATE]), Phase::ClosingSync)
            }
            Phase::ClosingSync => answer(self.close_durably(target)),
            Phase::Header => answer(self.write_header(target)),
            Phase::Taking => {
                self.take_cell(from);
                ImageAnswer::Working
            }
            Phase::Reading => answer(self.read_chunk(newest)),
            Phase::Writing => answer(self.write_chunk(target)),
            Phase::BodySync => self.follow(target.sync(), Phase::Opening),
            Phase::Opening => self.follow(target.write_at(0, &[OPEN_GATE]), Phase::OpeningSync),
            Phase::OpeningSync => match self.finish(target) {
                Ok(tick) => ImageAnswer::Opened(tick),
                Err(_) => ImageAnswer::Down,
            },
            Phase::Down => ImageAnswer::Down,
        }
    }

    // Goes on to this phase after a call of a device, or goes down if the call failed.
    fn follow(&mut self, call: Result<(), Refusal>, next: Phase) -> ImageAnswer
        requires in_order { IsInOrder (record self.old { phase = next }) }
        ensures ok { OnOk call
            ((result ≡ ImageAnswer.Working) × (self.new ≡ record self.old { phase = next })) }
        ensures failed { OnErr call
            ((result ≡ ImageAnswer.Down) × (self.new ≡ record self.old { phase = Down })) }
    {
        match call {
            Ok(()) => {
                self.phase = next;
                ImageAnswer::Working
            }
            Err(_) => {
                self.go_down();
                ImageAnswer::Down
            }
        }
    }

    fn go_down(&mut self)
        ensures { self.new ≡ record self.old { phase = Down } }
    {
        self.phase = Phase::Down;
    }
}

fn answer(outcome: Result<(), Refusal>) -> ImageAnswer
    ensures ok { OnOk outcome (result ≡ ImageAnswer.Working) }
    ensures err { OnErr outcome (result ≡ ImageAnswer.Down) }
{
    match outcome {
        Ok(()) => ImageAnswer::Working,
        Err(_) => ImageAnswer::Down,
    }
}

// Returns the file that is not the newest image's.
fn target_beside(newest: Option<(Slot, u64)>) -> Slot
    ensures { result ≡ target_of newest }
{
    match newest {
        None => Slot::A,
        Some((slot, _)) => slot.other(),
    }
}
