ghost use Rattle.std.specs.Prelude.{◌≡◌, ◌-◌, ◌≤◌, ℕ, List, true, false, length, vec_capacity};
ghost use Rattle.std.specs.Prelude.{IsTrue, if◌then◌else◌, is_err, [], ◌∷◌};
ghost use Rattle.world_ticks.specs.declared.tick.TheConstants.{TICK_MAX};
ghost use Rattle.file_format.specs.declared.gate.TheConstants.{CLOSED_GATE};
ghost use Rattle.disk_model.specs.Disk.{Write};
ghost use Rattle.action_log.specs.declared.format.TheConstants.{BASE_PLACE, HEADER_BYTES};
ghost use Rattle.action_log.specs.declared.phase.Phase.TheVariants.{Ready, Closing, Header};
ghost use Rattle.action_log.specs.Written.{header};
ghost use Rattle.action_log.specs.Steps.{after_call, with_switch, switched, CallOnOther};

use super::Progress;
use crate::encoding::put_header;
use crate::format::{BASE_PLACE, FIRST_GROUP};
use crate::phase::Phase;
use disk_model::Disk;
use file_format::CLOSED_GATE;
use world_actions::Refusal;

// The calls of a switch to the other segment, on its file.
impl Progress {
    // Writes a closed gate.
    pub(super) fn close<D: Disk>(&mut self, other: &mut D) -> Result<(), Refusal>
        requires phase { self.old.phase ≡ Closing }
        requires up { self.old.down ≡ false }
        ensures moved { self.new ≡ after_call self.old (is_err result) }
        ensures call { CallOnOther D.Disk
            (Write 0 (CLOSED_GATE ∷ [])) result self.old self.new other.old other.new }
    {
        self.write(other, 0, &[CLOSED_GATE], Phase::ClosingSync)
    }

    // Writes the base, and a closed gate in place of the first group.
    pub(super) fn write_header<D: Disk>(
        &mut self,
        buffer: &mut Vec<u8>,
        other: &mut D,
    ) -> Result<(), Refusal>
        requires buffer { HEADER_BYTES - BASE_PLACE ≤ vec_capacity buffer.old }
        requires room { IsTrue D.honest → 1 ≤ length (D.content other.old) }
        requires numbered { self.old.next_base ≤ TICK_MAX }
        requires phase { self.old.phase ≡ Header }
        requires up { self.old.down ≡ false }
        ensures moved { self.new ≡ after_call self.old (is_err result) }
        ensures call { CallOnOther D.Disk
            (Write BASE_PLACE (header self.old.next_base)) result self.old
            self.new other.old other.new }
        ensures capacity { vec_capacity buffer.old ≤ vec_capacity buffer.new }
    {
        put_header(buffer, self.next_base);
        self.write(other, BASE_PLACE as u64, buffer, Phase::HeaderSync)
    }

    // Makes the new segment the current one. The files exchange their parts.
    pub(super) fn exchange(&mut self)
        requires phase { self.old.phase ≡ Ready }
        ensures { self.new ≡ switched self.old }
    {
        self.current = self.current.other();
        self.other_shut = self.starting;
        self.starting = false;
        self.base = self.next_base;
        self.count = 0;
        self.place = FIRST_GROUP as u64;
        self.next = FIRST_GROUP as u64;
    }

    // Returns the first phase of a switch to the other segment. A file that is known to be shut
    // isn't closed again.
    pub(super) fn first_of_switch(&self) -> Phase
        ensures { result ≡ if self.now.other_shut then Header else Closing }
    {
        if self.other_shut {
            Phase::Header
        } else {
            Phase::Closing
        }
    }

    // Begins a switch to the other segment, and makes its first call.
    pub(super) fn begin_switch<D: Disk>(
        &mut self,
        buffer: &mut Vec<u8>,
        tick: u64,
        other: &mut D,
    ) -> Result<(), Refusal>
        requires buffer { HEADER_BYTES - BASE_PLACE ≤ vec_capacity buffer.old }
        requires numbered { tick ≤ TICK_MAX }
        requires after_start { self.old.starting ≡ false }
        requires phase { self.old.phase ≡ Ready }
        requires up { self.old.down ≡ false }
        requires room { IsTrue D.honest → self.old.other_shut ≡ true
            → 1 ≤ length (D.content other.old) }
        ensures moved { self.new ≡ with_switch self.old tick (is_err result) }
        ensures call { CallOnOther D.Disk (if self.old.other_shut
            then Write BASE_PLACE (header tick) else Write 0 (CLOSED_GATE ∷ []))
            result self.old self.new other.old other.new }
        ensures capacity { vec_capacity buffer.old ≤ vec_capacity buffer.new }
    {
        self.next_base = tick;
        self.phase = self.first_of_switch();
        if self.other_shut {
            self.write_header(buffer, other)
        } else {
            self.close(other)
        }
    }
}
