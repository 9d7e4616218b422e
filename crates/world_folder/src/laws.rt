//! Why a copy of a log that grows under it is whole, and why no sound world is refused for a gap.
ghost use Rattle.std.specs.Prelude.{◌≡◌, ◌≤◌, ℕ, List, false};
ghost use Rattle.world_actions.specs.declared.action.Action.{Action};
ghost use Rattle.image_files.specs.Image.{Image};
ghost use Rattle.action_log.specs.Segment.{Tick, Segment, OpenSegment, IsSegment};
ghost use Rattle.recovery.specs.Sound.{IsSoundReading};
ghost use Rattle.world_folder.specs.Forward.{IsCopied, IsGrowing};
ghost use Rattle.world_folder.specs.Lost.{begins_after};

/// Law: a segment may grow while it is copied from its first byte on. The copy reads as the
/// segment did at one moment after the copy began. So it has every group that was open then, and
/// no part of another one.
pub fn copies_are_of_a_moment()
    ensures { (file : ℕ → List ℕ) (base : ℕ) (ticks : ℕ → List Tick) → IsGrowing file base ticks
        → (began : ℕ) (copy : List ℕ) → IsCopied file 0 began copy
        → (moment : ℕ) × (began ≤ moment) × IsSegment copy (OpenSegment base (ticks moment)) }
{}

/// Law: no segment of a sound world begins after the tick that is recovered from its files. A crash
/// leaves sound files, so files that a crash left are never refused for a gap.
pub fn sound_files_have_no_gap()
    ensures { (image_a image_b : Image) (log_a log_b : List ℕ) (a b : Segment) (first : List ℕ)
        (ticks : List (List Action)) (acknowledged : ℕ) → IsSegment log_a a → IsSegment log_b b
        → (sound : IsSoundReading image_a image_b a b first ticks acknowledged)
        → (begins_after sound.recovery.tick log_a ≡ false)
        × (begins_after sound.recovery.tick log_b ≡ false) }
{}
