ghost use Rattle.std.specs.Prelude.{◌≡◌, ◌↔◌, ◌+◌, ◌<◌, ◌≤◌, ℕ, Bool, true, false, IsTrue, ◌++◌};
ghost use Rattle.std.specs.Prelude.{◌∷◌, [], List, None, length, take};
ghost use Rattle.world_ticks.specs.declared.tick.TheConstants.{TICK_MAX};
ghost use Rattle.world_ticks.specs.Tick.{Actions};
ghost use Rattle.file_format.specs.Gate.{HasShutGate, HasNoShutGate};
ghost use Rattle.file_format.specs.Slot.{of_slot};
ghost use Rattle.disk_model.specs.Disk.{Only};
ghost use Rattle.action_log.specs.declared.format.TheConstants.{HEADER_BYTES, SEGMENT_BYTES_MAX};
ghost use Rattle.action_log.specs.declared.format.TheConstants.{SEGMENT_TICKS};
ghost use Rattle.action_log.specs.declared.phase.Phase.TheVariants.{Ready};
ghost use Rattle.action_log.specs.declared.progress.Progress.{Progress};
ghost use Rattle.action_log.specs.declared.record.Record.{Record};
ghost use Rattle.action_log.specs.declared.record.Record.TheVariants as records;
ghost use Rattle.action_log.specs.Segment.{Tick, Segment, OpenSegment, IsSegment, IsOpenSegment};
ghost use Rattle.action_log.specs.Segment.{EndsGroups, joined};
ghost use Rattle.action_log.specs.Extent.{HasNoGroups, IsExtent, ReadsAlike};
ghost use Rattle.action_log.specs.Spellings.{LawOfSpellings, ReadsOnce, EachReads};
ghost use Rattle.action_log.specs.Progress.{begun, start_left, QueueFollows, end_of};
ghost use Rattle.action_log.specs.Logs.{Logs, Writing, JournalIs, LogPlace, start_of, start_moves};
ghost use Rattle.action_log.specs.Files.{FitsFiles};
ghost use Rattle.action_log.specs.Stands.{DisksStand};

use disk_model::Disk;

/// Laws: no spelling of an action, a tick or a group is a prefix of another one's of the same
/// format. Each list of bytes reads in exactly one way.
pub fn segments_read_once()
    ensures apart { LawOfSpellings }
    ensures once { ReadsOnce }
    ensures each { EachReads }
{}

/// Laws: the reading of a segment by its first bytes. No byte counts after a gate that ends the
/// groups, or after a header that is malformed or closed. A segment is malformed if its groups go
/// on past the greatest length. The groups of an open segment end where its extent does, within the
/// greatest length. A segment that is cut there has the groups of the extent.
pub fn segment_extents()
    ensures ended { (bytes file : List ℕ) (groups_end ticks : ℕ)
        → IsExtent bytes groups_end ticks true
        → take (groups_end + 1) file ≡ take (groups_end + 1) bytes → ReadsAlike bytes file }
    ensures past { (bytes behind : List ℕ) (groups_end ticks : ℕ)
        → IsExtent bytes groups_end ticks false
        → SEGMENT_BYTES_MAX ≤ length bytes → ReadsAlike bytes (bytes ++ behind) }
    ensures headless { (bytes behind : List ℕ) → HasNoGroups bytes → HEADER_BYTES ≤ length bytes
        → ReadsAlike bytes (bytes ++ behind) }
    ensures whole { (bytes : List ℕ) (groups_end ticks : ℕ) (ended : Bool)
        (base : ℕ) (list : List Tick)
        → IsExtent bytes groups_end ticks ended → (segment : IsOpenSegment bytes base list)
        → (groups_end + length segment.rest ≡ length bytes) × (groups_end < SEGMENT_BYTES_MAX) }
    ensures cut { (bytes : List ℕ) (groups_end ticks : ℕ) (ended : Bool)
        → (extent : IsExtent bytes groups_end ticks ended) → (behind : List ℕ) → EndsGroups behind
        → HEADER_BYTES ≤ groups_end + length behind
        → IsSegment (take groups_end bytes ++ behind)
        (OpenSegment extent.base (joined extent.groups)) }
{}

/// Laws: the records that may be queued after others, and the base and count after them.
pub fn log_queues()
    ensures begins { (tick : ℕ) (shut_a shut_b : Bool) → QueueFollows (begun tick shut_a shut_b) []
        × (end_of (begun tick shut_a shut_b) [] ≡ record { base = tick; count = 0 }) }
    ensures tick { (keeper : Progress) (queue : List Record) (tick : Actions)
        → QueueFollows keeper queue
        → (end_of keeper queue).count < SEGMENT_TICKS
        → (end_of keeper queue).base + (end_of keeper queue).count < TICK_MAX
        → QueueFollows keeper (queue ++ records.Tick tick ∷ [])
        × (end_of keeper (queue ++ records.Tick tick ∷ [])
        ≡ record { base = (end_of keeper queue).base; count = (end_of keeper queue).count + 1 }) }
    ensures switch { (keeper : Progress) (queue : List Record) (tick : ℕ)
        → QueueFollows keeper queue
        → (end_of keeper queue).base + (end_of keeper queue).count ≤ tick → tick ≤ TICK_MAX
        → QueueFollows keeper (queue ++ records.Switch tick ∷ [])
        × (end_of keeper (queue ++ records.Switch tick ∷ []) ≡ record { base = tick; count = 0 }) }
{}

/// Laws: a keeper and its two files represent a place of the log, from the beginning of the start
/// on. The files read as that place says, whatever a crash leaves of them. A new keeper fits its
/// files only by their contents. A keeper that is ready has nothing in work and nothing unsynced.
/// After the start its segment is then open, with the ticks that it counts.
pub fn log_outcomes<D: Disk>()
    ensures reads { (keeper : Progress) (a b : _) (place : LogPlace)
        → DisksStand D.Disk keeper a b place
        → JournalIs place.journal (D.may_leave a) (D.may_leave b) }
    ensures fits { (keeper : Progress) (a b : _) (place : LogPlace)
        → DisksStand D.Disk keeper a b place → FitsFiles keeper (D.content a) (D.content b) }
    ensures left { (keeper : Progress) (a b : _) (place : LogPlace)
        → DisksStand D.Disk keeper a b place
        → (IsTrue keeper.starting ↔ (0 < place.left))
        × (keeper.down ≡ false → place.left ≡ start_left keeper) }
    ensures begins { (tick : ℕ) (shut_a shut_b : Bool) (a b : _) (before_a before_b : Segment)
        → tick ≤ TICK_MAX → Only (D.content a) (D.may_leave a) → Only (D.content b) (D.may_leave b)
        → (shut_a ≡ true → HasShutGate (D.content a))
        → (shut_a ≡ false → HasNoShutGate (D.content a))
        → (shut_b ≡ true → HasShutGate (D.content b))
        → (shut_b ≡ false → HasNoShutGate (D.content b))
        → IsSegment (D.content a) before_a → IsSegment (D.content b) before_b
        → DisksStand D.Disk (begun tick shut_a shut_b) a b
        (start_of tick before_a before_b (start_moves shut_a shut_b)) }
    ensures made { (tick : ℕ) (shut_a shut_b : Bool) (log_a log_b : List ℕ) → tick ≤ TICK_MAX
        → (shut_a ≡ true → HasShutGate log_a) → (shut_b ≡ true → HasShutGate log_b)
        → FitsFiles (begun tick shut_a shut_b) log_a log_b }
    ensures ready { (keeper : Progress) (a b : _) (logs : Logs) (left : ℕ)
        → DisksStand D.Disk keeper a b (record { journal = Writing logs; left = left })
        → keeper.phase ≡ Ready
        → (logs.pending ≡ []) × (logs.switch ≡ None) × (logs.base ≡ keeper.base) }
    ensures rests { (keeper : Progress) (a b : _) (place : LogPlace)
        → DisksStand D.Disk keeper a b place → keeper.phase ≡ Ready
        → Only (D.content a) (D.may_leave a) × Only (D.content b) (D.may_leave b) }
    ensures settled { (keeper : Progress) (a b : List ℕ)
        → FitsFiles keeper a b → keeper.phase ≡ Ready
        → keeper.starting ≡ false → (ticks : List Tick) × (length ticks ≡ keeper.count)
        × IsSegment (of_slot keeper.current a b) (OpenSegment keeper.base ticks) }
{}
