ghost use Rattle.std.specs.Prelude.{◌≡◌, ◌≤◌, ℕ, Bool, true, List, Option, Some, None, length};
ghost use Rattle.world_ticks.specs.declared.tick.TheConstants.{TICK_MAX};
ghost use Rattle.disk_model.specs.Disk.{Only};
ghost use Rattle.file_format.specs.Gate.{HasShutGate};
ghost use Rattle.file_format.specs.declared.slot.Slot.{Slot};
ghost use Rattle.image_files.specs.declared.format.TheConstants.{CELLS_MAX};
ghost use Rattle.image_files.specs.declared.phase.Phase.TheVariants.{Idle};
ghost use Rattle.image_files.specs.Images.{Round, ImageFiles, ImageFilesAre, newest_in, round_in};
ghost use Rattle.image_files.specs.Images.{with_round};
ghost use Rattle.image_files.specs.Progress.{Progress, made_keeper, begun_keeper, cells_taken};
ghost use Rattle.image_files.specs.Files.{FitsFiles, DisksStand, HoldsNewest, ReportsShut};
ghost use Rattle.image_files.specs.Files.{IsReported};

use disk_model::Disk;

/// Laws of a keeper and its files by their names. A new keeper may step. If nothing of the files is
/// unsynced, it represents the images for which it was made. A round that it begins also begins in
/// these images. Its newest image and its round are those of the images. Between two rounds nothing
/// of the files is unsynced. Whatever a crash leaves holds these images.
pub fn images_stay<D: Disk>()
    ensures fits { (cells : ℕ) (newest : Option (Slot × ℕ)) (shut_a shut_b : Bool)
        (image_a image_b : List ℕ) → 1 ≤ cells → cells ≤ CELLS_MAX
        → HoldsNewest cells newest image_a image_b
        → (shut_a ≡ true → HasShutGate image_a) → (shut_b ≡ true → HasShutGate image_b)
        → FitsFiles (made_keeper cells newest shut_a shut_b) image_a image_b }
    ensures made { (cells : ℕ) (newest : Option (Slot × ℕ)) (shut_a shut_b : Bool)
        (images : ImageFiles) (image_a image_b : D) → 1 ≤ cells → cells ≤ CELLS_MAX
        → Only (D.content image_a) (D.may_leave image_a)
        → Only (D.content image_b) (D.may_leave image_b)
        → ReportsShut shut_a (D.content image_a) → ReportsShut shut_b (D.content image_b)
        → IsReported cells newest images (D.content image_a) (D.content image_b)
        → DisksStand D.Disk (made_keeper cells newest shut_a shut_b) images image_a image_b }
    ensures begun { (keeper : Progress) (tick : ℕ) (images : ImageFiles) (image_a image_b : D)
        → keeper.phase ≡ Idle → tick ≤ TICK_MAX
        → DisksStand D.Disk keeper images image_a image_b
        → DisksStand D.Disk (begun_keeper tick keeper) (with_round tick images) image_a image_b }
    ensures newest { (keeper : Progress) (images : ImageFiles) (image_a image_b : D)
        → DisksStand D.Disk keeper images image_a image_b → keeper.newest ≡ newest_in images }
    ensures idle { (keeper : Progress) (images : ImageFiles) (image_a image_b : D)
        → DisksStand D.Disk keeper images image_a image_b → keeper.phase ≡ Idle
        → round_in images ≡ None }
    ensures rests { (keeper : Progress) (images : ImageFiles) (image_a image_b : D)
        → DisksStand D.Disk keeper images image_a image_b → keeper.phase ≡ Idle
        → Only (D.content image_a) (D.may_leave image_a)
        × Only (D.content image_b) (D.may_leave image_b) }
    ensures round { (keeper : Progress) (images : ImageFiles) (image_a image_b : D)
        → DisksStand D.Disk keeper images image_a image_b
        → (keeper.phase ≡ Idle → ⊥) → (round : Round) × (round_in images ≡ Some round)
        × (round.tick ≡ keeper.tick) × (length round.taken ≡ cells_taken keeper) }
    ensures left { (keeper : Progress) (images : ImageFiles) (image_a image_b : D)
        → DisksStand D.Disk keeper images image_a image_b
        → ImageFilesAre keeper.cells images (D.may_leave image_a) (D.may_leave image_b) }
{}
