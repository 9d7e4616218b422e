ghost use Rattle.std.specs.Prelude.{◌≡◌, List, ℕ, length, Ok};
ghost use Rattle.world_actions.specs.declared.action.Action.{Action};
ghost use Rattle.world_actions.specs.World.{IsWorld};
ghost use Rattle.world_actions.specs.Effect.{effect};

/// The greatest word, value and amount.
pub const LIMIT: u64 = 999_999_999_999_999_999;

/// The greatest number of cells of a world; the least is 1.
pub const CELLS: u32 = 1_048_576;

/// A law: the world after an accepted action is a world with as many cells.
pub fn effect_keeps_world()
    ensures { (world after : List ℕ) (action : Action) → IsWorld world
        → effect world action ≡ Ok after
        → IsWorld after × (length after ≡ length world) }
{}
