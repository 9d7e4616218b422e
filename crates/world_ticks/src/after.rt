ghost use Rattle.std.specs.Prelude.{◌≡◌, ℕ, List, ◌++◌, length, Ok};
ghost use Rattle.world_actions.specs.declared.action.Action.{Action};
ghost use Rattle.world_actions.specs.Effect.{written};
ghost use Rattle.world_ticks.specs.After.{and_then, after_actions, after_ticks, accepted_writes};

/// Laws: the world after actions is the world after the first of them, followed by the rest. It is
/// the old world with their writes, and it has as many cells.
pub fn actions_go_on()
    ensures append { (world : List ℕ) (before after : List Action)
        → after_actions world (before ++ after)
        ≡ and_then (after_actions world before) (λ next. after_actions next after) }
    ensures writes { (world after : List ℕ) (actions : List Action)
        → after_actions world actions ≡ Ok after
        → written world (accepted_writes world actions) ≡ after }
    ensures lengths { (world after : List ℕ) (actions : List Action)
        → after_actions world actions ≡ Ok after
        → length after ≡ length world }
    ensures cells { (first after : List ℕ) (ticks : List (List Action))
        → after_ticks first ticks ≡ Ok after
        → length after ≡ length first }
{}
