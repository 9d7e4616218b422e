use crate::gate::{Gate, Pass, Place};

/// Lets its worker make `left` steps, and then holds it for good. Workers that are cut off leave
/// their files as a crash between two steps would.
#[derive(Clone, Copy, Debug, Drop)]
pub struct Cut {
    /// How many steps are left.
    pub left: u64,
}

impl Gate for Cut {
    ghost use Rattle.std.specs.Prelude.{◌≡◌, ◌<◌, ◌+◌};
    ghost use Rattle.workers.specs.declared.gate.Pass.TheVariants.{Go, Stuck};

    ghost answers = { λ old place pass new. (old.left ≡ 0 → (pass ≡ Stuck) × (new.left ≡ 0))
        × (0 < old.left → (pass ≡ Go) × (new.left + 1 ≡ old.left)) };

    fn at(&mut self, _place: Place) -> Pass {
        if self.left == 0 {
            return Pass::Stuck;
        }
        self.left -= 1;
        Pass::Go
    }
}
