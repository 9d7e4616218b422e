//! Gates, which can hold a worker at a step.
ghost use Rattle.std.specs.Prelude.{◌≡◌, true, false};
ghost use Rattle.workers.specs.Gates.{MayGo, MayStick};

use std::sync::Wait;
use std::thread;

/// A step of a worker.
#[derive(Clone, Copy, Debug, PartialEq, Eq)]
pub enum Place {
    /// The mutator runs a batch.
    Tick,
    /// The checkpointer takes a cell.
    Take,
    /// The checkpointer or the log writer calls a device.
    Device,
}

/// The answer of a gate: the worker may make its step, or not.
#[derive(Clone, Copy, Debug, PartialEq, Eq)]
pub enum Pass {
    Go,
    /// Not yet.
    Again,
    /// Never.
    Stuck,
}

/// A gate is asked before each batch, each take of a cell and each call of a device, in the
/// worker's thread. Tests use gates to hold workers.
pub trait Gate {
    ghost use Rattle.workers.specs.declared.gate.Place.{Place};
    ghost use Rattle.workers.specs.declared.gate.Pass.{Pass};

    /// The answers that the gate may give in each state, and the state after each.
    ghost answers: { Self → Place → Pass → Self → Type 0 };

    fn at(&mut self, place: Place) -> Pass
        ensures { answers self.old place result self.new };
}

/// Lets every step pass.
#[derive(Clone, Copy, Debug, Drop)]
pub struct Open;

impl Gate for Open {
    ghost use Rattle.std.specs.Prelude.{◌≡◌};
    ghost use Rattle.workers.specs.declared.gate.Pass.TheVariants.{Go};

    ghost answers = { λ old place pass new. pass ≡ Go };

    fn at(&mut self, _place: Place) -> Pass {
        Pass::Go
    }
}

/// Asks until the gate lets the step pass, or says that it never will. Returns true if the
/// step may be made.
pub(crate) fn passes<R: Wait, G: Gate>(rt: &R, gate: &mut G, place: Place) -> bool
    ensures goes { result ≡ true → MayGo G.answers place }
    ensures sticks { result ≡ false → MayStick G.answers place }
{
    for _ in rt.forever() {
        match gate.at(place) {
            Pass::Go => return true,
            Pass::Stuck => return false,
            Pass::Again => thread::yield_now(),
        }
    }
    unreachable!()
}
