ghost use Rattle.std.specs.Prelude.{◌≡◌, OnOk, OnErr};
ghost use Rattle.world_actions.specs.Effect.{writes_of};
ghost use Rattle.capture_core.specs.Content.{content_after};

use super::moves::{Move, follow};
use super::same::same;
use capture_core::{Capture, PlainCopy, accesses_write};
use std::alloc::Global;
use std::process::Abort;
use world_actions::{Action, Refusal};
use world_ticks::{Tick, act};

// Plays an action. The contract follows from that of `act` for any cells.
fn act_on<C: Capture>(store: &mut C, tick: &mut Tick, action: Action) -> Result<(), Refusal>
    ensures done { OnOk result (C.content store.new
        ≡ content_after (C.content store.old) (writes_of (C.words store.old) action)) }
    ensures refused { OnErr result (C.content store.new ≡ C.content store.old) }
{
    accesses_write::<C>();
    act(store, tick, action)?;
    Ok(())
}

const MARK: [Move; 1] = [Move::Mark];

const TAKES: [Move; 5] = [
    Move::TakeWord(5),
    Move::TakeWord(7),
    Move::IsOpen(false),
    Move::Mark,
    Move::TakeWord(9),
];

// Plays an action in an open round, and one that is refused.
fn check_actions<C: Capture>(rt: &impl Abort, alloc: Global) {
    let mut store = C::build(alloc, &[5, 7]).expect(rt, "memory");
    let mut tick = Tick::new(alloc);
    follow(rt, &mut store, &MARK);
    let set = Action::Set { cell: 0, value: 9 };
    same(rt, act_on(&mut store, &mut tick, set), Ok(()));
    let add = Action::Add { cell: 1, by: -8 };
    let refused = act_on(&mut store, &mut tick, add);
    same(rt, refused, Err(Refusal::OutOfRange));
    follow(rt, &mut store, &TAKES);
}

#[test]
fn acts_in_open_round(rt: HostRuntime) {
    check_actions::<PlainCopy>(&rt, rt.alloc());
}
