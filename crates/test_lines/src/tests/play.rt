ghost use Rattle.std.specs.Prelude.{◌≡◌, []};

use super::same::same;
use std::process::Abort;
use world_actions::{Action, LIMIT, Refusal};
use world_ticks::{Tick, Words, act, replay};

const DONE: [Action; 3] = [
    Action::Set { cell: 0, value: 7 },
    Action::Add { cell: 1, by: -5 },
    Action::Transfer {
        from: 2,
        to: 1,
        amount: 4,
    },
];

fn do_actions(rt: &impl Abort, memory: &mut Words, tick: &mut Tick) {
    for action in DONE {
        same(rt, act(memory, tick, action), Ok(()));
    }
    same(rt, memory.as_slice(), [7, 19, LIMIT - 4].as_slice());
    let refused = act(memory, tick, Action::Add { cell: 3, by: 1 });
    same(rt, refused, Err(Refusal::BadCell));
    same(rt, tick.actions(), DONE.as_slice());
}

#[test]
fn does_actions(rt: HostRuntime) {
    let mut memory = Words::new(vec![in rt.alloc(); 0, 20, LIMIT].expect(&rt, "memory"));
    let mut tick = Tick::new(rt.alloc());
    do_actions(&rt, &mut memory, &mut tick);
}

fn fill_tick(rt: &impl Abort, memory: &mut Words, tick: &mut Tick) {
    let add = Action::Add { cell: 0, by: 2 };
    for _ in 0..256 {
        same(rt, act(memory, tick, add), Ok(()));
    }
    assert!(rt; tick.is_full());
    same(rt, act(memory, tick, add), Err(Refusal::TickFull));
    same(rt, memory.as_slice(), [512].as_slice());
    tick.clear();
    same(rt, act(memory, tick, add), Ok(()));
    same(rt, memory.as_slice(), [514].as_slice());
}

#[test]
fn takes_256_actions(rt: HostRuntime) {
    let mut memory = Words::new(vec![in rt.alloc(); 0].expect(&rt, "memory"));
    let mut tick = Tick::new(rt.alloc());
    fill_tick(&rt, &mut memory, &mut tick);
}

fn transfer(amount: u64) -> Action {
    Action::Transfer {
        from: 0,
        to: 1,
        amount,
    }
}

// Replays two actions, and then these two and one that is refused.
fn replay_both(rt: &impl Abort, memory: &mut Words, tick: &mut Tick)
    requires { tick.old.list ≡ [] }
{
    tick.reserve(3).expect(rt, "memory");
    tick.push_reserved(Action::Set { cell: 0, value: 5 });
    tick.push_reserved(transfer(2));
    same(rt, replay(memory, tick.actions()), Ok(()));
    same(rt, memory.as_slice(), [3, 2].as_slice());
    tick.push_reserved(transfer(4));
    let refused = replay(memory, tick.actions());
    same(rt, refused, Err(Refusal::BadLog));
    same(rt, memory.as_slice(), [3, 4].as_slice());
}

#[test]
fn replays_up_to_a_refused_action(rt: HostRuntime) {
    let mut memory = Words::new(vec![in rt.alloc(); 0, 0].expect(&rt, "memory"));
    let mut tick = Tick::new(rt.alloc());
    replay_both(&rt, &mut memory, &mut tick);
}
