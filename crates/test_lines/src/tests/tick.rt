ghost use Rattle.std.specs.Prelude.{◌≡◌, []};

use super::same::same;
use std::process::Abort;
use world_actions::Action;
use world_ticks::Tick;

const FIRST: Action = Action::Set { cell: 3, value: 9 };

const SECOND: Action = Action::Add { cell: 3, by: -9 };

fn check_order(rt: &impl Abort, tick: &mut Tick)
    requires { tick.old.list ≡ [] }
{
    same(rt, tick.actions().len(), 0);
    tick.reserve(2).expect(rt, "memory");
    tick.push_reserved(FIRST);
    tick.push_reserved(SECOND);
    same(rt, tick.actions(), [FIRST, SECOND].as_slice());
    assert!(rt; !tick.is_full());
    tick.clear();
    same(rt, tick.actions().len(), 0);
    tick.push_reserved(SECOND);
    same(rt, tick.actions(), [SECOND].as_slice());
}

#[test]
fn keeps_actions_in_order(rt: HostRuntime) {
    let mut tick = Tick::new(rt.alloc());
    check_order(&rt, &mut tick);
}
