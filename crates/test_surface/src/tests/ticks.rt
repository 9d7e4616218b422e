// `world_ticks`
use super::same::same;
use std::alloc::Global;
use std::process::Abort;
use world_actions::{Action, Refusal};
use world_ticks::{Cells, TICK_ACTIONS, TICK_MAX, Tick, Words, act, replay};

const SET: Action = Action::Set { cell: 1, value: 6 };

const LOGGED: [Action; 2] = [
    Action::Add { cell: 0, by: 1 },
    Action::Add { cell: 2, by: 1 },
];

// Plays an action as a tick.
fn play<C: Cells>(alloc: Global, store: &mut C) -> Result<Tick, Refusal> {
    let mut tick: Tick = Tick::new(alloc);
    tick.reserve(1)?;
    act(store, &mut tick, SET)?;
    Ok(tick)
}

// The number of cells, and the first word before and after a write.
fn access<C: Cells>(store: &mut C) -> Option<(usize, u64, u64)> {
    let cells: usize = store.len();
    if cells == 0 {
        return None;
    }
    let before: u64 = store.read(0);
    store.write(0, 8);
    Some((cells, before, store.read(0)))
}

// Plays a tick, and replays actions of which the second is refused.
fn check_play<C: Cells>(rt: &impl Abort, alloc: Global, store: &mut C) {
    let tick = play(alloc, store).expect(rt, "memory");
    same(rt, tick.actions(), [SET].as_slice());
    same(rt, replay(store, &LOGGED), Err(Refusal::BadLog));
    same(rt, access(store), Some((2, 6, 8)));
}

#[test]
fn a_tick_is_played_on_any_cells(rt: HostRuntime) {
    let mut words = Words::new(vec![in rt.alloc(); 5, 7].expect(&rt, "memory"));
    check_play(&rt, rt.alloc(), &mut words);
    same(&rt, words.as_slice(), [8, 6].as_slice());
    same(
        &rt,
        (TICK_ACTIONS, TICK_MAX),
        (256, 1_000_000_000_000_000_000),
    );
}
