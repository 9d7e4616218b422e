// A pair of seats over 5 and 7 for each method, step by step.
ghost use Rattle.std.specs.Prelude.{◌≡◌, ◌<◌, [], true, length, All};
ghost use Rattle.shared_capture.specs.declared.view.Round.{Round};

use super::super::same::same;
use capture_core::{Taken, Taker};
use shared_capture::{Back, Front, Method, meet, ping_pong_pair, zigzag_pair};
use std::process::Abort;
use world_actions::Refusal;
use world_ticks::Cells;

// Writes 6 into the first cell, marks the first round, and writes 9.
fn mark_first<M: Method>(rt: &impl Abort, front: &mut Front<M>)
    requires cells { 0 < length front.old.live }
    requires rounds { front.old.rounds ≡ [] }
    ensures pair { front.new.pair ≡ front.old.pair }
    ensures rounds { All (λ (r : Round). r.tick < 2) front.new.rounds }
{
    front.write(0, 6);
    same(rt, front.mark(1), Ok(()));
    front.write(0, 9);
    same(rt, front.read(0), 9);
}

// Takes the first round.
fn take_first<M: Method>(rt: &impl Abort, back: &mut Back<M>)
    ensures pair { back.new.pair ≡ back.old.pair }
    ensures taken { (back.new.working ≡ true) × (length back.new.now.taken ≡ back.new.cells) }
{
    assert!(rt; back.look() == Some(1));
    same(rt, back.take(), Some(Taken::Word(6)));
    same(rt, back.take(), Some(Taken::Word(7)));
    assert!(rt; back.take().is_none());
}

// Marks the second round and takes it. Its last cell was not written since the first.
fn second_round<M: Method>(
    rt: &impl Abort,
    front: &mut Front<M>,
    back: &mut Back<M>,
    untouched: Taken,
)
    requires pair { front.old.pair ≡ back.old.pair }
    requires rounds { All (λ (r : Round). r.tick < 2) front.old.rounds }
{
    same(rt, front.mark(2), Ok(()));
    same(rt, back.look(), Some(2));
    same(rt, back.take(), Some(Taken::Word(9)));
    meet(front, back);
    same(rt, back.take(), Some(untouched));
}

fn check_row<M: Method>(rt: &impl Abort, front: &mut Front<M>, back: &mut Back<M>, untouched: Taken)
    requires pair { front.old.pair ≡ back.old.pair }
    requires cells { 0 < length front.old.live }
    requires rounds { front.old.rounds ≡ [] }
{
    same(rt, back.look(), None);
    mark_first(rt, front);
    take_first(rt, back);
    assert!(rt; front.mark(2) == Err(Refusal::Busy));
    back.finish();
    second_round(rt, front, back, untouched);
}

#[test]
fn zigzag_row(rt: HostRuntime) {
    let words = vec![in rt.alloc(); 5, 7].expect(&rt, "memory");
    let (mut front, mut back) = zigzag_pair(rt.alloc(), words).expect(&rt, "memory");
    check_row(&rt, &mut front, &mut back, Taken::Word(7));
}

#[test]
fn ping_pong_row(rt: HostRuntime) {
    let words = vec![in rt.alloc(); 5, 7].expect(&rt, "memory");
    let (mut front, mut back) = ping_pong_pair(rt.alloc(), words).expect(&rt, "memory");
    check_row(&rt, &mut front, &mut back, Taken::Same);
}
