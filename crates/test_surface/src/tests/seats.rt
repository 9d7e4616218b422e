// `shared_capture`
ghost use Rattle.std.specs.Prelude.{◌≡◌, ◌<◌, [], true, length, All};
ghost use Rattle.shared_capture.specs.declared.view.Round.{Round};

use super::same::same;
use capture_core::{Capture, Taken, Taker};
use shared_capture::{
    Back, CoverIn, CoverOut, Front, Joined, Method, Pong, Zig, cover_pair, meet, meet_cover,
    ping_pong_pair, zigzag_pair,
};
use std::alloc::Global;
use std::process::Abort;
use world_actions::Refusal;
use world_ticks::Cells;

// Marks a round between two writes of the first cell.
fn mark<M: Method>(rt: &impl Abort, front: &mut Front<M>)
    requires cells { 0 < length front.old.live }
    requires rounds { front.old.rounds ≡ [] }
    ensures pair { front.new.pair ≡ front.old.pair }
    ensures rounds { All (λ (r : Round). r.tick < 2) front.new.rounds }
{
    front.write(0, 6);
    let marked: Result<(), Refusal> = front.mark(1);
    same(rt, marked, Ok(()));
    front.write(0, 9);
    same(rt, front.read(0), 9);
}

// Takes the round.
fn take<M: Method>(rt: &impl Abort, back: &mut Back<M>)
    ensures pair { back.new.pair ≡ back.old.pair }
    ensures taken { (back.new.working ≡ true) × (length back.new.now.taken ≡ back.new.cells) }
{
    let tick: Option<u64> = back.look();
    assert!(rt; tick == Some(1));
    same(rt, back.take(), Some(Taken::Word(6)));
    same(rt, back.take(), Some(Taken::Word(7)));
    assert!(rt; back.take().is_none());
}

fn check_round<M: Method>(rt: &impl Abort, front: &mut Front<M>, back: &mut Back<M>)
    requires pair { front.old.pair ≡ back.old.pair }
    requires cells { 0 < length front.old.live }
    requires rounds { front.old.rounds ≡ [] }
{
    mark(rt, front);
    take(rt, back);
    assert!(rt; front.mark(2) == Err(Refusal::Busy));
    back.finish();
    meet(front, back);
    same(rt, back.look(), None);
}

#[test]
fn a_round_of_zigzag(rt: HostRuntime) {
    let words = vec![in rt.alloc(); 5, 7].expect(&rt, "memory");
    let pair: Result<(Front<Zig>, Back<Zig>), Refusal> = zigzag_pair(rt.alloc(), words);
    let (mut front, mut back) = pair.expect(&rt, "memory");
    check_round(&rt, &mut front, &mut back);
}

#[test]
fn a_round_of_ping_pong(rt: HostRuntime) {
    let words = vec![in rt.alloc(); 5, 7].expect(&rt, "memory");
    let pair: Result<(Front<Pong>, Back<Pong>), Refusal> = ping_pong_pair(rt.alloc(), words);
    let (mut front, mut back) = pair.expect(&rt, "memory");
    check_round(&rt, &mut front, &mut back);
}

// Parts a new store of both seats, and looks for a round.
fn split<M: Method>(alloc: Global) -> Result<Option<u64>, Refusal> {
    let joined: Joined<M> = Joined::<M>::build(alloc, &[5, 7])?;
    let seats: (Front<M>, Back<M>) = joined.split();
    let mut back = seats.1;
    Ok(back.look())
}

#[test]
fn both_seats_are_parted(rt: HostRuntime) {
    same(&rt, split::<Zig>(rt.alloc()), Ok(None));
    same(&rt, split::<Pong>(rt.alloc()), Ok(None));
}

// Publishes ticks of open images, and loads the newest.
fn cover(out: &mut CoverOut, from: &mut CoverIn) -> (u64, u64)
    requires pair { out.old.pair ≡ from.old.pair }
    requires fresh { out.old.numbers ≡ [] }
{
    let before: u64 = from.latest();
    out.publish(3);
    meet_cover(out, from);
    (before, from.latest())
}

#[test]
fn the_newest_image_is_known(rt: HostRuntime) {
    let pair: Result<(CoverOut, CoverIn), Refusal> = cover_pair(rt.alloc());
    let (mut out, mut from) = pair.expect(&rt, "memory");
    same(&rt, cover(&mut out, &mut from), (0, 3));
}
