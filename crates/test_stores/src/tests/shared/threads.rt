// One thread writes and marks a thousand rounds while another takes them. The rounds are known to
// agree once both are joined and their seats have met. Each take's words are then compared with
// those that a list had at its mark.
ghost use Rattle.std.specs.Prelude.{◌≡◌, ◌+◌, ◌<◌, [], true, length, All};
ghost use Rattle.shared_capture.specs.declared.view.Round.{Round};
ghost use Rattle.shared_capture.specs.Rounds.{Agree};
ghost use Rattle.shared_capture.specs.States.{snapshots};

use super::super::same::same;
use capture_core::{Taken, Taker};
use shared_capture::{Back, Front, Method, meet, ping_pong_pair, zigzag_pair};
use std::alloc::Global;
use std::process::Abort;
use std::thread::{Threads, join, yield_now};
use world_ticks::Cells;

const ROUNDS: u64 = 1_000;

const CELLS: usize = 65;

const TRIES: u64 = 1_000_000_000;

// A seat after its rounds, and the words of each, one round after the other.
type Done<S> = (S, Vec<u64>);

// Writes one cell after another, in the front and in a list of its words. After each write it marks
// a round, if none is open, and keeps the list as it is then.
fn mark_rounds<M: Method>(
    mut front: Front<M>,
    mut list: Vec<u64>,
    mut words: Vec<u64>,
) -> Done<Front<M>>
    requires cells { 0 < length front.live }
    requires rounds { front.rounds ≡ [] }
    ensures { result.0.pair ≡ front.pair }
{
    let mut marked = 0;
    for n in 0..TRIES {
        if marked >= ROUNDS {
            break;
        }
        let cell = (n % front.len() as u64) as usize;
        let word = n % 1009;
        front.write(cell, word);
        put(&mut list, cell, word);
        let before = marked;
        marked = mark_next(&mut front, before);
        if marked > before {
            add(&mut words, &list);
        }
    }
    (front, words)
}

// Puts a word into a list, if it has the cell.
fn put(list: &mut [u64], cell: usize, word: u64) {
    if let Some(old) = list.get_mut(cell) {
        *old = word;
    }
}

// Adds the words of a round. Without memory for them the words are too few in the end.
fn add(words: &mut Vec<u64>, round: &[u64]) {
    let _ = words.extend_from_slice(round);
}

// Marks one more round, if none is open. Returns how many are marked.
fn mark_next<M: Method>(front: &mut Front<M>, marked: u64) -> u64
    requires few { marked < ROUNDS }
    requires rounds { All (λ (r : Round). r.tick < marked + 1) front.old.rounds }
    ensures pair { front.new.pair ≡ front.old.pair }
    ensures cells { length front.new.live ≡ length front.old.live }
    ensures rounds { All (λ (r : Round). r.tick < result + 1) front.new.rounds }
{
    if front.mark(marked + 1).is_ok() {
        marked + 1
    } else {
        marked
    }
}

// Takes rounds up to the last one into an image, and keeps the image after each.
fn take_rounds<M: Method>(
    mut back: Back<M>,
    mut image: Vec<u64>,
    mut words: Vec<u64>,
) -> Done<Back<M>>
    ensures { result.0.pair ≡ back.pair }
{
    for _ in 0..TRIES {
        match back.look() {
            Some(tick) => {
                take_round(&mut back, &mut image);
                add(&mut words, &image);
                if tick >= ROUNDS {
                    break;
                }
            }
            None => yield_now(),
        }
    }
    (back, words)
}

// Takes all cells of the round in work, and ends it. An unchanged cell keeps its word in the image.
fn take_round<M: Method>(back: &mut Back<M>, image: &mut [u64])
    requires { back.old.working ≡ true }
    ensures { back.new.pair ≡ back.old.pair }
{
    for cell in 0..usize::MAX {
        match back.take() {
            Some(Taken::Word(word)) => put(image, cell, word),
            Some(Taken::Same) => {}
            None => {
                back.finish();
                return;
            }
        }
    }
}

// Runs both threads. The rounds that one marked are those that the other took. Returns if a round
// is open after the meeting, how many words were taken, and if they are those of the marks.
fn run_both<M: Method + Send + 'static, R: Threads + Sync>(
    rt: &R,
    alloc: Global,
    front: Front<M>,
    back: Back<M>,
    list: Vec<u64>,
    image: Vec<u64>,
) -> (Option<u64>, usize, bool)
    requires pair { front.pair ≡ back.pair }
    requires cells { 0 < length front.live }
    requires rounds { front.rounds ≡ [] }
{
    let (marked, taken) = (Vec::new(alloc), Vec::new(alloc));
    let ((mut front, marked), (mut back, taken)) = join(
        rt,
        move || -> Done<Front<M>>
            requires cells { 0 < length front.live }
            requires rounds { front.rounds ≡ [] }
            ensures { result.0.pair ≡ front.pair }
        { mark_rounds(front, list, marked) },
        move || -> Done<Back<M>>
            ensures { result.0.pair ≡ back.pair }
        { take_rounds(back, image, taken) },
    );
    agree(&mut front, &mut back);
    let are_marked = marked.as_slice() == taken.as_slice();
    (back.look(), taken.len(), are_marked)
}

// Lets the seats meet.
fn agree<M: Method>(front: &mut Front<M>, back: &mut Back<M>)
    requires { front.old.pair ≡ back.old.pair }
    ensures { Agree front.new.rounds (snapshots back.new) }
{
    meet(front, back);
}

// Runs each seat in its own thread. At the end no round is open.
fn check_pair<M: Method + Send + 'static, R: Threads + Sync + Abort>(
    rt: &R,
    alloc: Global,
    front: Front<M>,
    back: Back<M>,
)
    requires pair { front.pair ≡ back.pair }
    requires cells { 0 < length front.live }
    requires rounds { front.rounds ≡ [] }
{
    let list = vec![in alloc; 7; CELLS].expect(rt, "memory");
    let image = vec![in alloc; u64::MAX; CELLS].expect(rt, "memory");
    let words = ROUNDS as usize * CELLS;
    let found = run_both(rt, alloc, front, back, list, image);
    same(rt, found, (None, words, true));
}

#[test]
fn thousand_rounds_of_zigzag_in_two_threads(rt: HostRuntime) {
    let words = vec![in rt.alloc(); 7; CELLS].expect(&rt, "memory");
    let (front, back) = zigzag_pair(rt.alloc(), words).expect(&rt, "memory");
    check_pair(&rt, rt.alloc(), front, back);
}

#[test]
fn thousand_rounds_of_ping_pong_in_two_threads(rt: HostRuntime) {
    let words = vec![in rt.alloc(); 7; CELLS].expect(&rt, "memory");
    let (front, back) = ping_pong_pair(rt.alloc(), words).expect(&rt, "memory");
    check_pair(&rt, rt.alloc(), front, back);
}
