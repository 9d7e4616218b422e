// Both seats in one store.
ghost use Rattle.std.specs.Prelude.{◌≡◌, ◌<◌, [], IsTrue, All};
ghost use Rattle.shared_capture.specs.declared.view.Round.{Round};

use super::super::moves::{Move, follow, mark, write};
use super::super::same::same;
use capture_core::{Capture, PlainCopy, Taken, Taker};
use shared_capture::{Back, Front, Joined, Method, Pong, Zig};
use std::alloc::Global;
use std::process::Abort;

// A store beside the plain copy, and an image of the words that its takes give.
#[derive(Drop)]
struct Beside<C: Capture> {
    store: C,
    plain: PlainCopy,
    image: Vec<u64>,
}

impl<C: Capture> Beside<C> {
    fn new(rt: &impl Abort, alloc: Global, cells: usize) -> Self {
        let image = Vec::from_elem(alloc, 3, cells).expect(rt, "memory");
        Beside {
            store: C::build(alloc, &image).expect(rt, "memory"),
            plain: PlainCopy::build(alloc, &image).expect(rt, "memory"),
            image,
        }
    }

    fn check_rounds(&mut self, rt: &impl Abort) {
        for round in 0..4 {
            self.check_round(rt, round);
        }
    }

    // Writes some cells, marks, and takes the round while others are written.
    fn check_round(&mut self, rt: &impl Abort, round: usize)
        requires { round < 4 }
    {
        self.write_some(rt, round);
        assert!(rt; mark(&mut self.store) && mark(&mut self.plain));
        self.check_takes(rt, round);
        assert!(rt; self.store.take().is_none() && self.plain.take().is_none());
    }

    fn write_some(&mut self, rt: &impl Abort, round: usize)
        requires { round < 4 }
    {
        for i in 0..self.image.len() {
            if i % (7 + round) == round {
                assert!(rt; self.write(i, 10 + round as u64), "cell {i}");
            }
        }
    }

    fn check_takes(&mut self, rt: &impl Abort, round: usize)
        requires { round < 4 }
    {
        for i in 0..self.image.len() {
            let word = (50 + i % 900) as u64;
            assert!(rt;
                self.write(i % (round + 1), word) && self.takes_same(i),
                "cell {i}"
            );
        }
    }

    fn write(&mut self, cell: usize, word: u64) -> bool {
        write(&mut self.store, cell, word) && write(&mut self.plain, cell, word)
    }

    // Takes a cell of both. Returns true if they have the same word. An unchanged cell of the store
    // has its word of the image.
    fn takes_same(&mut self, i: usize) -> bool {
        let taken = self.store.take();
        if let Some(Taken::Word(word)) = taken
            && i < self.image.len()
        {
            self.image[i] = word;
        }
        let word = self.image.get(i).copied();
        taken.is_some() && self.plain.take() == word.map(Taken::Word)
    }
}

// Makes one list of writes and marks on a store and on the plain copy.
fn check_beside_plain_copy<C: Capture>(rt: &impl Abort, alloc: Global) {
    for cells in [0, 1, 63, 64, 65, 130] {
        let mut both: Beside<C> = Beside::new(rt, alloc, cells);
        both.check_rounds(rt);
    }
}

fn check_joined<M: Method>(rt: &impl Abort, alloc: Global) {
    check_beside_plain_copy::<Joined<M>>(rt, alloc);
}

#[test]
fn stands_for_plain_copy(rt: HostRuntime) {
    check_joined::<Zig>(&rt, rt.alloc());
    check_joined::<Pong>(&rt, rt.alloc());
}

// True if no cell is left.
fn is_ended<C: Capture>(store: &C) -> bool
    ensures { IsTrue result → (C.content store.now).left ≡ [] }
{
    !store.open_round()
}

// Marks a round of the seats, in which only the second cell was written, and takes it.
fn check_seats<M: Method>(rt: &impl Abort, front: &mut Front<M>, back: &mut Back<M>)
    requires { All (λ (r : Round). r.tick < 2) front.old.rounds }
{
    same(rt, back.look(), None);
    same(rt, front.mark(2), Ok(()));
    same(rt, back.look(), Some(2));
    same(rt, back.take(), Some(Taken::Same));
    same(rt, back.take(), Some(Taken::Word(8)));
    same(rt, back.take(), None);
}

const MOVES: [Move; 5] = [
    Move::Mark,
    Move::TakeWord(5),
    Move::TakeWord(7),
    Move::Write(1, 8),
    Move::IsOpen(false),
];

// Makes the calls, which leave no cell, and returns the seats of the store.
fn split_after<M: Method>(
    rt: &impl Abort,
    mut joined: Joined<M>,
    moves: &[Move],
) -> (Front<M>, Back<M>)
    ensures { All (λ (r : Round). r.tick < 2) result.0.rounds }
{
    follow(rt, &mut joined, moves);
    assert!(rt; is_ended(&joined));
    joined.split()
}

fn check_split<M: Method>(rt: &impl Abort, alloc: Global) {
    let joined: Joined<M> = Joined::build(alloc, &[5, 7]).expect(rt, "memory");
    let (mut front, mut back) = split_after(rt, joined, &MOVES);
    check_seats(rt, &mut front, &mut back);
}

#[test]
fn splits_where_no_cell_is_left(rt: HostRuntime) {
    check_split::<Pong>(&rt, rt.alloc());
}
