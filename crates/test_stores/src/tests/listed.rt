// A store beside a plain list of its words.
ghost use Rattle.std.specs.Prelude.{◌<◌};

use super::moves::{mark, read, write};
use capture_core::{Capture, Taken};
use std::alloc::Global;
use std::process::Abort;

// Checks rounds over some numbers of cells, with writes between them and between their
// takes. `reports_same` is true if takes give `Same` for the cells that were not written
// since the mark before.
pub fn check_list<C: Capture>(rt: &impl Abort, alloc: Global, reports_same: bool) {
    for cells in [1, 63, 64, 65, 130] {
        let mut listed: Listed<C> = Listed::new(rt, alloc, cells, reports_same);
        listed.check_rounds(rt, alloc);
    }
}

// A store, its words, and for each cell if it was written since the last mark.
#[derive(Drop)]
struct Listed<C: Capture> {
    store: C,
    words: Vec<u64>,
    touched: Vec<bool>,
    reports_same: bool,
}

impl<C: Capture> Listed<C> {
    // A store of so many cells that are 0.
    fn new(rt: &impl Abort, alloc: Global, cells: usize, reports_same: bool) -> Self {
        let words = Vec::from_elem(alloc, 0, cells).expect(rt, "memory");
        Listed {
            store: C::build(alloc, &words).expect(rt, "memory"),
            words,
            touched: Vec::from_elem(alloc, true, cells).expect(rt, "memory"),
            reports_same,
        }
    }

    // Checks a round, and one after each batch of writes.
    fn check_rounds(&mut self, rt: &impl Abort, alloc: Global) {
        self.check_round(rt, alloc);
        for step in 1..4 {
            self.write_each(rt, step);
            self.check_round(rt, alloc);
        }
    }

    // Writes each cell whose number the step divides.
    fn write_each(&mut self, rt: &impl Abort, step: usize)
        requires { (0 < step) × (step < 4) }
    {
        for i in 0..self.words.len() {
            if i % step == 0 {
                assert!(rt; self.write(i, 100 * step as u64), "cell {i}");
            }
        }
    }

    // Checks that a round takes the words of the mark, whatever is written between its takes.
    fn check_round(&mut self, rt: &impl Abort, alloc: Global) {
        let words = Vec::from_slice(alloc, &self.words).expect(rt, "memory");
        let touched = Vec::from_slice(alloc, &self.touched).expect(rt, "memory");
        self.check_takes(rt, &words, &touched);
    }

    // Marks, and checks each take. A touched cell gives its word of this list.
    fn check_takes(&mut self, rt: &impl Abort, words: &[u64], touched: &[bool]) {
        self.touched.fill(false);
        assert!(rt; mark(&mut self.store));
        for i in 0..words.len() {
            assert!(rt; self.takes_cell(i, words, touched), "cell {i}");
        }
        assert!(rt; self.store.take().is_none());
    }

    fn takes_cell(&mut self, i: usize, words: &[u64], touched: &[bool]) -> bool {
        i < words.len()
            && i < touched.len()
            && self.writes_opposite(i, words[i])
            && self.takes(words[i], touched[i])
            && self.reads(i)
    }

    // Writes the cell that is as far from the end as this one is from the front. If takes give
    // `Same`, each third turn writes nothing.
    fn writes_opposite(&mut self, i: usize, word: u64) -> bool {
        let cells = self.words.len();
        if self.reports_same && i % 3 == 0 {
            return true;
        }
        i < cells && self.write(cells - 1 - i, word ^ 1)
    }

    // True if the next take gives the word of a touched cell, or `Same` for another
    // one if takes do so.
    fn takes(&mut self, word: u64, touched: bool) -> bool {
        let want = if touched || !self.reports_same {
            Taken::Word(word)
        } else {
            Taken::Same
        };
        self.store.take() == Some(want)
    }

    // True if a cell has the word of the list.
    fn reads(&mut self, i: usize) -> bool {
        read(&mut self.store, i) == self.words.get(i).copied()
    }

    fn write(&mut self, i: usize, word: u64) -> bool {
        if i >= self.words.len() || i >= self.touched.len() {
            return false;
        }
        self.words[i] = word;
        self.touched[i] = true;
        write(&mut self.store, i, word)
    }
}
