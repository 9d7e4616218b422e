ghost use Rattle.std.specs.Prelude.{◌≡◌, ◌<◌, ◌↔◌, refl, [], ◌∷◌, length, map, not, All, slice_get};
ghost use Rattle.std.specs.Prelude.{slice_index, slice_set, IfOk, IfErr, IfSome, IfNone, OnSome};
ghost use Rattle.std.specs.Prelude.{if◌then◌else◌};
ghost use Rattle.world_actions.specs.World.{IsWord};
ghost use Rattle.world_ticks.specs.Cells.{writes_among};
ghost use Rattle.capture_core.specs.Taken.{IsTakenWord};
ghost use Rattle.capture_core.specs.Content.{all_touched, content_after, Takes, Marks};
ghost use Rattle.zigzag.specs.Zigzag.{live_words, captured_words, content_of, built_arrays};
ghost use Rattle.zigzag.specs.Zigzag.{written_arrays, marked_arrays, taken_arrays};

use capture_core::{Capture, Taken, Taker};
use packed_marks::PackedMarks;
use std::alloc::Global;
use std::marker::Model;
use world_actions::Refusal;
use world_ticks::Cells;

/// A store of words in two arrays. For each cell a read mark names the array with its live word,
/// and a write mark names the array that a write goes to. A clear mark names array zero, and a
/// set mark array one.
#[derive(Drop)]
pub struct Zigzag {
    array_zero: Vec<u64>,
    array_one: Vec<u64>,
    read_marks: PackedMarks,
    write_marks: PackedMarks,
    taken: usize,
}

impl Model for Zigzag {
    ghost use Rattle.zigzag.specs.Zigzag.{Arrays, IsInOrder};
    ghost use Rattle.zigzag.specs.View.{arrays_of};

    ghost Value = { Arrays };

    ghost view = { arrays_of };

    ghost invariant = { λ store. IsInOrder (arrays_of store) };
}

impl Zigzag {
    /// Builds a store of these words, with no round open. It takes all the memory that
    /// it will ever need.
    pub fn new(alloc: Global, words: &[u64]) -> Result<Self, Refusal>
        requires { All IsWord words.now }
        ensures ok { IfOk result (λ store. store ≡ built_arrays words.now) }
        ensures content { IfOk result (λ store. content_of store ≡ all_touched words.now []) }
        ensures err { IfErr result (λ refusal. refusal ≡ Refusal.NoMemory) }
    {
        Ok(Zigzag {
            array_zero: Vec::from_slice(alloc, words)?,
            array_one: Vec::from_slice(alloc, words)?,
            read_marks: PackedMarks::new(alloc, words.len(), false)?,
            write_marks: PackedMarks::new(alloc, words.len(), true)?,
            taken: words.len(),
        })
    }

    /// Returns a cell's entries in array zero and array one.
    pub fn arrays(&self, i: usize) -> (u64, u64)
        requires { i < length (live_words self.now) }
        ensures zero { result.0 ≡ slice_index self.now.array_zero i }
        ensures one { result.1 ≡ slice_index self.now.array_one i }
    {
        self.entries(i)
    }
}

// The calls, stated only on the arrays.
impl Zigzag {
    fn entries(&self, i: usize) -> (u64, u64)
        requires { i < length self.now.array_zero }
        ensures zero { result.0 ≡ slice_index self.now.array_zero i }
        ensures one { result.1 ≡ slice_index self.now.array_one i }
    {
        (self.array_zero[i], self.array_one[i])
    }

    fn word(&self, i: usize) -> u64
        requires { i < length self.now.array_zero }
        ensures word { result ≡ slice_index (live_words self.now) i }
        ensures limit { IsWord result }
    {
        let mark = self.read_marks.is_set(i);
        entry(&self.array_zero, &self.array_one, mark, i)
    }

    fn put_word(&mut self, i: usize, v: u64)
        requires inside { i < length self.old.array_zero }
        requires limit { IsWord v }
        ensures { self.new ≡ written_arrays self.old i v }
    {
        let mark = self.write_marks.is_set(i);
        put(&mut self.array_zero, &mut self.array_one, mark, i, v);
        self.read_marks.put(i, mark);
    }

    fn turn_marks(&mut self)
        ensures { self.new ≡ marked_arrays self.old }
    {
        self.write_marks.set_opposites(&self.read_marks);
        self.taken = 0;
    }

    fn take_word(&mut self) -> Option<u64>
        ensures word { result ≡ slice_get (captured_words self.old) self.old.taken }
        ensures limit { IfSome result IsWord }
        ensures moved { OnSome result (self.new ≡ taken_arrays self.old) }
        ensures unchanged { IfNone result (self.new ≡ self.old) }
    {
        let i = self.taken;
        if i == self.write_marks.len() {
            return None;
        }
        self.taken += 1;
        let mark = !self.write_marks.is_set(i);
        Some(entry(&self.array_zero, &self.array_one, mark, i))
    }
}

impl Cells for Zigzag {
    ghost words = { live_words };

    ghost accessed = { λ old access new.
        content_of new ≡ content_after (content_of old) (writes_among (access ∷ [])) };

    fn len(&self) -> usize {
        self.array_zero.len()
    }

    fn read(&mut self, i: usize) -> u64
        requires { i < length (live_words self.old) }
        ensures word { result ≡ slice_index (live_words self.old) i }
        ensures limit { IsWord result }
        ensures unchanged { self.new ≡ self.old }
    {
        self.word(i)
    }

    fn write(&mut self, i: usize, v: u64)
        requires inside { i < length (live_words self.old) }
        requires limit { IsWord v }
        ensures word { live_words self.new ≡ slice_set (live_words self.old) i v }
        ensures access { content_of self.new
            ≡ content_after (content_of self.old) (record { cell = i; word = v } ∷ []) }
        ensures arrays { self.new ≡ written_arrays self.old i v }
    {
        self.put_word(i, v);
    }
}

impl Taker for Zigzag {
    ghost took = { λ old answer new. Takes (content_of old) answer (content_of new) };

    fn take(&mut self) -> Option<Taken>
        ensures took { Takes (content_of self.old) result (content_of self.new) }
        ensures limit { IfSome result IsTakenWord }
        ensures unchanged { IfNone result (self.new ≡ self.old) }
        ensures arrays { OnSome result (self.new ≡ taken_arrays self.old) }
    {
        Some(Taken::Word(self.take_word()?))
    }
}

impl Capture for Zigzag {
    ghost content = { content_of };

    ghost live_is_words = { λ store. refl };

    ghost after_access = { λ old new access accessed. accessed };

    ghost after_take = { λ old new answer takes. takes };

    fn build(alloc: Global, words: &[u64]) -> Result<Self, Refusal>
        requires { All IsWord words.now }
        ensures ok { IfOk result (λ store. content_of store ≡ all_touched words.now []) }
        ensures err { IfErr result (λ refusal. refusal ≡ Refusal.NoMemory) }
        ensures arrays { IfOk result (λ store. store ≡ built_arrays words.now) }
    {
        Zigzag::new(alloc, words)
    }

    fn mark(&mut self)
        requires { (content_of self.old).left ≡ [] }
        ensures marks { Marks (content_of self.old) (content_of self.new) }
        ensures arrays { self.new ≡ marked_arrays self.old }
    {
        self.turn_marks();
    }

    fn open_round(&self) -> bool {
        self.taken < self.write_marks.len()
    }
}

// Returns the entry that a mark names.
fn entry(zeros: &[u64], ones: &[u64], mark: bool, i: usize) -> u64
    requires zero { i < length zeros.now }
    requires one { i < length ones.now }
    ensures { result ≡ (if mark then slice_index ones.now i else slice_index zeros.now i) }
{
    let array = if mark { ones } else { zeros };
    array[i]
}

// Puts a word into the entry that a mark names.
fn put(zeros: &mut [u64], ones: &mut [u64], mark: bool, i: usize, v: u64)
    requires zero { i < length zeros.old }
    requires one { i < length ones.old }
    ensures zero { zeros.new ≡ (if mark then zeros.old else slice_set zeros.old i v) }
    ensures one { ones.new ≡ (if mark then slice_set ones.old i v else ones.old) }
{
    if mark {
        ones[i] = v;
    } else {
        zeros[i] = v;
    }
}
