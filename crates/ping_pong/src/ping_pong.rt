ghost use Rattle.std.specs.Prelude.{◌≡◌, ◌<◌, ◌↔◌, refl, [], ◌∷◌, length, replicate, All};
ghost use Rattle.std.specs.Prelude.{slice_get, slice_index, slice_set, IfOk, IfErr, IfSome};
ghost use Rattle.std.specs.Prelude.{IfNone, OnSome};
ghost use Rattle.world_actions.specs.World.{IsWord};
ghost use Rattle.world_ticks.specs.Cells.{writes_among};
ghost use Rattle.capture_core.specs.Taken.{IsTakenWord};
ghost use Rattle.capture_core.specs.Content.{all_touched, content_after, Takes, Marks};
ghost use Rattle.ping_pong.specs.PingPong.{IsInOrder, odd_words, even_words, previous_entries};
ghost use Rattle.ping_pong.specs.PingPong.{content_of, built_arrays, written_arrays};
ghost use Rattle.ping_pong.specs.PingPong.{swapped_arrays, taken_arrays};

use capture_core::{Capture, Taken, Taker};
use packed_marks::PackedMarks;
use std::alloc::{AllocError, Global};
use std::marker::Model;
use std::mem;
use world_actions::Refusal;
use world_ticks::Cells;

/// A store of live words and two arrays of entries, odd and even. One array is current and the
/// other is previous.
#[derive(Drop)]
pub struct PingPong {
    live: Vec<u64>,
    current: Entries,
    previous: Entries,
    odd_is_current: bool,
    taken: usize,
}

// An array of entries. An entry is a word and a dirty mark.
#[derive(Drop)]
struct Entries {
    words: Vec<u64>,
    dirty: PackedMarks,
}

impl Entries {
    // Makes entries of these words, all dirty or all clean.
    fn new(alloc: Global, words: &[u64], dirty: bool) -> Result<Self, AllocError>
        ensures words { IfOk result (λ made. made.words.items ≡ words.now) }
        ensures dirty { IfOk result (λ made. made.dirty ≡ replicate (length words.now) dirty) }
    {
        Ok(Entries {
            words: Vec::from_slice(alloc, words)?,
            dirty: PackedMarks::new(alloc, words.len(), dirty)?,
        })
    }
}

impl Model for PingPong {
    ghost use Rattle.ping_pong.specs.PingPong.{Arrays, IsInOrder};
    ghost use Rattle.ping_pong.specs.View.{arrays_of};

    ghost Value = { Arrays };

    ghost view = { arrays_of };

    ghost invariant = { λ store. IsInOrder (arrays_of store) };
}

impl PingPong {
    /// Builds a store of these words, with no round open. It takes all the memory that
    /// it will ever need.
    pub fn new(alloc: Global, words: &[u64]) -> Result<Self, Refusal>
        requires { All IsWord words.now }
        ensures ok { IfOk result (λ store. store ≡ built_arrays words.now) }
        ensures content { IfOk result (λ store. content_of store ≡ all_touched words.now []) }
        ensures err { IfErr result (λ refusal. refusal ≡ Refusal.NoMemory) }
    {
        Ok(PingPong {
            live: Vec::from_slice(alloc, words)?,
            current: Entries::new(alloc, words, true)?,
            previous: Entries::new(alloc, words, false)?,
            odd_is_current: true,
            taken: words.len(),
        })
    }

    /// Returns the words of a cell's entries in array odd and array even, dirty or not.
    pub fn arrays(&self, i: usize) -> (u64, u64)
        requires { i < length self.now.live }
        ensures odd { result.0 ≡ slice_index (odd_words self.now) i }
        ensures even { result.1 ≡ slice_index (even_words self.now) i }
    {
        if self.odd_is_current {
            (self.current.words[i], self.previous.words[i])
        } else {
            (self.previous.words[i], self.current.words[i])
        }
    }
}

// The calls, stated only on the arrays.
impl PingPong {
    fn put_word(&mut self, i: usize, v: u64)
        requires inside { i < length self.old.live }
        requires limit { IsWord v }
        ensures { self.new ≡ written_arrays self.old i v }
    {
        self.live[i] = v;
        self.current.words[i] = v;
        self.current.dirty.put(i, true);
    }

    fn swap_arrays(&mut self)
        requires { (content_of self.old).left ≡ [] }
        ensures moved { self.new ≡ swapped_arrays self.old }
        ensures order { IsInOrder self.old }
    {
        mem::swap(&mut self.current, &mut self.previous);
        self.odd_is_current = !self.odd_is_current;
        self.taken = 0;
    }

    fn take_entry(&mut self) -> Option<Option<u64>>
        ensures entry { result ≡ slice_get (previous_entries self.old) self.old.taken }
        ensures limit { IfSome result (λ entry. IfSome entry IsWord) }
        ensures moved { OnSome result (self.new ≡ taken_arrays self.old) }
        ensures unchanged { IfNone result (self.new ≡ self.old) }
    {
        let i = self.taken;
        if i == self.live.len() {
            return None;
        }
        self.taken += 1;
        let dirty = self.previous.dirty.is_set(i);
        self.previous.dirty.put(i, false);
        Some(dirty.then_some(self.previous.words[i]))
    }
}

impl Cells for PingPong {
    ghost words = { λ store. store.live };

    ghost accessed = { λ old access new.
        content_of new ≡ content_after (content_of old) (writes_among (access ∷ [])) };

    fn len(&self) -> usize {
        self.live.len()
    }

    fn read(&mut self, i: usize) -> u64
        requires { i < length self.old.live }
        ensures word { result ≡ slice_index self.old.live i }
        ensures limit { IsWord result }
        ensures unchanged { self.new ≡ self.old }
    {
        self.live[i]
    }

    fn write(&mut self, i: usize, v: u64)
        requires inside { i < length self.old.live }
        requires limit { IsWord v }
        ensures word { self.new.live ≡ slice_set self.old.live i v }
        ensures access { content_of self.new
            ≡ content_after (content_of self.old) (record { cell = i; word = v } ∷ []) }
        ensures arrays { self.new ≡ written_arrays self.old i v }
    {
        self.put_word(i, v);
    }
}

impl Taker for PingPong {
    ghost took = { λ old answer new. Takes (content_of old) answer (content_of new) };

    fn take(&mut self) -> Option<Taken>
        ensures took { Takes (content_of self.old) result (content_of self.new) }
        ensures limit { IfSome result IsTakenWord }
        ensures unchanged { IfNone result (self.new ≡ self.old) }
        ensures arrays { OnSome result (self.new ≡ taken_arrays self.old) }
    {
        Some(match self.take_entry()? {
            Some(word) => Taken::Word(word),
            None => Taken::Same,
        })
    }
}

impl Capture for PingPong {
    ghost content = { content_of };

    ghost live_is_words = { λ store. refl };

    ghost after_access = { λ old new access accessed. accessed };

    ghost after_take = { λ old new answer takes. takes };

    fn build(alloc: Global, words: &[u64]) -> Result<Self, Refusal>
        requires { All IsWord words.now }
        ensures ok { IfOk result (λ store. content_of store ≡ all_touched words.now []) }
        ensures err { IfErr result (λ refusal. refusal ≡ Refusal.NoMemory) }
        ensures arrays { IfOk result (λ store. store ≡ built_arrays words.now) }
    {
        PingPong::new(alloc, words)
    }

    fn mark(&mut self)
        requires { (content_of self.old).left ≡ [] }
        ensures marks { Marks (content_of self.old) (content_of self.new) }
        ensures arrays { self.new ≡ swapped_arrays self.old }

        // The entries of both arrays stay where they are.
        ensures odd { odd_words self.new ≡ odd_words self.old }
        ensures even { even_words self.new ≡ even_words self.old }
    {
        self.swap_arrays();
    }

    fn open_round(&self) -> bool {
        self.taken < self.live.len()
    }
}
