//! The words of data and the counters. All their memory is taken when they are made.
ghost use Rattle.std.specs.Prelude.{◌≡◌, ◌+◌, ◌<◌, ◌≤◌, [], ◌++◌, length, pos, replicate, slice_get, slice_set, Some, IfOk};

use mars_base::Memory;
use std::alloc::Global;
use std::marker::Model;

/// At most 4,096 words of data, which contracts see as their list.
#[derive(Drop)]
pub struct Places {
    words: Vec<i32>,
}

impl Model for Places {
    ghost use Rattle.std.specs.Prelude.{◌≤◌, List, ℤ, vec_capacity};

    ghost Value = { List ℤ };

    ghost view = { λ places. places.words.items };

    ghost invariant = { λ places. 4096 ≤ vec_capacity places.words };
}

impl Places {
    /// No place yet, and room for 4,096.
    pub fn new(alloc: Global) -> Result<Places, Memory>
        ensures { IfOk result (λ places. places ≡ []) }
    {
        Ok(Places {
            words: Vec::with_capacity(alloc, 4096)?,
        })
    }

    /// Gives all places up.
    pub fn clear(&mut self)
        ensures { self.new ≡ [] }
    {
        self.words.clear();
    }

    /// Adds places with these words.
    pub fn append(&mut self, more: &[i32])
        requires { length self.old + length more.now ≤ 4096 }
        ensures { self.new ≡ self.old ++ more.now }
    {
        if let [word] = more {
            let _ = self.words.push(*word);
        } else {
            let _ = self.words.extend_from_slice(more);
        }
    }

    /// Adds places that hold 0.
    pub fn add_zeros(&mut self, count: usize)
        requires { length self.old + count ≤ 4096 }
        ensures { self.new ≡ self.old ++ replicate count (pos 0) }
    {
        if count == 1 {
            let _ = self.words.push(0);
        } else {
            let _ = self.words.resize(self.words.len() + count, 0);
        }
    }

    /// How many places there are.
    pub fn len(&self) -> usize
        ensures { result ≡ length self.now }
    {
        self.words.len()
    }

    /// All words, the first place's first.
    pub fn as_slice(&self) -> &[i32]
        ensures { result.now ≡ self.now }
    {
        self.words.as_slice()
    }

    /// The word at a place.
    #[inline(always)]
    pub fn get(&self, place: usize) -> i32
        requires { place < length self.now }
        ensures { slice_get self.now place ≡ Some result }
    {
        self.words[place]
    }

    /// Puts a word at a place.
    #[inline(always)]
    pub fn set(&mut self, place: usize, word: i32)
        requires { place < length self.old }
        ensures { self.new ≡ slice_set self.old place word }
    {
        self.words[place] = word;
    }
}

/// At most 256 counters, which contracts see as their list.
#[derive(Drop)]
pub struct Counters {
    counts: Vec<u16>,
}

impl Model for Counters {
    ghost use Rattle.std.specs.Prelude.{◌≤◌, List, ℕ, vec_capacity};

    ghost Value = { List ℕ };

    ghost view = { λ counters. counters.counts.items };

    ghost invariant = { λ counters. 256 ≤ vec_capacity counters.counts };
}

impl Counters {
    /// No counter yet, and room for 256.
    pub fn new(alloc: Global) -> Result<Counters, Memory>
        ensures { IfOk result (λ counters. counters ≡ []) }
    {
        Ok(Counters {
            counts: Vec::with_capacity(alloc, 256)?,
        })
    }

    /// Makes so many counters of 0.
    pub fn reset(&mut self, count: usize)
        requires { count ≤ 256 }
        ensures { self.new ≡ replicate count 0 }
    {
        self.counts.clear();
        if count == 1 {
            let _ = self.counts.push(0);
        } else {
            let _ = self.counts.resize(count, 0);
        }
    }

    /// The count of a counter.
    #[inline(always)]
    pub fn get(&self, counter: usize) -> u16
        requires { counter < length self.now }
        ensures { slice_get self.now counter ≡ Some result }
    {
        self.counts[counter]
    }

    /// Sets a counter.
    #[inline(always)]
    pub fn set(&mut self, counter: usize, count: u16)
        requires { counter < length self.old }
        ensures { self.new ≡ slice_set self.old counter count }
    {
        self.counts[counter] = count;
    }
}
