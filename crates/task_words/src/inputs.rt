//! The inputs of a job.
ghost use Rattle.std.specs.Prelude.{◌≡◌, ◌≤◌, ◌+◌, ◌++◌, [], length, IfOk};

use mars_base::Memory;
use std::alloc::Global;
use std::marker::Model;

/// The input words of one job, at most 256: those of 16 ports with 16 words each. Contracts see it as the list
/// of its words.
#[derive(Drop)]
pub struct InWords {
    // All its room; the first `count` are its words.
    words: Vec<i32>,
    count: usize,
}

impl Model for InWords {
    ghost use Rattle.std.specs.Prelude.{◌≡◌, ◌≤◌, List, ℤ, length, take};

    ghost Value = { List ℤ };

    ghost view = { λ i. take i.count i.words.items };

    ghost invariant = { λ i. (i.count ≤ length i.words.items) × (length i.words.items ≡ 256) };
}

impl InWords {
    /// No words yet. No later call takes memory.
    pub fn new(alloc: Global) -> Result<InWords, Memory>
        ensures { IfOk result (λ i. i ≡ []) }
    {
        Ok(InWords {
            words: vec![in alloc; 0i32; 256]?,
            count: 0,
        })
    }

    /// Adds words behind the others.
    pub fn add(&mut self, words: &[i32])
        requires { length self.old + length words.now ≤ 256 }
        ensures { self.new ≡ self.old ++ words.now }
    {
        let to = self.count + words.len();
        self.words[self.count..to].copy_from_slice(words);
        self.count = to;
    }

    /// Drops all words.
    pub fn clear(&mut self)
        ensures { self.new ≡ [] }
    {
        self.count = 0;
    }

    /// The words.
    pub fn words(&self) -> &[i32]
        ensures { result.now ≡ self.now }
    {
        &self.words[..self.count]
    }
}
