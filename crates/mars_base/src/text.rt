//! Lists of bytes and of words that contracts see as lists, places in a text, and want of memory.
ghost use Rattle.std.specs.Prelude.{◌≡◌, ◌↔◌, [], IsTrue, IfOk, length};

use std::alloc::{AllocError, AllocFailed, Global};
use std::marker::Model;

/// There was no memory. It is the one answer that no clause ties to a cause.
#[derive(Clone, Copy, Debug, PartialEq, Eq)]
pub struct Memory;

impl From<AllocError> for Memory {
    ghost use Rattle.mars_base.specs.declared.text.Memory.{Memory};

    fn from(_error: AllocError) -> Memory {
        Memory
    }
}

impl<T: Drop> From<AllocFailed<T>> for Memory {
    fn from(_error: AllocFailed<T>) -> Memory {
        Memory
    }
}

/// A part of a text, as byte offsets: `from` is in it, `to` is the first after it.
#[derive(Clone, Copy, Debug, PartialEq, Eq)]
pub struct Span {
    /// The offset of the first byte.
    pub from: u32,
    /// The offset after the last byte.
    pub to: u32,
}

/// Bytes, which contracts see as their list.
#[derive(Debug, Drop)]
pub struct Text {
    bytes: Vec<u8>,
}

impl Model for Text {
    ghost use Rattle.std.specs.Prelude.{List, ℕ};

    ghost Value = { List ℕ };

    ghost view = { λ text. text.bytes.items };
}

impl Text {
    /// A copy of the bytes.
    pub fn from_slice(alloc: Global, bytes: &[u8]) -> Result<Text, Memory>
        ensures { IfOk result (λ text. text ≡ bytes.now) }
    {
        Ok(Text {
            bytes: Vec::from_slice(alloc, bytes)?,
        })
    }

    /// The bytes themselves, without a copy.
    pub fn from_vec(bytes: Vec<u8>) -> Text
        ensures { result ≡ bytes.items }
    {
        Text { bytes }
    }

    /// The bytes.
    pub fn as_slice(&self) -> &[u8]
        ensures { result.now ≡ self.now }
    {
        self.bytes.as_slice()
    }

    /// How many bytes there are.
    pub fn len(&self) -> usize
        ensures { result ≡ length self.now }
    {
        self.bytes.len()
    }

    /// Whether there is no byte.
    pub fn is_empty(&self) -> bool
        ensures { IsTrue result ↔ (self.now ≡ []) }
    {
        self.bytes.is_empty()
    }
}

/// Words, which contracts see as their list.
#[derive(Debug, Drop)]
pub struct Words {
    words: Vec<i32>,
}

impl Model for Words {
    ghost use Rattle.std.specs.Prelude.{List, ℤ};

    ghost Value = { List ℤ };

    ghost view = { λ list. list.words.items };
}

impl Words {
    /// A copy of the words.
    pub fn from_slice(alloc: Global, words: &[i32]) -> Result<Words, Memory>
        ensures { IfOk result (λ list. list ≡ words.now) }
    {
        Ok(Words {
            words: Vec::from_slice(alloc, words)?,
        })
    }

    /// The words themselves, without a copy.
    pub fn from_vec(words: Vec<i32>) -> Words
        ensures { result ≡ words.items }
    {
        Words { words }
    }

    /// The words.
    pub fn as_slice(&self) -> &[i32]
        ensures { result.now ≡ self.now }
    {
        self.words.as_slice()
    }
}
