//! The bytes of a source that were taken and not yet used.
ghost use Rattle.std.specs.Prelude.{◌≡◌, ◌+◌, ◌-◌, ◌*◌, ◌<◌, ◌≤◌, [], IfOk, MatchResult, length, take, drop};
ghost use Rattle.std.specs.Io.KnownBytes.{prepend_known, IsAtEnd};
ghost use Rattle.mars_base.specs.Causes.{HasCause};

use crate::LineBuf;
use mars_base::{Memory, Source, SourceFault};
use std::alloc::Global;
use std::marker::Model;

/// How many bytes a line has at most before its end.
pub const LONGEST: usize = 65_536;

// The room of a window: four lines.
const ROOM: usize = 4 * LONGEST;

/// Bytes that were taken from a source and not yet used, seen as their list.
#[derive(Drop)]
pub struct Window {
    bytes: Vec<u8>,
    start: usize,
    end: usize,
}

impl Model for Window {
    ghost use Rattle.std.specs.Prelude.{◌≡◌, ◌≤◌, List, ℕ, take, drop, vec_len};

    ghost Value = { List ℕ };

    ghost view = { λ w. drop w.start (take w.end w.bytes.items) };

    ghost invariant = { λ w. (w.start ≤ w.end) × (w.end ≤ vec_len w.bytes) × (vec_len w.bytes ≡ 262144) };
}

impl Window {
    /// An empty window that has all its room.
    pub fn new(alloc: Global) -> Result<Window, Memory>
        ensures { IfOk result (λ w. w ≡ []) }
    {
        Ok(Window {
            bytes: vec![in alloc; 0u8; ROOM]?,
            start: 0,
            end: 0,
        })
    }

    /// The bytes.
    pub fn bytes(&self) -> &[u8]
        ensures { result.now ≡ self.now }
    {
        &self.bytes[self.start..self.end]
    }

    /// Uses the first bytes up.
    pub fn consume(&mut self, count: usize)
        requires { count ≤ length self.old }
        ensures { self.new ≡ drop count self.old }
    {
        self.start += count;
    }

    /// Takes more bytes from the source, to where they are read from, and answers how many; 0 exactly where
    /// none is left. No text waits unsent when it is asked.
    pub fn fill<I: Source>(
        &mut self,
        source: &mut I,
        unsent: &LineBuf,
    ) -> Result<usize, SourceFault>
        requires short { length self.old ≤ 65536 }
        requires sent { unsent.now ≡ [] }
        ensures bytes { prepend_known self.new (I.left source.new) ≡ prepend_known self.old (I.left source.old) }
        ensures kept { take (length self.old) self.new ≡ self.old }
        ensures count { MatchResult result (λ n. length self.new ≡ length self.old + n) (λ _. self.new ≡ self.old) }
        ensures end { IfOk result (λ n. n ≡ 0 → (self.new ≡ self.old) × IsAtEnd (I.left source.new)) }
        ensures cause { HasCause (I.faults source.old) (I.faults source.new) result }
    {
        let nothing_waits = unsent.is_empty();
        prove!(nothing_waits);
        let (start, end) = to_the_front(&mut self.bytes, self.start, self.end);
        self.start = start;
        self.end = end;
        let count = read_behind(&mut self.bytes, self.end, source)?;
        self.end += count;
        Ok(count)
    }
}

// Moves the bytes from `start` to `end` to the front, where they overlap nothing there, and answers where
// they stand.
fn to_the_front(bytes: &mut [u8], start: usize, end: usize) -> (usize, usize)
    requires order { start ≤ end }
    requires within { end ≤ length bytes.old }
    ensures same { drop result.0 (take result.1 bytes.new) ≡ drop start (take end bytes.old) }
    ensures order { result.0 ≤ result.1 }
    ensures room { result.1 ≤ 2 * (end - start) }
{
    let count = end - start;
    if start < count {
        return (start, end);
    }
    let (front, back) = bytes.split_at_mut(start);
    front[..count].copy_from_slice(&back[..count]);
    (0, count)
}

// Takes bytes from the source to where they stand behind a place, and answers how many; 0 exactly where none
// is left.
fn read_behind<I: Source>(
    bytes: &mut [u8],
    place: usize,
    source: &mut I,
) -> Result<usize, SourceFault>
    requires { place < length bytes.old }
    ensures front { take place bytes.new ≡ take place bytes.old }
    ensures room { IfOk result (λ n. place + n ≤ length bytes.new) }
    ensures bytes { MatchResult result
        (λ n. (I.left source.old ≡ prepend_known (take n (drop place bytes.new)) (I.left source.new)) × (n ≡ 0 → IsAtEnd (I.left source.new)))
        (λ _. I.left source.new ≡ I.left source.old) }
    ensures cause { HasCause (I.faults source.old) (I.faults source.new) result }
{
    source.read(&mut bytes[place..])
}
