//! The line that the events of a cycle share.
ghost use Rattle.std.specs.Prelude.{◌≡◌, List, ℤ, length, IfOk, Some, None, MatchOption};

use mars_base::Memory;
use std::alloc::Global;
use std::marker::Model;

/// The line of a cycle's events, where the cycle has had one. It has room for one line of so many words. Contracts see
/// its width and the line.
#[derive(Drop)]
pub struct CycleLine {
    // All its room.
    words: Vec<i32>,
    // Whether the cycle has had an event.
    is_there: bool,
}

impl Model for CycleLine {
    ghost use Rattle.std.specs.Prelude.{length, if◌then◌else◌, Some, None};
    ghost use Rattle.cycle_line.specs.Lines.{LineOf};

    ghost Value = { LineOf };

    ghost view = { λ l. record { width = length l.words.items; line = if l.is_there then Some l.words.items else None } };
}

impl CycleLine {
    /// Room for a line of so many words, before the cycle's first event. No other call takes memory.
    pub fn new(alloc: Global, width: u32) -> Result<CycleLine, Memory>
        ensures width { IfOk result (λ l. l.width ≡ width) }
        ensures none { IfOk result (λ l. l.line ≡ None) }
    {
        Ok(CycleLine {
            words: vec![in alloc; 0i32; width as usize]?,
            is_there: false,
        })
    }

    /// How many words a line has.
    pub fn width(&self) -> usize
        ensures { result ≡ self.now.width }
    {
        self.words.len()
    }

    /// Keeps the line of an event of the cycle: that of its first event, and later the same again.
    pub fn keep(&mut self, line: &[i32])
        requires width { length line.now ≡ self.old.width }
        requires same { (other : List ℤ) → self.old.line ≡ Some other → other ≡ line.now }
        ensures width { self.new.width ≡ self.old.width }
        ensures line { self.new.line ≡ Some line.now }
    {
        if !self.is_there {
            self.words.as_mut_slice().copy_from_slice(line);
            self.is_there = true;
        }
    }

    /// The line of the cycle's events; None exactly before the first one.
    pub fn line(&self) -> Option<&[i32]>
        ensures { MatchOption result (self.now.line ≡ None) (λ words. self.now.line ≡ Some words.now) }
    {
        if self.is_there {
            Some(self.words.as_slice())
        } else {
            None
        }
    }

    /// The next cycle begins: it has had no event.
    pub fn clear(&mut self)
        ensures width { self.new.width ≡ self.old.width }
        ensures none { self.new.line ≡ None }
    {
        self.is_there = false;
    }
}
