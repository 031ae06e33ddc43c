//! One slot.
ghost use Rattle.std.specs.Prelude.{◌≡◌, ℕ, ◌<◌, ◌≤◌, [], ◌∷◌, ◌++◌, length, IfOk, true, false, IfSome, IsSome, ◌↔◌};
ghost use Rattle.bus.specs.Slots.{sent_of, slot_state, HasRoom};
ghost use Rattle.bus.specs.SlotState.{Open as OpenState, put, cut};

use mars_base::Memory;
use std::alloc::Global;
use std::marker::Model;

/// A slot in which nothing was put, with all its room; seen as how many words it has.
#[derive(Drop)]
pub struct Open {
    words: Vec<i32>,
}

impl Model for Open {
    ghost use Rattle.std.specs.Prelude.{ℕ, ◌<◌, length};

    ghost Value = { ℕ };

    ghost view = { λ s. length s.words.items };

    ghost invariant = { λ s. 1 < length s.words.items };
}

/// A slot with some of its words, and more to come.
#[derive(Drop)]
pub struct Sending {
    words: Vec<i32>,
    count: usize,
}

impl Model for Sending {
    ghost use Rattle.std.specs.Prelude.{ℕ, ◌<◌, take, length};
    ghost use Rattle.bus.specs.SlotState.{Partly};

    ghost Value = { Partly };

    ghost view = { λ s. record { width = length s.words.items; words = take s.count s.words.items } };

    ghost invariant = { λ s. (s.count < length s.words.items) × (1 < length s.words.items) };
}

/// A slot that has all its words or was cut.
#[derive(Drop)]
pub struct Closed {
    words: Vec<i32>,
    count: usize,
    is_whole: bool,
}

impl Model for Closed {
    ghost use Rattle.std.specs.Prelude.{ℕ, ◌<◌, ◌≤◌, take, length};
    ghost use Rattle.bus.specs.SlotState.{Ended};

    ghost Value = { Ended };

    ghost view = { λ s. record { width = length s.words.items; whole = s.is_whole; words = take s.count s.words.items } };

    ghost invariant = { λ s. (s.count ≤ length s.words.items) × (1 < length s.words.items) };
}

/// What a slot is after one word more.
#[derive(Drop)]
pub enum Sent {
    /// More words are to come.
    More(Sending),
    /// That was the last one.
    Done(Closed),
}

/// A slot of a cycle; `Moved` stands only while a call has it in hand.
#[derive(Drop)]
pub(crate) enum Slot {
    Open(Open),
    Sending(Sending),
    Closed(Closed),
    Moved,
}

impl Open {
    /// A slot of so many words, 2 to 64. No other call of a slot takes memory.
    pub fn new(alloc: Global, words: u8) -> Result<Open, Memory>
        requires { 1 < words }
        ensures { IfOk result (λ s. s ≡ words) }
    {
        Ok(Open {
            words: vec![in alloc; 0i32; usize::from(words)]?,
        })
    }

    /// The slot with its sender at work, and no word yet.
    pub fn begin(self) -> Sending
        ensures { result ≡ record { width = self; words = [] } }
    {
        let Open { words } = self;
        Sending { words, count: 0 }
    }
}

impl Sending {
    /// Puts one word; the slot is done exactly with its last one.
    pub fn put(self, word: i32) -> Sent
        ensures { result ≡ sent_of self.width (self.words ++ word ∷ []) }
    {
        let Sending { mut words, count } = self;
        words[count] = word;
        let count = count + 1;
        if count == words.len() {
            Sent::Done(Closed {
                words,
                count,
                is_whole: true,
            })
        } else {
            Sent::More(Sending { words, count })
        }
    }

    /// How many words were put.
    pub fn count(&self) -> usize
        ensures { result ≡ length self.now.words }
    {
        self.count
    }

    /// Ends the slot before its last word.
    pub fn cut(self) -> Closed
        ensures { result ≡ record { width = self.width; whole = false; words = self.words } }
    {
        let Sending { words, count } = self;
        Closed {
            words,
            count,
            is_whole: false,
        }
    }
}

impl Closed {
    /// The words; None exactly where the slot was cut.
    pub fn whole(&self) -> Option<&[i32]>
        ensures some { self.now.whole ≡ true → IfSome result (λ words. words.now ≡ self.now.words) }
        ensures here { IsSome result ↔ (self.now.whole ≡ true) }
    {
        if self.is_whole {
            Some(&self.words[..self.count])
        } else {
            None
        }
    }

    /// The slot again with nothing put, in the memory that it has.
    pub fn reopen(self) -> Open
        ensures { result ≡ self.width }
    {
        let Closed {
            words,
            count: _,
            is_whole: _,
        } = self;
        Open { words }
    }
}

impl Slot {
    /// The slot after one word more.
    pub(crate) fn put(self, word: i32) -> Slot
        ensures { (n : ℕ) → HasRoom n self → (HasRoom n result) × (slot_state result ≡ put n (slot_state self) word) }
    {
        let sent = match self {
            Slot::Open(open) => open.begin().put(word),
            Slot::Sending(sending) => sending.put(word),
            Slot::Closed(closed) => return Slot::Closed(closed),
            Slot::Moved => return Slot::Moved,
        };
        match sent {
            Sent::More(sending) => Slot::Sending(sending),
            Sent::Done(closed) => Slot::Closed(closed),
        }
    }

    /// The slot after its sender fell silent.
    pub(crate) fn cut(self) -> Slot
        ensures { (n : ℕ) → HasRoom n self → (HasRoom n result) × (slot_state result ≡ cut (slot_state self)) }
    {
        match self {
            Slot::Sending(sending) => Slot::Closed(sending.cut()),
            other => other,
        }
    }

    /// The slot with nothing put, in the memory that it has.
    pub(crate) fn reopen(self) -> Slot
        ensures { (n : ℕ) → HasRoom n self → (HasRoom n result) × (slot_state result ≡ OpenState) }
    {
        match self {
            Slot::Open(open) => Slot::Open(open),
            Slot::Sending(sending) => Slot::Open(sending.cut().reopen()),
            Slot::Closed(closed) => Slot::Open(closed.reopen()),
            Slot::Moved => Slot::Moved,
        }
    }
}
