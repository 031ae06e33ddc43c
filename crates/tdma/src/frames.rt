//! The words that are taken in frames.
use crate::Round;
use mars_base::Memory;
use std::alloc::Global;
use std::marker::Model;

/// How many words of each frame of a cycle are taken. Each unit has one frame a round. Contracts see it
/// as a `Load`.
#[derive(Debug, Drop)]
pub struct Frames {
    round: Round,
    words: Vec<u8>,
}

impl Model for Frames {
    ghost use Rattle.tdma.specs.Layout.{IsLayout};
    ghost use Rattle.tdma.specs.Load.{Load, IsLoad};

    ghost Value = { Load };

    ghost view = { λ f. record { layout = f.round; words = f.words.items } };

    ghost invariant = { λ f. IsLayout f.round × IsLoad (record { layout = f.round; words = f.words.items }) };
}

impl Frames {
    ghost use Rattle.std.specs.Prelude.{◌≡◌, ℕ, ◌+◌, ◌<◌, ◌≤◌, ◌↔◌, IsTrue, IfOk, IfSome, IfNone};
    ghost use Rattle.tdma.specs.Load.{Load, IsLoad, taken_in, Takes, HasRoom, IsFirstRoom, IsFirstRoomBy, HasNoRoomBy};

    /// The frames of a cycle, with no word taken.
    pub fn new(alloc: Global, round: &Round) -> Result<Frames, Memory>
        ensures layout { IfOk result (λ f. f.layout ≡ round.now) }
        ensures taken { IfOk result (λ f. (unit k : ℕ) → taken_in f unit k ≡ 0) }
    {
        let count = usize::from(round.units()) * round.rounds() as usize;
        Ok(Frames {
            round: *round,
            words: vec![in alloc; 0; count]?,
        })
    }

    /// Whether a frame has room for so many words.
    fn fits(&self, unit: u8, round: u32, words: u8) -> bool
        requires unit { unit < self.now.layout.units }
        requires round { round < self.now.layout.rounds }
        ensures { IsTrue result ↔ (taken_in self.now unit round + words ≤ self.now.layout.slot_words) }
    {
        u32::from(self.taken(unit, round)) + u32::from(words) <= u32::from(self.round.slot_words())
    }

    /// The first round whose A slot of the unit begins at the tick or later and whose frame has room for
    /// so many words; None exactly where there is none.
    pub fn first_room(&self, round: &Round, unit: u8, from: u32, words: u8) -> Option<u32>
        requires same { round.now ≡ self.now.layout }
        requires unit { unit < round.now.units }
        ensures first { IfSome result (IsFirstRoom self.now unit from words) }
        ensures none { IfNone result ((k : ℕ) → ¬ HasRoom self.now unit from words k) }
    {
        for k in round.first_from(unit, from)..round.rounds() {
            if self.fits(unit, k, words) {
                return Some(k);
            }
        }
        None
    }

    /// The first round whose A slot of the unit begins at the tick or later and whose frame has room for
    /// so many words, where that frame may be used at the last tick or before; None exactly where no
    /// such frame with room may be used by then. No round past the last tick is looked at.
    pub fn first_room_by(
        &self,
        round: &Round,
        unit: u8,
        from: u32,
        last: u32,
        words: u8,
    ) -> Option<u32>
        requires same { round.now ≡ self.now.layout }
        requires unit { unit < round.now.units }
        ensures first { IfSome result (IsFirstRoomBy self.now unit from last words) }
        ensures none { IfNone result (HasNoRoomBy self.now unit from last words) }
    {
        let first = round.first_from(unit, from);
        for k in first..round.rounds() {
            if round.usable(k, unit) > last {
                return None;
            }
            if self.fits(unit, k, words) {
                return Some(k);
            }
        }
        None
    }

    /// How many words of a frame are taken.
    pub fn taken(&self, unit: u8, round: u32) -> u8
        requires unit { unit < self.now.layout.units }
        requires round { round < self.now.layout.rounds }
        ensures { result ≡ taken_in self.now unit round }
    {
        self.words[usize::from(unit) * self.round.rounds() as usize + round as usize]
    }

    /// Takes words of a frame, and answers their offset in it: how many were taken before.
    pub fn take(&mut self, unit: u8, round: u32, words: u8) -> u8
        requires unit { unit < self.old.layout.units }
        requires round { round < self.old.layout.rounds }
        requires room { taken_in self.old unit round + words ≤ self.old.layout.slot_words }
        ensures offset { result ≡ taken_in self.old unit round }
        ensures taken { Takes self.old self.new unit round words }
    {
        let place = usize::from(unit) * self.round.rounds() as usize + round as usize;
        let offset = self.words[place];
        self.words[place] = offset + words;
        offset
    }

    /// Gives back the words that were taken last in a frame: what was before is what is left with these
    /// words taken.
    pub fn give_back(&mut self, unit: u8, round: u32, words: u8)
        requires unit { unit < self.old.layout.units }
        requires round { round < self.old.layout.rounds }
        requires taken { words ≤ taken_in self.old unit round }
        ensures given { Takes self.new self.old unit round words }
        ensures undone { (before : Load) → IsLoad before → Takes before self.old unit round words → self.new ≡ before }
    {
        let place = usize::from(unit) * self.round.rounds() as usize + round as usize;
        self.words[place] -= words;
    }
}
