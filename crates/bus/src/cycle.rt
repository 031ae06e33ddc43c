//! The bus of a cycle.
ghost use Rattle.std.specs.Prelude.{◌≡◌, ◌<◌, ◌≤◌, ◌+◌, ◌*◌, ◌^◌, ℕ, length, slice_set, IfOk, MatchOption, Some, None, IsTrue, ◌↔◌};
ghost use Rattle.bus.specs.Numbers.{slot_count, slot_number, slot_of};
ghost use Rattle.bus.specs.SlotState.{Open as OpenState, StandsAt, IsSending, AtMostOneSends, NoOtherSends, put, cut, whole, slot_at};
ghost use Rattle.tdma.specs.Layout.{side_number};

use crate::slots::Slots;
use mars_base::{Memory, Side};
use std::alloc::Global;
use std::marker::Model;
use tdma::{Round, SlotPlace};

/// The slots of one cycle: of each round, unit and side one. All memory is taken by `new`.
#[derive(Drop)]
pub struct Bus {
    round: Round,
    slots: Slots,
}

impl Model for Bus {
    ghost use Rattle.std.specs.Prelude.{◌≡◌, length};
    ghost use Rattle.bus.specs.Numbers.{BusState, slot_count};
    ghost use Rattle.tdma.specs.Layout.{IsLayout};

    ghost Value = { BusState };

    ghost view = { λ b. record { layout = b.round; slots = b.slots.slots } };

    ghost invariant = { λ b. IsLayout b.round × (b.slots.width ≡ b.round.slot_words) × (length b.slots.slots ≡ slot_count b.round) };
}

impl Bus {
    /// The bus of a cycle, with every slot open.
    pub fn new(alloc: Global, round: &Round) -> Result<Bus, Memory>
        ensures layout { IfOk result (λ b. b.layout ≡ round.now) }
        ensures count { IfOk result (λ b. length b.slots ≡ slot_count round.now) }
        ensures open { IfOk result (λ b. (n : ℕ) → slot_at b.slots n ≡ OpenState) }
    {
        let count = round.rounds() as usize * usize::from(round.units()) * 2;
        Ok(Bus {
            round: *round,
            slots: Slots::new(alloc, count, round.slot_words())?,
        })
    }

    /// Puts one word into a slot that is open or sending and stands at this word.
    pub fn put(&mut self, place: SlotPlace, word: i32)
        requires round { place.round < self.old.layout.rounds }
        requires unit { place.unit < self.old.layout.units }
        requires at { StandsAt (slot_of self.old place.round place.unit place.side) place.word }
        ensures layout { self.new.layout ≡ self.old.layout }
        ensures slots { self.new.slots ≡ slice_set self.old.slots (slot_number self.old.layout place.round place.unit place.side)
            (put self.old.layout.slot_words (slot_of self.old place.round place.unit place.side) word) }
        ensures alone { NoOtherSends self.old.slots (slot_number self.old.layout place.round place.unit place.side) → AtMostOneSends self.new.slots }
    {
        let number = self.number(place.round, place.unit, place.side);
        self.slots.put(number, word);
    }

    /// Cuts a slot that is sending, whose sender fell silent.
    pub fn cut(&mut self, round: u32, unit: u8, side: Side)
        requires round { round < self.old.layout.rounds }
        requires unit { unit < self.old.layout.units }
        requires sending { IsSending (slot_of self.old round unit side) }
        ensures layout { self.new.layout ≡ self.old.layout }
        ensures slots { self.new.slots ≡ slice_set self.old.slots (slot_number self.old.layout round unit side) (cut (slot_of self.old round unit side)) }
        ensures alone { AtMostOneSends self.old.slots → AtMostOneSends self.new.slots }
    {
        let number = self.number(round, unit, side);
        self.slots.cut(number);
    }

    /// Whether a slot stands at this word: it is open and the word is its first, or it is sending and this is the
    /// next one.
    pub fn stands_at(&self, place: SlotPlace) -> bool
        requires round { place.round < self.now.layout.rounds }
        requires unit { place.unit < self.now.layout.units }
        ensures { IsTrue result ↔ StandsAt (slot_of self.now place.round place.unit place.side) place.word }
    {
        let number = self.number(place.round, place.unit, place.side);
        self.slots.stands_at(number, usize::from(place.word))
    }

    /// Whether a slot is sending: some of its words were put, and more are to come.
    pub fn is_sending(&self, round: u32, unit: u8, side: Side) -> bool
        requires round { round < self.now.layout.rounds }
        requires unit { unit < self.now.layout.units }
        ensures { IsTrue result ↔ IsSending (slot_of self.now round unit side) }
    {
        self.slots.is_sending(self.number(round, unit, side))
    }

    /// The words of a frame that was sent whole; None exactly where the slot isn't over or was cut.
    pub fn whole(&self, round: u32, unit: u8, side: Side) -> Option<&[i32]>
        requires round { round < self.now.layout.rounds }
        requires unit { unit < self.now.layout.units }
        ensures { MatchOption result (whole (slot_of self.now round unit side) ≡ None) (λ words. whole (slot_of self.now round unit side) ≡ Some words.now) }
    {
        self.slots.whole(self.number(round, unit, side))
    }

    /// Opens every slot again, for the next cycle.
    pub fn clear(&mut self)
        ensures layout { self.new.layout ≡ self.old.layout }
        ensures count { length self.new.slots ≡ slot_count self.new.layout }
        ensures open { (n : ℕ) → slot_at self.new.slots n ≡ OpenState }
    {
        self.slots.clear();
    }

    // The number of a slot.
    fn number(&self, round: u32, unit: u8, side: Side) -> usize
        requires round { round < self.now.layout.rounds }
        requires unit { unit < self.now.layout.units }
        ensures value { result ≡ slot_number self.now.layout round unit side }
        ensures within { result < length self.now.slots }
    {
        let units = usize::from(self.round.units());
        number_of(round as usize, units, usize::from(unit), side)
    }
}

// The number of a slot among those of a cycle: round by round, in each unit by unit, A before B.
fn number_of(round: usize, units: usize, unit: usize, side: Side) -> usize
    requires round { round < 2 ^ 32 }
    requires units { units ≤ 8 }
    requires unit { unit < 8 }
    ensures { result ≡ (round * units + unit) * 2 + side_number side }
{
    let before = (round * units + unit) * 2;
    match side {
        Side::A => before,
        Side::B => before + 1,
    }
}
