//! The slots of a cycle by number.
ghost use Rattle.std.specs.Prelude.{◌≡◌, ◌<◌, ℕ, length, slice_set, IfOk, MatchOption, Some, None, All, IsTrue, ◌↔◌};
ghost use Rattle.bus.specs.SlotState.{Open as OpenState, StandsAt, IsSending, put, cut, whole, slot_at};
ghost use Rattle.bus.specs.Slots.{slot_state, HasRoom};

use crate::slot::{Open, Slot};
use mars_base::Memory;
use std::alloc::Global;
use std::marker::Model;
use std::mem;

/// Slots of one width, by number; seen as their states.
#[derive(Drop)]
pub(crate) struct Slots {
    slots: Vec<Slot>,
    width: u8,
}

impl Model for Slots {
    ghost use Rattle.std.specs.Prelude.{map, ◌<◌};
    ghost use Rattle.std.specs.List.{All};
    ghost use Rattle.bus.specs.SlotState.{SlotStates};
    ghost use Rattle.bus.specs.Slots.{slot_state, HasRoom};

    ghost Value = { SlotStates };

    ghost view = { λ b. record { width = b.width; slots = map slot_state b.slots.items } };

    ghost invariant = { λ b. (1 < b.width) × All (HasRoom b.width) b.slots.items };
}

impl Slots {
    /// So many open slots of so many words.
    pub(crate) fn new(alloc: Global, count: usize, width: u8) -> Result<Slots, Memory>
        requires { 1 < width }
        ensures width { IfOk result (λ s. s.width ≡ width) }
        ensures count { IfOk result (λ s. length s.slots ≡ count) }
        ensures open { IfOk result (λ s. (n : ℕ) → slot_at s.slots n ≡ OpenState) }
    {
        let mut slots = Vec::new(alloc);
        'fill: while slots.len() < count {
            slots.push(Slot::Open(Open::new(alloc, width)?))?;
        }
        Ok(Slots { slots, width })
    }

    /// Puts one word into a slot.
    pub(crate) fn put(&mut self, slot: usize, word: i32)
        requires { slot < length self.old.slots }
        ensures width { self.new.width ≡ self.old.width }
        ensures slots { self.new.slots ≡ slice_set self.old.slots slot (put self.old.width (slot_at self.old.slots slot) word) }
    {
        let old = mem::replace(&mut self.slots[slot], Slot::Moved);
        self.slots[slot] = old.put(word);
    }

    /// Cuts a slot.
    pub(crate) fn cut(&mut self, slot: usize)
        requires { slot < length self.old.slots }
        ensures width { self.new.width ≡ self.old.width }
        ensures slots { self.new.slots ≡ slice_set self.old.slots slot (cut (slot_at self.old.slots slot)) }
    {
        let old = mem::replace(&mut self.slots[slot], Slot::Moved);
        self.slots[slot] = old.cut();
    }

    /// Whether a slot stands at this word.
    pub(crate) fn stands_at(&self, slot: usize, word: usize) -> bool
        requires { slot < length self.now.slots }
        ensures { IsTrue result ↔ StandsAt (slot_at self.now.slots slot) word }
    {
        match &self.slots[slot] {
            Slot::Open(_) => word == 0,
            Slot::Sending(sending) => sending.count() == word,
            Slot::Closed(_) | Slot::Moved => false,
        }
    }

    /// Whether a slot is sending.
    pub(crate) fn is_sending(&self, slot: usize) -> bool
        requires { slot < length self.now.slots }
        ensures { IsTrue result ↔ IsSending (slot_at self.now.slots slot) }
    {
        matches!(&self.slots[slot], Slot::Sending(_))
    }

    /// The words of a slot that has them all.
    pub(crate) fn whole(&self, slot: usize) -> Option<&[i32]>
        requires { slot < length self.now.slots }
        ensures { MatchOption result (whole (slot_at self.now.slots slot) ≡ None) (λ words. whole (slot_at self.now.slots slot) ≡ Some words.now) }
    {
        match &self.slots[slot] {
            Slot::Closed(closed) => closed.whole(),
            _ => None,
        }
    }

    /// Opens every slot again.
    pub(crate) fn clear(&mut self)
        ensures width { self.new.width ≡ self.old.width }
        ensures count { length self.new.slots ≡ length self.old.slots }
        ensures open { (n : ℕ) → slot_at self.new.slots n ≡ OpenState }
    {
        reopen_all(&mut self.slots);
    }
}

// Opens every slot again, each with the room that it has.
fn reopen_all(slots: &mut Vec<Slot>)
    ensures count { length slots.new.items ≡ length slots.old.items }
    ensures room { (n : ℕ) → All (HasRoom n) slots.old.items → All (HasRoom n) slots.new.items }
    ensures open { (n : ℕ) → All (HasRoom n) slots.old.items → All (λ s. slot_state s ≡ OpenState) slots.new.items }
{
    for i in 0..slots.len() {
        let old = mem::replace(&mut slots[i], Slot::Moved);
        slots[i] = old.reopen();
    }
}
