//! The slots of a cycle.
use mars_base::{ClusterShape, Side};
use std::marker::Model;

/// One word of one slot.
#[derive(Clone, Copy, Debug, PartialEq, Eq)]
pub struct SlotPlace {
    /// The number of the round in its cycle, from 0.
    pub round: u32,
    /// The unit whose slot it is.
    pub unit: u8,
    /// The replica whose slot it is.
    pub side: Side,
    /// The number of the word in its slot, from 0.
    pub word: u8,
}

/// The rounds of a cycle. In each round each unit has an A slot and then a B slot; a slot has one word
/// a tick and then idle ticks, and idle ticks may end a round. Contracts see it as a `Layout`.
#[derive(Clone, Copy, Debug)]
pub struct Round {
    units: u8,
    slot_words: u8,
    precision: u8,
    round_ticks: u32,
    rounds: u32,
}

impl Model for Round {
    ghost use Rattle.tdma.specs.Layout.{Layout, IsLayout};

    ghost Value = { Layout };

    ghost view = { λ r. record { units = r.units; slot_words = r.slot_words; precision = r.precision; round_ticks = r.round_ticks; rounds = r.rounds } };

    ghost invariant = { λ r. IsLayout (record { units = r.units; slot_words = r.slot_words; precision = r.precision; round_ticks = r.round_ticks; rounds = r.rounds }) };

    ghost inverse = { λ l. record { units = l.units; slot_words = l.slot_words; precision = l.precision; round_ticks = l.round_ticks; rounds = l.rounds } };
}

impl Round {
    ghost use Rattle.std.specs.Prelude.{◌≡◌, ℕ, ◌+◌, ◌%◌, ◌<◌, ◌≤◌, ◌↔◌, IfSome, IfNone};
    ghost use Rattle.mars_base.specs.Shape.{IsShape};
    ghost use Rattle.mars_base.specs.declared.shape.Side.TheVariants.{A, B};
    ghost use Rattle.tdma.specs.Layout.{IsLayout, layout_of, cycle_ticks, slot_start_of, last_word_tick, usable_of};
    ghost use Rattle.tdma.specs.Word.{IsAt, IsIdle, IsAlone};

    /// The rounds of a cycle of so many ticks.
    pub fn new(shape: &ClusterShape, cycle: u32) -> Round
        requires shape { IsShape shape.now }
        requires whole { cycle % shape.now.round ≡ 0 }
        ensures layout { result ≡ layout_of shape.now cycle }
        ensures cycle { cycle_ticks result ≡ cycle }
        ensures limits { IsLayout result }
    {
        Round {
            units: shape.units,
            slot_words: shape.slot_words,
            precision: shape.precision,
            round_ticks: shape.round,
            rounds: cycle / shape.round,
        }
    }

    /// How many rounds the cycle has.
    pub fn rounds(&self) -> u32
        ensures value { result ≡ self.now.rounds }
        ensures layout { IsLayout self.now }
    {
        self.rounds
    }

    /// How many units have slots, 1 to 8.
    pub fn units(&self) -> u8
        ensures value { result ≡ self.now.units }
        ensures limits { (1 ≤ result) × (result ≤ 8) }
    {
        self.units
    }

    /// How many words a frame has, 2 to 64.
    pub fn slot_words(&self) -> u8
        ensures value { result ≡ self.now.slot_words }
        ensures limits { (2 ≤ result) × (result ≤ 64) }
    {
        self.slot_words
    }

    /// The tick at which a slot begins.
    pub fn slot_start(&self, round: u32, unit: u8, side: Side) -> u32
        requires round { round < self.now.rounds }
        requires unit { unit < self.now.units }
        ensures start { result ≡ slot_start_of self.now round unit side }
        ensures inside { last_word_tick self.now round unit side < cycle_ticks self.now }
    {
        let slot = u32::from(self.slot_words) + u32::from(self.precision);
        let before = match side {
            Side::A => 0,
            Side::B => slot,
        };
        round * self.round_ticks + 2 * u32::from(unit) * slot + before
    }

    /// The first tick from which on the unit's frame of the round may be used. On every clock of the
    /// cluster the last words of both its slots are then over.
    pub fn usable(&self, round: u32, unit: u8) -> u32
        requires round { round < self.now.rounds }
        requires unit { unit < self.now.units }
        ensures usable { result ≡ usable_of self.now round unit }
        ensures after_b { last_word_tick self.now round unit B + 1 + self.now.precision ≡ result }
        ensures after_a { last_word_tick self.now round unit A + 1 + self.now.precision ≤ result }
        ensures inside { result ≤ cycle_ticks self.now }
    {
        let slot = u32::from(self.slot_words) + u32::from(self.precision);
        round * self.round_ticks + (2 * u32::from(unit) + 2) * slot
    }

    /// Which word is on the bus at a tick of the cycle; None exactly at an idle tick. There is at most
    /// one such word.
    pub fn slot_of(&self, tick: u32) -> Option<SlotPlace>
        requires { tick < cycle_ticks self.now }
        ensures word { IfSome result (IsAt self.now tick) }
        ensures alone { IfSome result (IsAlone self.now tick) }
        ensures idle { IfNone result (IsIdle self.now tick) }
    {
        let slot_ticks = u32::from(self.slot_words) + u32::from(self.precision);
        let within = tick % self.round_ticks;
        let slot = within / slot_ticks;
        let word = within % slot_ticks;
        if slot >= 2 * u32::from(self.units) || word >= u32::from(self.slot_words) {
            return None;
        }
        Some(SlotPlace {
            round: tick / self.round_ticks,
            unit: (slot / 2) as u8,
            side: if slot % 2 == 0 { Side::A } else { Side::B },
            word: word as u8,
        })
    }

    /// The first round whose A slot of the unit begins at the tick or later. It may lie past the cycle.
    pub(crate) fn first_from(&self, unit: u8, from: u32) -> u32
        requires { unit < self.now.units }
        ensures { (k : ℕ) → (from ≤ slot_start_of self.now k unit A) ↔ (result ≤ k) }
    {
        let slot = u32::from(self.slot_words) + u32::from(self.precision);
        from.saturating_sub(2 * u32::from(unit) * slot)
            .div_ceil(self.round_ticks)
    }
}
