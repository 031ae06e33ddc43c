//! Room for messages in frames.
ghost use Rattle.std.specs.Prelude.{◌≡◌, ℕ, ◌+◌, ◌<◌, ◌≤◌, ◌↔◌, length, IfSome, IfNone, IsTrue};
ghost use Rattle.tdma.specs.Layout.{IsLayout, cycle_ticks};
ghost use Rattle.tdma.specs.Load.{taken_in};
ghost use Rattle.decisions.specs.Place.{words_sent};
ghost use Rattle.placement.specs.Loads.{AreInside, IsFirstFor, HasRoomFor, IsLoaded};

use decisions::Sent;
use mars_base::Side;
use tdma::{Frames, Round};

/// The words that messages take in a frame.
fn words_in(messages: &[Sent], unit: u8, round: u32) -> u32
    requires { length messages.now ≤ 16 }
    ensures words { result ≡ words_sent messages.now unit round }
    ensures bound { result ≤ 4080 }
{
    let mut words = 0;
    for message in messages {
        if message.unit == unit && message.round == round {
            words += u32::from(message.words);
        }
    }
    words
}

/// Whether a frame has room for so many words behind those that are taken and those of the messages.
fn fits(frames: &Frames, round: &Round, messages: &[Sent], unit: u8, k: u32, words: u8) -> bool
    requires same { round.now ≡ frames.now.layout }
    requires unit { unit < frames.now.layout.units }
    requires round { k < frames.now.layout.rounds }
    requires few { length messages.now ≤ 16 }
    ensures { IsTrue result ↔ (taken_in frames.now unit k + words_sent messages.now unit k + words ≤ frames.now.layout.slot_words) }
{
    let taken = taken_with(frames, messages, unit, k);
    taken + u32::from(words) <= u32::from(round.slot_words())
}

/// The first round whose A slot of the unit begins at the tick or later and whose frame has room for so many words
/// behind those that are taken and those of the messages; None where there is none.
pub(crate) fn room_for(
    frames: &Frames,
    round: &Round,
    messages: &[Sent],
    unit: u8,
    from: u32,
    words: u8,
) -> Option<u32>
    requires same { round.now ≡ frames.now.layout }
    requires unit { unit < frames.now.layout.units }
    requires few { length messages.now ≤ 16 }
    requires layout { IsLayout round.now }
    requires cycle { cycle_ticks round.now ≤ 65536 }
    ensures first { IfSome result (IsFirstFor frames.now messages.now unit from words) }
    ensures none { IfNone result ((k : ℕ) → HasRoomFor frames.now messages.now unit from words k → ⊥) }
{
    let mut from = from;
    while let Some(k) = frames.first_room(round, unit, from, words) {
        if fits(frames, round, messages, unit, k, words) {
            return Some(k);
        }
        from = round.slot_start(k, unit, Side::A) + 1;
    }
    None
}

/// The words that are taken in a frame, and those of the messages.
pub(crate) fn taken_with(frames: &Frames, messages: &[Sent], unit: u8, round: u32) -> u32
    requires unit { unit < frames.now.layout.units }
    requires round { round < frames.now.layout.rounds }
    requires few { length messages.now ≤ 16 }
    ensures taken { result ≡ taken_in frames.now unit round + words_sent messages.now unit round }
    ensures bound { result ≤ 4335 }
{
    u32::from(frames.taken(unit, round)) + words_in(messages, unit, round)
}

/// Takes the words of messages.
pub(crate) fn take_all(frames: &mut Frames, messages: &[Sent])
    requires inside { AreInside frames.old.layout messages.now }
    requires room { (unit round : ℕ) → unit < frames.old.layout.units → round < frames.old.layout.rounds → taken_in frames.old unit round + words_sent messages.now unit round ≤ frames.old.layout.slot_words }
    ensures { IsLoaded frames.old frames.new messages.now }
{
    for message in messages {
        frames.take(message.unit, message.round, message.words);
    }
}

/// Gives the words of messages back.
pub(crate) fn give_all(frames: &mut Frames, messages: &[Sent])
    requires inside { AreInside frames.old.layout messages.now }
    requires taken { (unit round : ℕ) → unit < frames.old.layout.units → round < frames.old.layout.rounds → words_sent messages.now unit round ≤ taken_in frames.old unit round }
    ensures { IsLoaded frames.new frames.old messages.now }
{
    for message in messages {
        frames.give_back(message.unit, message.round, message.words);
    }
}
