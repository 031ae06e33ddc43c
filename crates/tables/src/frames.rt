//! The rule on the frames of messages.
ghost use Rattle.std.specs.Prelude.{◌≡◌, ◌≢◌, ℕ, ◌+◌, ◌<◌, ◌≤◌, ◌⊎◌, ◌↔◌, length, get_or, IsTrue};
ghost use Rattle.mars_base.specs.declared.shape.Side.TheVariants.{A};
ghost use Rattle.tdma.specs.Layout.{IsLayout, cycle_ticks, slot_start_of};
ghost use Rattle.tables.specs.Named.{message_at, no_message, words_of, ShareAWord};
ghost use Rattle.tables.specs.Progress.{IsMarked, IsInFrame, tick_in};
ghost use Rattle.tables.specs.Rules.{FitsFrames};

use crate::named::words_of;
use crate::table::{Message, Tables};
use graph::Net;
use mars_base::Side;
use tdma::Round;

/// The most ticks of a cycle.
const TICKS: usize = 65_536;

/// Whether none of these ticks is marked.
fn are_free(marks: &[bool], first: usize, last: usize) -> bool
    requires { last ≤ length marks.now }
    ensures { IsTrue result ↔ ((tick : ℕ) → first ≤ tick → tick < last → IsMarked marks.now tick → ⊥) }
{
    for tick in first..last {
        if marks[tick] {
            return false;
        }
    }
    true
}

/// Marks these ticks.
fn mark(marks: &mut [bool], first: usize, last: usize)
    requires ordered { first ≤ last }
    requires within { last ≤ length marks.old }
    ensures { (tick : ℕ) → IsMarked marks.new tick ↔ (IsMarked marks.old tick ⊎ ((first ≤ tick) × (tick < last))) }
{
    for tick in first..last {
        marks[tick] = true;
    }
}

/// Whether a message fits its frame.
fn fits(net: &Net, round: &Round, message: &Message) -> bool
    ensures { IsTrue result ↔ (message.now.offset + words_of net.now message.now ≤ round.now.slot_words) }
{
    u32::from(message.offset) + words_of(net, message) <= u32::from(round.slot_words())
}

/// Whether each message does.
fn all_fit(tables: &Tables, net: &Net, round: &Round) -> bool
    ensures { IsTrue result ↔ ((i : ℕ) → i < length tables.now.messages → (message_at tables.now i).offset + words_of net.now (message_at tables.now i) ≤ round.now.slot_words) }
{
    let messages = tables.messages.as_slice();
    for place in 0..messages.len() {
        if !fits(net, round, &messages[place]) {
            return false;
        }
    }
    true
}

/// The tick of a message's first word, in the A slot.
fn first_tick(round: &Round, message: &Message) -> usize
    requires round { message.now.round < round.now.rounds }
    requires unit { message.now.unit < round.now.units }
    requires word { message.now.offset < round.now.slot_words }
    ensures first { result ≡ tick_in round.now message.now message.now.offset }
    ensures inside { slot_start_of round.now message.now.round message.now.unit A + round.now.slot_words ≤ cycle_ticks round.now }
{
    let start = round.slot_start(message.round, message.unit, Side::A);
    start as usize + usize::from(message.offset)
}

/// No tick is marked.
fn no_marks() -> [bool; TICKS]
    ensures { (tick : ℕ) → IsMarked result tick → ⊥ }
{
    [false; TICKS]
}

/// Whether no two messages of one frame share a word: the ticks of their words in the A slots are marked,
/// and none is marked twice.
fn are_apart(messages: &[Message], net: &Net, round: &Round) -> bool
    requires frames { (i : ℕ) → i < length messages.now → IsInFrame net.now round.now (get_or messages.now i no_message) }
    requires ticks { cycle_ticks round.now ≤ 65536 }
    requires layout { IsLayout round.now }
    ensures { IsTrue result ↔ ((i k : ℕ) → i < length messages.now → k < length messages.now → i ≢ k → ShareAWord net.now (get_or messages.now i no_message) (get_or messages.now k no_message) → ⊥) }
{
    let mut marks = no_marks();
    for place in 0..messages.len() {
        let message = &messages[place];
        let first = first_tick(round, message);
        let last = first + words_of(net, message) as usize;
        if !are_free(&marks, first, last) {
            return false;
        }
        mark(&mut marks, first, last);
    }
    true
}

/// Whether each message fits its frame and no two of one frame share a word.
pub(crate) fn fits_frames(tables: &Tables, net: &Net, round: &Round) -> bool
    requires round { (i : ℕ) → i < length tables.now.messages → (message_at tables.now i).round < round.now.rounds }
    requires unit { (i : ℕ) → i < length tables.now.messages → (message_at tables.now i).unit < round.now.units }
    requires ticks { cycle_ticks round.now ≤ 65536 }
    requires layout { IsLayout round.now }
    ensures { IsTrue result ↔ FitsFrames net.now round.now tables.now }
{
    all_fit(tables, net, round) && are_apart(tables.messages.as_slice(), net, round)
}
