//! What a replica has taken.
ghost use Rattle.std.specs.Prelude.{◌≡◌, ◌<◌, ◌+◌, ◌≤◌, ◌==◌, if◌then◌else◌, ℕ, length, map, All, get_or, IfOk, MatchOption, None, Some, slice_set, slice_index, option_copied};
ghost use Rattle.std.specs.Option.{ForSome};
ghost use Rattle.replica_parts.specs.Entries.{entry_words, entry_width};
ghost use Rattle.net_run.specs.Words.{with_words};
ghost use Rattle.cluster_model.specs.Frame.{message_in};
ghost use Rattle.tables.specs.Named.{no_message};
ghost use Rattle.replica_parts.specs.Inbox.{taken_at, HasFullFrames, GoesIn, said_on};

use crate::frame::received;
use agenda::Schedule;
use bus::Bus;
use mars_base::Memory;
use std::alloc::Global;
use std::marker::Model;
use tables::Message;

// A message: whether it was there, and room for its words.
#[derive(Drop)]
struct Entry {
    is_there: bool,
    words: Vec<i32>,
}

/// What a replica has taken of the messages for its unit, by their places in the tables.
#[derive(Drop)]
pub struct Inbox {
    entries: Vec<Entry>,
}

impl Model for Inbox {
    ghost use Rattle.std.specs.Prelude.{map, length};
    ghost use Rattle.replica_parts.specs.Inbox.{Taken};
    ghost use Rattle.replica_parts.specs.Entries.{entry_words, entry_width};

    ghost Value = { Taken };

    ghost view = { λ i. record { widths = map entry_width i.entries.items; words = map entry_words i.entries.items } };
}

impl Inbox {
    /// An inbox for messages of these widths, with nothing taken. No later call takes memory.
    pub fn new(alloc: Global, widths: &[u8]) -> Result<Inbox, Memory>
        ensures widths { IfOk result (λ i. i.widths ≡ widths.now) }
        ensures count { IfOk result (λ i. length i.words ≡ length widths.now) }
        ensures empty { IfOk result (λ i. (place : ℕ) → taken_at i place ≡ None) }
    {
        let mut entries = Vec::new(alloc);
        for width in widths {
            entries.push(empty_entry(alloc, *width)?)?;
        }
        Ok(Inbox { entries })
    }

    /// Takes the message at a place from a frame, or learns that no frame came.
    pub fn take(&mut self, place: usize, offset: u8, frame: Option<&[i32]>)
        requires place { place < length self.old.words }
        requires fits { ForSome frame (λ words. offset + 1 + slice_index self.old.widths place ≤ length words.now) }
        ensures widths { self.new.widths ≡ self.old.widths }
        ensures words { self.new.words ≡ slice_set self.old.words place (with_words (option_copied frame.entry) (λ words. message_in offset (slice_index self.old.widths place) words)) }
    {
        fill(&mut self.entries[place], offset, frame);
    }

    /// The words of a message that was taken; None where it wasn't taken or wasn't there.
    pub fn get(&self, place: usize) -> Option<&[i32]>
        requires { place < length self.now.words }
        ensures { MatchOption result (taken_at self.now place ≡ None) (λ words. taken_at self.now place ≡ Some words.now) }
    {
        let entry = &self.entries[place];
        if entry.is_there {
            Some(entry.words.as_slice())
        } else {
            None
        }
    }

    /// Forgets what was taken, for the next cycle.
    pub fn clear(&mut self)
        ensures widths { self.new.widths ≡ self.old.widths }
        ensures count { length self.new.words ≡ length self.old.words }
        ensures empty { (place : ℕ) → taken_at self.new place ≡ None }
    {
        forget(&mut self.entries);
    }
}

// An entry with room for so many words, and nothing taken.
fn empty_entry(alloc: Global, width: u8) -> Result<Entry, Memory>
    ensures width { IfOk result (λ e. entry_width e ≡ width) }
    ensures empty { IfOk result (λ e. entry_words e ≡ None) }
{
    Ok(Entry {
        is_there: false,
        words: vec![in alloc; 0i32; usize::from(width)]?,
    })
}

// Takes a message into its entry.
fn fill(entry: &mut Entry, offset: u8, frame: Option<&[i32]>)
    requires { ForSome frame (λ words. offset + 1 + entry_width entry.old ≤ length words.now) }
    ensures width { entry_width entry.new ≡ entry_width entry.old }
    ensures words { entry_words entry.new ≡ with_words (option_copied frame.entry) (λ words. message_in offset (entry_width entry.old) words) }
{
    match frame {
        None => entry.is_there = false,
        Some(words) => {
            let from = usize::from(offset) + 1;
            let to = from + entry.words.len();
            entry.is_there = words[usize::from(offset)] == 1;
            entry.words.as_mut_slice().copy_from_slice(&words[from..to]);
        }
    }
}

// Forgets what was taken of each message.
fn forget(entries: &mut Vec<Entry>)
    ensures widths { map entry_width entries.new.items ≡ map entry_width entries.old.items }
    ensures empty { All (λ e. entry_words e ≡ None) entries.new.items }
{
    for i in 0..entries.len() {
        entries[i].is_there = false;
    }
}

/// Takes the messages that are due at a tick, each from the frame in which it goes.
pub fn take_due(
    inbox: &mut Inbox,
    arrivals: &Schedule,
    messages: &[Message],
    bus: &Bus,
    tick: usize,
)
    requires tick { tick < arrivals.now.numbers }
    requires due { length arrivals.now.due ≡ length messages.now }
    requires count { length inbox.old.words ≡ length messages.now }
    requires goes { (place : ℕ) → place < length messages.now → GoesIn bus.now.layout (slice_index inbox.old.widths place) (get_or messages.now place no_message) }
    requires full { HasFullFrames bus.now }
    ensures widths { inbox.new.widths ≡ inbox.old.widths }
    ensures count { length inbox.new.words ≡ length inbox.old.words }
    ensures words { (place : ℕ) → place < length messages.now → taken_at inbox.new place ≡
        (if slice_index arrivals.now.due place == tick
        then said_on bus.now (slice_index inbox.old.widths place) (get_or messages.now place no_message)
        else taken_at inbox.old place) }
{
    let mut at = arrivals.first(tick);
    'walk: while let Some(thing) = at {
        let place = thing as usize;
        let message = &messages[place];
        inbox.take(
            place,
            message.offset,
            received(bus, message.unit, message.round),
        );
        at = arrivals.next(thing);
    }
}
