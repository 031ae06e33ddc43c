//! The words of frames.
ghost use Rattle.std.specs.Prelude.{◌≡◌, ◌≤◌, ◌<◌, ◌+◌, ◌^◌, ◌&&◌, nat_le, nat_lt, length, Some};
ghost use Rattle.graph.specs.Net.{instances};
ghost use Rattle.graph.specs.NetGraph.{IsNetGraph};
ghost use Rattle.tables.specs.Named.{edge_at, words_of};
ghost use Rattle.tables.specs.Valid.{AreValid, bus_of};
ghost use Rattle.timetable.specs.Keys.{sendings_in};
ghost use Rattle.cluster_model.specs.Frame.{packed, word_from};
ghost use Rattle.carried_words.specs.Says.{IsBookOf, edge_says, said_in};

use crate::edge::edge_words;
use agenda::Schedule;
use graph::{Graph, Net};
use job_book::JobBook;
use tables::{Message, Tables};
use timetable::{edge_at, message_at};

/// A word of a unit's frame of a round, by what the messages say that the unit sends in that round. It looks at
/// these messages alone.
pub fn frame_word(
    net: &Net,
    graph: &Graph,
    tables: &Tables,
    sendings: &Schedule,
    book: &JobBook,
    round: u32,
    unit: u8,
    word: u8,
) -> i32
    requires net { IsNetGraph net.now graph.now }
    requires valid { AreValid net.now graph.now tables.now }
    requires sendings { sendings.now ≡ sendings_in net.now graph.now tables.now unit }
    requires book { IsBookOf net.now graph.now book.now }
    requires round { round < (bus_of net.now graph.now).rounds }
    ensures { result ≡ word_from net.now round unit (said_in net.now graph.now.cycle tables.now book.now) word tables.now.messages 0 }
{
    let mut at = sendings.first(round as usize);
    'walk: while let Some(thing) = at {
        let message = message_at(tables, thing as usize);
        if has_word(net, &message, word) {
            return message_word(net, graph, book, &message, word - message.offset);
        }
        at = sendings.next(thing);
    }
    0
}

// Whether a word of a frame is one of a message's.
fn has_word(net: &Net, message: &Message, word: u8) -> bool
    ensures { result ≡ (nat_le message.now.offset word && nat_lt word (message.now.offset + words_of net.now message.now)) }
{
    let width = net.width_of(&edge_at(net, usize::from(message.edge)));
    let offset = u32::from(message.offset);
    offset <= u32::from(word) && u32::from(word) < offset + (1 + u32::from(width))
}

// A word of a message: 1 where its job gave outputs, and then its edge's words; else each is 0.
fn message_word(net: &Net, graph: &Graph, book: &JobBook, message: &Message, index: u8) -> i32
    requires net { IsNetGraph net.now graph.now }
    requires book { IsBookOf net.now graph.now book.now }
    requires edge { message.now.edge < length net.now.edges }
    requires instance { message.now.instance < instances net.now graph.now.cycle (edge_at net.now message.now.edge).from_task }
    requires index { index < words_of net.now message.now }
    ensures { result ≡ packed (edge_says net.now graph.now.cycle book.now message.now.edge message.now.instance) index }
{
    match edge_words(net, graph, book, message.edge, message.instance) {
        None => 0,
        Some(words) => packed_word(words, index),
    }
}

// A word of a message that says these words.
fn packed_word(words: &[i32], index: u8) -> i32
    requires { index ≤ length words.now }
    ensures { result ≡ packed (Some words.now) index }
{
    if index == 0 {
        1
    } else {
        words[usize::from(index - 1)]
    }
}
