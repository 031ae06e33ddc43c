//! What an edge brings to a job.
ghost use Rattle.std.specs.Prelude.{◌≡◌, ◌<◌, IfSome, length, option_copied};
ghost use Rattle.std.specs.List.{position_or_len};
ghost use Rattle.graph.specs.Jobs.{job_number};
ghost use Rattle.graph.specs.Net.{instances, width_of};
ghost use Rattle.graph.specs.NetGraph.{IsNetGraph};
ghost use Rattle.tables.specs.Named.{edge_at};
ghost use Rattle.timetable.specs.Keys.{feeds_in};
ghost use Rattle.replica_parts.specs.Inbox.{taken_at};
ghost use Rattle.carried_words.specs.Says.{IsBookOf};
ghost use Rattle.job_inputs.specs.Look.{IsInboxOf, looked_up, is_of};

use agenda::Schedule;
use carried_words::edge_words;
use graph::{Graph, Net};
use job_book::JobBook;
use replica_parts::Inbox;
use tables::{Message, Tables};
use timetable::{entry_at, message_at, producer_of};

/// What an edge brings to a job of the unit in an instance: what the unit's own job has given, or what was taken
/// of the edge's message.
pub(crate) fn edge_in<'a>(
    net: &Net,
    graph: &Graph,
    tables: &Tables,
    feeds: &Schedule,
    unit: u8,
    book: &'a JobBook,
    inbox: &'a Inbox,
    job: u16,
    edge: u16,
    instance: u32,
) -> Option<&'a [i32]>
    requires net { IsNetGraph net.now graph.now }
    requires feeds { feeds.now ≡ feeds_in net.now graph.now tables.now }
    requires book { IsBookOf net.now graph.now book.now }
    requires inbox { IsInboxOf net.now tables.now inbox.now }
    requires edge { edge < length net.now.edges }
    requires instance { instance < instances net.now graph.now.cycle (edge_at net.now edge).from_task }
    requires job { job < length graph.now.jobs }
    requires to { job_number net.now graph.now.cycle (edge_at net.now edge).to_task instance ≡ job }
    ensures words { option_copied result ≡ looked_up net.now graph.now tables.now unit book.now inbox.now instance edge }
    ensures width { IfSome result (λ words. length words.now ≡ width_of net.now (edge_at net.now edge)) }
{
    let producer = entry_at(tables, producer_of(net, graph, edge, instance));
    if producer.unit == unit {
        edge_words(net, graph, book, edge, instance)
    } else {
        taken_words(net, graph, tables, feeds, inbox, job, edge, instance)
    }
}

// What was taken of the message of an edge and an instance, which is for this job. It looks at the messages for
// the job alone.
fn taken_words<'a>(
    net: &Net,
    graph: &Graph,
    tables: &Tables,
    feeds: &Schedule,
    inbox: &'a Inbox,
    job: u16,
    edge: u16,
    instance: u32,
) -> Option<&'a [i32]>
    requires feeds { feeds.now ≡ feeds_in net.now graph.now tables.now }
    requires inbox { IsInboxOf net.now tables.now inbox.now }
    requires job { job < length graph.now.jobs }
    requires to { job_number net.now graph.now.cycle (edge_at net.now edge).to_task instance ≡ job }
    ensures words { option_copied result ≡ taken_at inbox.now (position_or_len (is_of edge instance) tables.now.messages) }
    ensures width { IfSome result (λ words. length words.now ≡ width_of net.now (edge_at net.now edge)) }
{
    let mut at = feeds.first(usize::from(job));
    'walk: while let Some(thing) = at {
        let message = message_at(tables, thing as usize);
        if is_of(&message, edge, instance) {
            return inbox.get(thing as usize);
        }
        at = feeds.next(thing);
    }
    None
}

// Whether a message is of this edge and this instance.
fn is_of(message: &Message, edge: u16, instance: u32) -> bool
    ensures { result ≡ is_of edge instance message.now }
{
    message.edge == edge && message.instance == instance
}
