//! The inbox of a replica, and the start of a cycle.
ghost use Rattle.std.specs.Prelude.{◌≡◌, IfOk, map};
ghost use Rattle.graph.specs.Net.{width_of};
ghost use Rattle.tables.specs.Named.{edge_at};
ghost use Rattle.tables.specs.declared.table.Message.{Message};
ghost use Rattle.tables.specs.declared.table.Tables.{Tables};
ghost use Rattle.graph.specs.declared.net.Net.{Net};
ghost use Rattle.graph.specs.JobGraph.{JobGraph};
ghost use Rattle.carried_words.specs.Says.{IsBookOf};
ghost use Rattle.job_inputs.specs.Look.{IsInboxOf};
ghost use Rattle.tick_parts.specs.Takes.{AreWidths};
ghost use Rattle.replica_room.specs.Fresh.{AreFreshJobs, AreFreshMessages};

use graph::Net;
use job_book::JobBook;
use mars_base::Memory;
use replica_parts::Inbox;
use std::alloc::Global;
use tables::Tables;
use timetable::edge_at;

/// An inbox for all messages of the tables, as a replica has it at the start of a cycle. No later call takes memory.
pub fn inbox_of(alloc: Global, net: &Net, tables: &Tables) -> Result<Inbox, Memory>
    ensures { IfOk result (AreFreshMessages net.now tables.now) }
{
    let widths = widths_of(alloc, net, tables)?;
    Inbox::new(alloc, widths.as_slice())
}

// For each message how many words its edge joins.
fn widths_of(alloc: Global, net: &Net, tables: &Tables) -> Result<Vec<u8>, Memory>
    ensures { IfOk result (λ widths. widths.items ≡ map (λ (message : Message). width_of net.now (edge_at net.now message.edge)) tables.now.messages) }
{
    let mut widths = Vec::new(alloc);
    for message in tables.messages.as_slice() {
        widths.push(net.width_of(&edge_at(net, usize::from(message.edge))))?;
    }
    Ok(widths)
}

/// Makes the book and the inbox those of the start of a cycle: all jobs wait, and nothing is taken.
pub fn forget(book: &mut JobBook, inbox: &mut Inbox)
    ensures jobs { (net : Net) (g : JobGraph) → IsBookOf net g book.old → AreFreshJobs net g book.new }
    ensures messages { (net : Net) (t : Tables) → IsInboxOf net t inbox.old → AreWidths net t inbox.old.widths → AreFreshMessages net t inbox.new }
{
    book.clear();
    inbox.clear();
}
