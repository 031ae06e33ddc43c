//! What the entries of tables name.
ghost use Rattle.std.specs.Prelude.{◌≡◌, ◌+◌, ◌<◌, ◌≤◌};
ghost use Rattle.graph.specs.NetGraph.{IsNetGraph};
ghost use Rattle.tables.specs.Named.{entry_at, edge_at, producer_in, consumer_in, words_of};

use crate::table::{JobEntry, Message, Tables};
use graph::{Edge, Graph, Net};

/// The edge of a number; one of zeros where there is none.
pub(crate) fn edge_at(net: &Net, edge: usize) -> Edge
    ensures { result ≡ edge_at net.now edge }
{
    match net.edges.get(edge) {
        Some(edge) => *edge,
        None => Edge {
            from_task: 0,
            from_port: 0,
            to_task: 0,
            to_port: 0,
        },
    }
}

/// The entry of a number; one of zeros where there is none.
fn entry_at(tables: &Tables, job: usize) -> JobEntry
    ensures { result ≡ entry_at tables.now job }
{
    match tables.jobs.get(job) {
        Some(entry) => *entry,
        None => JobEntry {
            job: 0,
            unit: 0,
            start: 0,
            end: 0,
        },
    }
}

/// The entry of the job whose words an edge joins in an instance.
pub(crate) fn producer_in(
    tables: &Tables,
    net: &Net,
    graph: &Graph,
    edge: u16,
    instance: u32,
) -> JobEntry
    requires { IsNetGraph net.now graph.now }
    ensures { result ≡ producer_in net.now graph.now tables.now edge instance }
{
    let first = graph.first_job(edge_at(net, usize::from(edge)).from_task);
    entry_at(tables, usize::from(first) + instance as usize)
}

/// The entry of the job to which an edge joins them.
pub(crate) fn consumer_in(
    tables: &Tables,
    net: &Net,
    graph: &Graph,
    edge: u16,
    instance: u32,
) -> JobEntry
    requires { IsNetGraph net.now graph.now }
    ensures { result ≡ consumer_in net.now graph.now tables.now edge instance }
{
    let first = graph.first_job(edge_at(net, usize::from(edge)).to_task);
    entry_at(tables, usize::from(first) + instance as usize)
}

/// How many words a message has: one that says whether it is present, and those of its edge.
pub(crate) fn words_of(net: &Net, message: &Message) -> u32
    ensures words { result ≡ words_of net.now message.now }
    ensures few { result ≤ 256 }
{
    1 + u32::from(net.width_of(&edge_at(net, usize::from(message.edge))))
}
