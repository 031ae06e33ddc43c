//! What the entries of tables name.
ghost use Rattle.std.specs.Prelude.{◌≡◌, ◌<◌, length};
ghost use Rattle.graph.specs.Jobs.{job_number};
ghost use Rattle.graph.specs.NetGraph.{IsNetGraph};
ghost use Rattle.tables.specs.Named.{entry_at, edge_at, message_at};

use graph::{Edge, Graph, Net};
use tables::{JobEntry, Message, Tables};

/// The edge of a number; one of zeros where there is none.
pub fn edge_at(net: &Net, edge: usize) -> Edge
    ensures { result ≡ edge_at net.now edge }
{
    match net.edges.get(edge) {
        Some(edge) => *edge,
        None => Edge {
            from_task: 0,
            from_port: 0,
            to_task: 0,
            to_port: 0,
        },
    }
}

/// The entry of a job; one of zeros where there is none.
pub fn entry_at(tables: &Tables, job: usize) -> JobEntry
    ensures { result ≡ entry_at tables.now job }
{
    match tables.jobs.get(job) {
        Some(entry) => *entry,
        None => JobEntry {
            job: 0,
            unit: 0,
            start: 0,
            end: 0,
        },
    }
}

/// The message at a place; one of zeros where there is none.
pub fn message_at(tables: &Tables, place: usize) -> Message
    ensures { result ≡ message_at tables.now place }
{
    match tables.messages.get(place) {
        Some(message) => *message,
        None => Message {
            edge: 0,
            instance: 0,
            unit: 0,
            round: 0,
            offset: 0,
        },
    }
}

/// The number of the job that an edge feeds in an instance.
pub fn consumer_of(net: &Net, graph: &Graph, edge: u16, instance: u32) -> usize
    requires { IsNetGraph net.now graph.now }
    ensures { result ≡ job_number net.now graph.now.cycle (edge_at net.now edge).to_task instance }
{
    let first = graph.first_job(edge_at(net, usize::from(edge)).to_task);
    usize::from(first) + instance as usize
}

/// The number of the job whose words an edge joins in an instance.
pub fn producer_of(net: &Net, graph: &Graph, edge: u16, instance: u32) -> usize
    requires { IsNetGraph net.now graph.now }
    ensures { result ≡ job_number net.now graph.now.cycle (edge_at net.now edge).from_task instance }
{
    let first = graph.first_job(edge_at(net, usize::from(edge)).from_task);
    usize::from(first) + instance as usize
}
