//! What feeds a job over edges.
ghost use Rattle.std.specs.Prelude.{◌≡◌, ◌<◌, ◌++◌, length, map, IfOk, OnOk};
ghost use Rattle.decisions.specs.ProblemOf.{feed_of};
ghost use Rattle.graph.specs.Feeders.{in_edges, edge_in, feeder_of};
ghost use Rattle.graph.specs.NetGraph.{IsNetGraph};
ghost use Rattle.net_problem.specs.Instance.{IsInstance, IsIntoTask};
ghost use Rattle.graph.specs.Net.{ins_of};
ghost use Rattle.tables.specs.Named.{edge_at};

use decisions::Feed;
use graph::{Edge, Feeder, Graph, Net};
use mars_base::Memory;
use sqlite_items::Items;
use std::alloc::Global;

// An edge that the net doesn't have.
const NO_EDGE: Edge = Edge {
    from_task: 0,
    from_port: 0,
    to_task: 0,
    to_port: 0,
};

fn edge_at(net: &Net, number: u16) -> Edge
    ensures { result ≡ edge_at net.now number }
{
    let place = usize::from(number);
    match net.edges.get(place) {
        Some(edge) => *edge,
        None => NO_EDGE,
    }
}

/// An edge into the task of an instance, and the same instance of the task that gives its words.
fn feed_of(net: &Net, graph: &Graph, task: u8, instance: u32, number: u16) -> Feed
    requires net { IsNetGraph net.now graph.now }
    requires instance { IsInstance net.now graph.now task instance }
    requires edge { IsIntoTask net.now task number }
    ensures { result ≡ feed_of net.now graph.now instance number }
{
    let edge = edge_at(net, number);
    Feed {
        edge: number,
        producer: graph.number_of(edge.from_task, instance),
        words: 1 + net.width_of(&edge),
    }
}

/// Adds a feed where an edge feeds the port.
fn add_feed(
    feeds: &mut Items<Feed>,
    net: &Net,
    graph: &Graph,
    task: u8,
    instance: u32,
    port: u8,
) -> Result<(), Memory>
    requires net { IsNetGraph net.now graph.now }
    requires instance { IsInstance net.now graph.now task instance }
    requires port { port < length (ins_of net.now task) }
    ensures { OnOk result (feeds.new ≡ feeds.old ++ map (feed_of net.now graph.now instance) (edge_in (feeder_of net.now task port))) }
{
    match graph.feeder(task, port) {
        Some(Feeder::Edge(number)) => feeds.push(feed_of(net, graph, task, instance, number))?,
        Some(Feeder::Sensor(_)) | None => {}
    }
    Ok(())
}

/// What feeds the in ports of an instance over edges, port by port.
#[tactic(auto, using(crate::proofs::Sources::more_feeds, graph::proofs::Entries::few_ports))]
pub(crate) fn feeds_of(
    alloc: Global,
    net: &Net,
    graph: &Graph,
    task: u8,
    instance: u32,
) -> Result<Items<Feed>, Memory>
    requires net { IsNetGraph net.now graph.now }
    requires instance { IsInstance net.now graph.now task instance }
    ensures { IfOk result (λ feeds. feeds ≡ map (feed_of net.now graph.now instance) (in_edges net.now task)) }
{
    let mut feeds = Items::new(alloc);
    for port in 0..net.ins_of(task).len() {
        add_feed(&mut feeds, net, graph, task, instance, port as u8)?;
    }
    Ok(feeds)
}
