//! The rule on the inputs of jobs.
ghost use Rattle.std.specs.Prelude.{◌≡◌, ℕ, ◌<◌, ◌≤◌, ◌↔◌, false, [], ◌∷◌, length, IsTrue};
ghost use Rattle.std.specs.Option.{option_map};
ghost use Rattle.mars_base.specs.declared.shape.Side.TheVariants.{A};
ghost use Rattle.graph.specs.Net.{instances};
ghost use Rattle.graph.specs.NetGraph.{IsNetGraph};
ghost use Rattle.tables.specs.Keys.{strip};
ghost use Rattle.tables.specs.Named.{entry_at, edge_at, message_at, producer_in, consumer_in};
ghost use Rattle.tables.specs.Valid.{bus_of};
ghost use Rattle.tables.specs.Rules.{crosses, key_if, keys_of, keys_of_edge, keys_of_edges, IsReadyHere, IsInTime, HasUnits, GetsInputs};

use crate::named::{consumer_in, edge_at, producer_in};
use crate::table::{Message, Tables};
use graph::{Graph, Net};
use mars_base::Side;
use tdma::Round;

/// Whether the units of the two jobs that an edge joins in an instance differ.
fn crosses(tables: &Tables, net: &Net, graph: &Graph, edge: u16, instance: u32) -> bool
    requires { IsNetGraph net.now graph.now }
    ensures { result ≡ crosses net.now graph.now tables.now edge instance }
{
    let producer = producer_in(tables, net, graph, edge, instance);
    let consumer = consumer_in(tables, net, graph, edge, instance);
    producer.unit != consumer.unit
}

/// Whether a producer on its consumer's unit ends by the consumer's start.
fn is_ready_here(tables: &Tables, net: &Net, graph: &Graph, edge: u16, instance: u32) -> bool
    requires { IsNetGraph net.now graph.now }
    ensures { IsTrue result ↔ IsReadyHere net.now graph.now tables.now edge instance }
{
    if crosses(tables, net, graph, edge, instance) {
        return true;
    }
    let producer = producer_in(tables, net, graph, edge, instance);
    let consumer = consumer_in(tables, net, graph, edge, instance);
    producer.end <= consumer.start
}

/// How many instances an edge has.
fn instances_of(net: &Net, graph: &Graph, edge: u16) -> u32
    requires { IsNetGraph net.now graph.now }
    ensures { result ≡ instances net.now graph.now.cycle (edge_at net.now edge).from_task }
{
    net.instances(graph.cycle(), edge_at(net, usize::from(edge)).from_task)
}

fn is_edge_ready(tables: &Tables, net: &Net, graph: &Graph, edge: u16) -> bool
    requires { IsNetGraph net.now graph.now }
    ensures { IsTrue result ↔ ((instance : ℕ) → instance < instances net.now graph.now.cycle (edge_at net.now edge).from_task → IsReadyHere net.now graph.now tables.now edge instance) }
{
    for instance in 0..instances_of(net, graph, edge) {
        if !is_ready_here(tables, net, graph, edge, instance) {
            return false;
        }
    }
    true
}

fn are_ready(tables: &Tables, net: &Net, graph: &Graph) -> bool
    requires { IsNetGraph net.now graph.now }
    ensures { IsTrue result ↔ ((edge instance : ℕ) → edge < length net.now.edges → instance < instances net.now graph.now.cycle (edge_at net.now edge).from_task → IsReadyHere net.now graph.now tables.now edge instance) }
{
    for edge in 0..net.edges.len() as u16 {
        if !is_edge_ready(tables, net, graph, edge) {
            return false;
        }
    }
    true
}

/// What is left after the message of an edge and an instance, where the messages begin with it.
#[tactic(auto, unfolding(crate::specs::Keys::strip))]
fn strip_key(messages: &[Message], edge: u16, instance: u32) -> Option<&[Message]>
    ensures { option_map (λ rest. keys_of rest.now) result ≡ strip ((edge, instance) ∷ []) (keys_of messages.now) }
{
    match messages {
        [] => None,
        [first, rest @ ..] => {
            if edge == first.edge && instance == first.instance {
                Some(rest)
            } else {
                None
            }
        }
    }
}

/// The same where the units differ; where they don't, all are left.
#[tactic(auto, unfolding(crate::specs::Keys::strip))]
fn strip_if<'a>(
    tables: &Tables,
    net: &Net,
    graph: &Graph,
    edge: u16,
    instance: u32,
    messages: &'a [Message],
) -> Option<&'a [Message]>
    requires { IsNetGraph net.now graph.now }
    ensures { option_map (λ rest. keys_of rest.now) result ≡ strip (key_if net.now graph.now tables.now edge instance) (keys_of messages.now) }
{
    if crosses(tables, net, graph, edge, instance) {
        strip_key(messages, edge, instance)
    } else {
        Some(messages)
    }
}

/// What is left after an edge's messages.
fn strip_edge<'a>(
    tables: &Tables,
    net: &Net,
    graph: &Graph,
    edge: u16,
    messages: &'a [Message],
) -> Option<&'a [Message]>
    requires { IsNetGraph net.now graph.now }
    ensures { option_map (λ rest. keys_of rest.now) result ≡ strip (keys_of_edge net.now graph.now tables.now edge 0 (instances net.now graph.now.cycle (edge_at net.now edge).from_task)) (keys_of messages.now) }
{
    let mut rest = messages;
    for instance in 0..instances_of(net, graph, edge) {
        match strip_if(tables, net, graph, edge, instance, rest) {
            Some(more) => rest = more,
            None => return None,
        }
    }
    Some(rest)
}

/// What is left after the messages of all edges.
fn strip_edges<'a>(
    tables: &Tables,
    net: &Net,
    graph: &Graph,
    messages: &'a [Message],
) -> Option<&'a [Message]>
    requires { IsNetGraph net.now graph.now }
    ensures { option_map (λ rest. keys_of rest.now) result ≡ strip (keys_of_edges net.now graph.now tables.now 0 (length net.now.edges)) (keys_of messages.now) }
{
    let mut rest = messages;
    for edge in 0..net.edges.len() as u16 {
        match strip_edge(tables, net, graph, edge, rest) {
            Some(more) => rest = more,
            None => return None,
        }
    }
    Some(rest)
}

fn are_none(messages: &[Message]) -> bool
    ensures { IsTrue result ↔ (messages.now ≡ []) }
{
    match messages {
        [] => true,
        [_, ..] => false,
    }
}

/// Whether there is exactly one message for each edge and instance whose units differ, in order.
fn has_messages(tables: &Tables, net: &Net, graph: &Graph) -> bool
    requires { IsNetGraph net.now graph.now }
    ensures { IsTrue result ↔ (keys_of tables.now.messages ≡ keys_of_edges net.now graph.now tables.now 0 (length net.now.edges)) }
{
    match strip_edges(tables, net, graph, tables.messages.as_slice()) {
        Some(rest) => are_none(rest),
        None => false,
    }
}

/// Whether a message goes from its producer's unit and is in time.
fn is_in_time(tables: &Tables, net: &Net, graph: &Graph, round: &Round, message: &Message) -> bool
    requires net { IsNetGraph net.now graph.now }
    requires bus { round.now ≡ bus_of net.now graph.now }
    requires units { (job : ℕ) → (entry_at tables.now job).unit < net.now.shape.units }
    ensures { IsTrue result ↔ IsInTime net.now graph.now (bus_of net.now graph.now) tables.now message.now }
{
    let producer = producer_in(tables, net, graph, message.edge, message.instance);
    let consumer = consumer_in(tables, net, graph, message.edge, message.instance);
    if message.unit != producer.unit || message.round >= round.rounds() {
        return false;
    }
    producer.end <= round.slot_start(message.round, message.unit, Side::A)
        && round.usable(message.round, message.unit) <= consumer.start
}

/// Whether each message is.
fn are_in_time(tables: &Tables, net: &Net, graph: &Graph, round: &Round) -> bool
    requires net { IsNetGraph net.now graph.now }
    requires bus { round.now ≡ bus_of net.now graph.now }
    requires units { (job : ℕ) → (entry_at tables.now job).unit < net.now.shape.units }
    ensures { IsTrue result ↔ ((i : ℕ) → i < length tables.now.messages → IsInTime net.now graph.now (bus_of net.now graph.now) tables.now (message_at tables.now i)) }
{
    let messages = tables.messages.as_slice();
    for place in 0..messages.len() {
        if !is_in_time(tables, net, graph, round, &messages[place]) {
            return false;
        }
    }
    true
}

/// Whether each job gets its inputs in time.
pub(crate) fn gets_inputs(tables: &Tables, net: &Net, graph: &Graph, round: &Round) -> bool
    requires net { IsNetGraph net.now graph.now }
    requires bus { round.now ≡ bus_of net.now graph.now }
    requires units { (job : ℕ) → (entry_at tables.now job).unit < net.now.shape.units }
    ensures { IsTrue result ↔ GetsInputs net.now graph.now (bus_of net.now graph.now) tables.now }
{
    are_ready(tables, net, graph)
        && has_messages(tables, net, graph)
        && are_in_time(tables, net, graph, round)
}
