//! When a unit has to do with the entries of its tables.
ghost use Rattle.std.specs.Prelude.{◌≡◌, ◌<◌, ◌^◌, ℕ, IfOk, length};
ghost use Rattle.graph.specs.declared.net.Net.{Net};
ghost use Rattle.graph.specs.JobGraph.{JobGraph};
ghost use Rattle.graph.specs.NetGraph.{IsNetGraph};
ghost use Rattle.tables.specs.Valid.{AreValid, bus_of};
ghost use Rattle.timetable.specs.Keys.{start_of, arrival_of, sending_of, feed_of, starts_in, arrivals_in, sendings_in, feeds_in};

use crate::named::{consumer_of, entry_at};
use agenda::Schedule;
use graph::{Graph, Net};
use mars_base::Memory;
use std::alloc::Global;
use tables::{JobEntry, Message, Tables};
use tdma::Round;

/// The jobs of a unit by the ticks at which they start.
pub fn starts(alloc: Global, graph: &Graph, tables: &Tables, unit: u8) -> Result<Schedule, Memory>
    requires { length tables.now.jobs < 2 ^ 32 }
    ensures { IfOk result (λ s. s ≡ starts_in graph.now tables.now unit) }
{
    let mut due = Vec::new(alloc);
    for entry in tables.jobs.as_slice() {
        due.push(start_of(graph, unit, entry))?;
    }
    Schedule::new(alloc, due, graph.cycle() as usize)
}

/// The messages for a unit's jobs by the ticks from which on it takes them.
pub fn arrivals(
    alloc: Global,
    net: &Net,
    graph: &Graph,
    tables: &Tables,
    round: &Round,
    unit: u8,
) -> Result<Schedule, Memory>
    requires net { IsNetGraph net.now graph.now }
    requires valid { AreValid net.now graph.now tables.now }
    requires bus { round.now ≡ bus_of net.now graph.now }
    requires few { length tables.now.messages < 2 ^ 32 }
    ensures { IfOk result (λ s. s ≡ arrivals_in net.now graph.now tables.now unit) }
{
    let mut due = Vec::new(alloc);
    for message in tables.messages.as_slice() {
        due.push(arrival_of(net, graph, tables, round, unit, message))?;
    }
    Schedule::new(alloc, due, graph.cycle() as usize)
}

/// The messages that a unit sends by the rounds in whose frames they go.
pub fn sendings(alloc: Global, tables: &Tables, round: &Round, unit: u8) -> Result<Schedule, Memory>
    requires { length tables.now.messages < 2 ^ 32 }
    ensures { (net : Net) (g : JobGraph) → round.now ≡ bus_of net g → IfOk result (λ s. s ≡ sendings_in net g tables.now unit) }
{
    let mut due = Vec::new(alloc);
    for message in tables.messages.as_slice() {
        due.push(sending_of(round, unit, message))?;
    }
    Schedule::new(alloc, due, round.rounds() as usize)
}

/// All messages by the jobs for which they are.
pub fn feeds(alloc: Global, net: &Net, graph: &Graph, tables: &Tables) -> Result<Schedule, Memory>
    requires net { IsNetGraph net.now graph.now }
    requires few { length tables.now.messages < 2 ^ 32 }
    ensures { IfOk result (λ s. s ≡ feeds_in net.now graph.now tables.now) }
{
    let mut due = Vec::new(alloc);
    for message in tables.messages.as_slice() {
        due.push(consumer_of(net, graph, message.edge, message.instance))?;
    }
    Schedule::new(alloc, due, graph.job_list().len())
}

// The tick at which a unit starts a job; the cycle's length where the job is another unit's.
fn start_of(graph: &Graph, unit: u8, entry: &JobEntry) -> usize
    ensures { result ≡ start_of graph.now unit entry.now }
{
    if entry.unit == unit {
        entry.start as usize
    } else {
        graph.cycle() as usize
    }
}

// The tick from which on a unit takes a message; the cycle's length where it is for another unit.
fn arrival_of(
    net: &Net,
    graph: &Graph,
    tables: &Tables,
    round: &Round,
    unit: u8,
    message: &Message,
) -> usize
    requires net { IsNetGraph net.now graph.now }
    requires bus { round.now ≡ bus_of net.now graph.now }
    requires round { message.now.round < round.now.rounds }
    requires unit { message.now.unit < round.now.units }
    ensures { result ≡ arrival_of net.now graph.now tables.now unit message.now }
{
    let consumer = entry_at(
        tables,
        consumer_of(net, graph, message.edge, message.instance),
    );
    if consumer.unit == unit {
        round.usable(message.round, message.unit) as usize
    } else {
        graph.cycle() as usize
    }
}

// The round in whose frame a unit sends a message; the number of rounds where another unit sends it.
fn sending_of(round: &Round, unit: u8, message: &Message) -> usize
    ensures { result ≡ sending_of round.now unit message.now }
{
    if message.unit == unit {
        message.round as usize
    } else {
        round.rounds() as usize
    }
}
