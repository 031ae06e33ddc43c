ghost use Rattle.std.specs.Prelude.{◌≡◌};
ghost use Rattle.graph.specs.NetGraph.{IsNetGraph};
ghost use Rattle.tables.specs.Valid.{bus_of};

use agenda::Schedule;
use graph::{Graph, Net};
use mars_base::Memory;
use sqlite_items::Items;
use std::alloc::Global;
use std::process::Abort;
use std::test::Fail;
use tables::{JobEntry, Message, Tables, valid};
use tdma::Round;
use timetable::{
    arrivals, consumer_of, edge_at, entry_at, feeds, message_at, producer_of, sendings, starts,
};
use worked_nets::{graph_of, two_tasks};

/// The tables of the two-task project: `a` at tick 0 on unit 0, `b` at tick 18 on unit 1, and the message from `a` to
/// `b` in the frame of unit 0 of round 1.
fn two_tables(alloc: Global) -> Result<Tables, Memory> {
    let a = JobEntry {
        job: 0,
        unit: 0,
        start: 0,
        end: 1,
    };
    let b = JobEntry {
        job: 1,
        unit: 1,
        start: 18,
        end: 19,
    };
    let message = Message {
        edge: 0,
        instance: 0,
        unit: 0,
        round: 1,
        offset: 0,
    };
    Ok(Tables {
        jobs: Items::from_slice(alloc, &[a, b])?,
        messages: Items::from_slice(alloc, &[message])?,
    })
}

fn round_of(net: &Net, graph: &Graph) -> Round
    requires { IsNetGraph net.now graph.now }
    ensures { result ≡ bus_of net.now graph.now }
{
    Round::new(&net.shape, graph.cycle())
}

/// The first thing of an agenda at a number; None where it has no such number.
fn first_at(agenda: &Schedule, number: usize) -> Option<u32> {
    if number < agenda.numbers() {
        agenda.first(number)
    } else {
        None
    }
}

/// The job that a unit starts at a tick.
fn started(
    alloc: Global,
    graph: &Graph,
    tables: &Tables,
    unit: u8,
    tick: usize,
) -> Result<Option<u32>, Memory> {
    if tables.jobs.len() > 512 {
        return Err(Memory);
    }
    let agenda = starts(alloc, graph, tables, unit)?;
    Ok(first_at(&agenda, tick))
}

/// The message that a unit takes from a tick on.
fn arrived(
    alloc: Global,
    net: &Net,
    graph: &Graph,
    tables: &Tables,
    unit: u8,
    tick: usize,
) -> Result<Option<u32>, Memory>
    requires { IsNetGraph net.now graph.now }
{
    let Ok(()) = valid(tables, net, graph) else {
        return Err(Memory);
    };
    if tables.messages.len() > 512 {
        return Err(Memory);
    }
    let round = round_of(net, graph);
    let agenda = arrivals(alloc, net, graph, tables, &round, unit)?;
    Ok(first_at(&agenda, tick))
}

/// The message that a unit sends in a round.
fn sent(
    alloc: Global,
    net: &Net,
    graph: &Graph,
    tables: &Tables,
    unit: u8,
    number: usize,
) -> Result<Option<u32>, Memory>
    requires { IsNetGraph net.now graph.now }
{
    if tables.messages.len() > 512 {
        return Err(Memory);
    }
    let round = round_of(net, graph);
    let agenda = sendings(alloc, tables, &round, unit)?;
    Ok(first_at(&agenda, number))
}

/// The message that is for a job.
fn fed(
    alloc: Global,
    net: &Net,
    graph: &Graph,
    tables: &Tables,
    job: usize,
) -> Result<Option<u32>, Memory>
    requires { IsNetGraph net.now graph.now }
{
    if tables.messages.len() > 512 {
        return Err(Memory);
    }
    let agenda = feeds(alloc, net, graph, tables)?;
    Ok(first_at(&agenda, job))
}

/// What the units have to do, tick by tick, round by round and job by job.
fn compare_agendas(
    rt: &impl Abort,
    alloc: Global,
    net: &Net,
    graph: &Graph,
    tables: &Tables,
) -> Result<(), Memory>
    requires { IsNetGraph net.now graph.now }
{
    for (unit, tick, job, message) in [
        (0, 0, Some(0), None),
        (0, 18, None, None),
        (1, 0, None, None),
        (1, 17, None, None),
        (1, 18, Some(1), Some(0)),
    ] {
        assert_eq!(rt; started(alloc, graph, tables, unit, tick)?, job);
        assert_eq!(rt; arrived(alloc, net, graph, tables, unit, tick)?, message);
    }
    for (unit, round, message) in [(0, 0, None), (0, 1, Some(0)), (1, 0, None), (1, 1, None)] {
        assert_eq!(rt; sent(alloc, net, graph, tables, unit, round)?, message);
    }
    for (job, message) in [(0, None), (1, Some(0))] {
        assert_eq!(rt; fed(alloc, net, graph, tables, job)?, message);
    }
    Ok(())
}

/// What the entries of the tables name.
fn compare_names(rt: &impl Abort, net: &Net, graph: &Graph, tables: &Tables)
    requires { IsNetGraph net.now graph.now }
{
    assert_eq!(rt; edge_at(net, 0).to_task, 1);
    assert_eq!(rt; entry_at(tables, 1).start, 18);
    assert_eq!(rt; message_at(tables, 0).round, 1);
    assert_eq!(rt; producer_of(net, graph, 0, 0), 0);
    assert_eq!(rt; consumer_of(net, graph, 0, 0), 1);
}

#[test]
fn two_tasks_over_the_bus(rt: HostRuntime) -> Result<(), Fail> {
    let alloc = rt.alloc();
    let net = two_tasks(alloc)?;
    let Some(graph) = graph_of(alloc, &net, &[1, 1])? else {
        return Err(Memory)?;
    };
    let tables = two_tables(alloc)?;
    compare_names(&rt, &net, &graph, &tables);
    compare_agendas(&rt, alloc, &net, &graph, &tables)?;
    Ok(())
}
