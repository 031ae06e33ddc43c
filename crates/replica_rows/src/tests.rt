ghost use Rattle.std.specs.Prelude.{◌≡◌, ◌<◌, length};
ghost use Rattle.graph.specs.NetGraph.{IsNetGraph};
ghost use Rattle.tables.specs.Valid.{AreValid};

use agenda::Schedule;
use graph::{Graph, Net};
use mars_base::{Memory, Side};
use replica_duties::Duties;
use replica_room::{book_of, inbox_of, states_of};
use sqlite_items::Items;
use std::alloc::Global;
use std::process::Abort;
use std::test::Fail;
use tables::{JobEntry, Message, Tables, valid};
use worked_nets::{graph_of, two_tasks};

/// The tables of the two-task project: `a` at tick 0 on unit 0, `b` at tick 18 on unit 1, and the message from `a` to
/// `b` in the frame of unit 0 of round 1.
fn two_tables(alloc: Global) -> Result<Tables, Memory> {
    let a = JobEntry {
        job: 0,
        unit: 0,
        start: 0,
        end: 1,
    };
    let b = JobEntry {
        job: 1,
        unit: 1,
        start: 18,
        end: 19,
    };
    let message = Message {
        edge: 0,
        instance: 0,
        unit: 0,
        round: 1,
        offset: 0,
    };
    Ok(Tables {
        jobs: Items::from_slice(alloc, &[a, b])?,
        messages: Items::from_slice(alloc, &[message])?,
    })
}

/// The first thing of an agenda at a number; None where it has no such number.
fn first_at(agenda: &Schedule, number: usize) -> Option<u32> {
    if number < agenda.numbers() {
        agenda.first(number)
    } else {
        None
    }
}

/// What the B replica of unit 1 looks up: it starts `b` at tick 18, from which on it takes the message, and sends none;
/// the one actuator gets the outputs of `b`.
fn compare_duties(
    rt: &impl Abort,
    alloc: Global,
    net: &Net,
    graph: &Graph,
    tables: &Tables,
) -> Result<(), Memory>
    requires net { IsNetGraph net.now graph.now }
    requires valid { AreValid net.now graph.now tables.now }
{
    if net.shape.units < 2 {
        return Err(Memory);
    }
    let duties = Duties::new(alloc, net, graph, tables, 1, Side::B)?;
    assert_eq!(rt; duties.unit, 1);
    assert_eq!(rt; duties.side, Side::B);
    assert_eq!(rt; duties.round.rounds(), 2);
    assert_eq!(rt; first_at(&duties.starts, 18), Some(1));
    assert_eq!(rt; first_at(&duties.starts, 0), None);
    assert_eq!(rt; first_at(&duties.arrivals, 18), Some(0));
    assert_eq!(rt; first_at(&duties.sendings, 1), None);
    assert_eq!(rt; first_at(&duties.feeds, 1), Some(0));
    assert_eq!(rt; first_at(&duties.outputs, 1), Some(0));
    assert_eq!(rt; first_at(&duties.outputs, 0), None);
    assert_eq!(rt; duties.sensors.as_slice(), [0].as_slice());
    Ok(())
}

/// What a replica of unit 1 holds before the first cycle, where `a` has three state words and `b` two: the state of `b`
/// alone, and nothing of any job or message.
fn compare_room(
    rt: &impl Abort,
    alloc: Global,
    net: &Net,
    graph: &Graph,
    tables: &Tables,
) -> Result<(), Memory>
    requires { IsNetGraph net.now graph.now }
{
    if net.tasks.len() != 2 || graph.job_list().len() != 2 || tables.messages.len() != 1 {
        return Err(Memory);
    }
    let states = states_of(alloc, net, graph, tables, &[3, 2], 1)?;
    assert!(rt; states.get(0).is_empty());
    assert_eq!(rt; states.get(1), [0, 0].as_slice());
    assert_eq!(rt; book_of(alloc, net, graph)?.given(1), None);
    assert_eq!(rt; inbox_of(alloc, net, tables)?.get(0), None);
    Ok(())
}

#[test]
fn unit_one_of_two(rt: HostRuntime) -> Result<(), Fail> {
    let alloc = rt.alloc();
    let net = two_tasks(alloc)?;
    let Some(graph) = graph_of(alloc, &net, &[1, 1])? else {
        return Err(Memory)?;
    };
    let tables = two_tables(alloc)?;
    let Ok(()) = valid(&tables, &net, &graph) else {
        return Err(Memory)?;
    };
    compare_duties(&rt, alloc, &net, &graph, &tables)?;
    compare_room(&rt, alloc, &net, &graph, &tables)?;
    Ok(())
}
