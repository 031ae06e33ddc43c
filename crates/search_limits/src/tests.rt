ghost use Rattle.std.specs.Prelude.{◌≡◌};

use graph::Net;
use mars_base::{Memory, Steps};
use passes::SearchFault;
use search::search;
use std::alloc::Global;
use std::process::Abort;
use std::test::Fail;
use tables::{JobEntry, Tables};
use worked_nets::{edge_of, graph_of, net_of, plug_of, shape_of, task_of};

/// The names of the tasks, and of the sensor that feeds each: a row for each tick, a column for each unit.
const NAMES: [&str; 64] = [
    "a0", "a1", "a2", "a3", "a4", "a5", "a6", "a7", "b0", "b1", "b2", "b3", "b4", "b5", "b6", "b7",
    "c0", "c1", "c2", "c3", "c4", "c5", "c6", "c7", "d0", "d1", "d2", "d3", "d4", "d5", "d6", "d7",
    "e0", "e1", "e2", "e3", "e4", "e5", "e6", "e7", "f0", "f1", "f2", "f3", "f4", "f5", "f6", "f7",
    "g0", "g1", "g2", "g3", "g4", "g5", "g6", "g7", "h0", "h1", "h2", "h3", "h4", "h5", "h6", "h7",
];

/// A task for each name, task i on unit i % 8 alone, in one transaction of one round of 48 ticks.
fn sixty_four_tasks(alloc: Global) -> Result<Net, Memory> {
    let shape = shape_of(8, 7, 48);
    let mut net = net_of(alloc, shape, &[], &[("t", 48, 48)], &[], &[], &[])?;
    for (task, name) in (0..64).zip(NAMES.iter()) {
        net.tasks.push(task_of(alloc, name, 0, 1 << (task % 8))?)?;
        net.sensors.push(plug_of(alloc, name, task)?)?;
    }
    Ok(net)
}

/// The search of a net whose jobs each take one tick, within a budget.
fn searched(alloc: Global, net: &Net, budget: u32, steps: &mut Steps) -> Result<Tables, SearchFault>
    requires { steps.old ≡ 0 }
{
    let Ok(Some(graph)) = graph_of(alloc, net, &[1; 64]) else {
        return Err(SearchFault::Memory);
    };
    search(alloc, net, &graph, budget, steps)
}

/// Whether a job is on its task's unit, behind those before it there.
fn is_in_turn(entry: &JobEntry) -> bool {
    u16::from(entry.unit) == entry.job % 8 && entry.start == u32::from(entry.job / 8)
}

/// A budget that suffices, to the last step: each of the lists that the first choices lead to is expanded once.
fn compare_tables(rt: &impl Abort, alloc: Global, net: &Net, budget: u32) -> Result<(), Memory> {
    let mut steps = Steps::new();
    let Ok(tables) = searched(alloc, net, budget, &mut steps) else {
        return Err(Memory);
    };
    assert_eq!(rt; steps.taken(), u64::from(budget));
    assert_eq!(rt; tables.jobs.len(), 64);
    assert!(rt; tables.jobs.as_slice().iter().all(is_in_turn));
    Ok(())
}

/// A budget that doesn't suffice.
fn compare_spent(rt: &impl Abort, alloc: Global, net: &Net, budget: u32) {
    let mut steps = Steps::new();
    let fault = searched(alloc, net, budget, &mut steps).err();
    assert_eq!(rt; fault, Some(SearchFault::Spent));
    assert_eq!(rt; steps.taken(), u64::from(budget));
}

#[test]
fn as_many_steps_as_tasks_and_one(rt: HostRuntime) -> Result<(), Fail> {
    let alloc = rt.alloc();
    let net = sixty_four_tasks(alloc)?;
    compare_tables(&rt, alloc, &net, 65)?;
    compare_spent(&rt, alloc, &net, 64);
    Ok(())
}

/// A chain of a task for each name, in turn on two units, in one transaction that comes eight times in a cycle: 512 jobs.
fn chain_of_tasks(alloc: Global) -> Result<Net, Memory> {
    let shape = shape_of(2, 7, 16);
    let mut net = net_of(
        alloc,
        shape,
        &[],
        &[("t", 1026, 1026)],
        &[],
        &[("s", 0)],
        &[],
    )?;
    for (task, name) in (0u8..64).zip(NAMES.iter()) {
        net.tasks.push(task_of(alloc, name, 0, 1 << (task % 2))?)?;
    }
    for task in 0u8..63 {
        net.edges.push(edge_of(task, task + 1))?;
    }
    Ok(net)
}

#[test]
fn as_many_steps_as_jobs_and_one(rt: HostRuntime) -> Result<(), Fail> {
    let alloc = rt.alloc();
    let net = chain_of_tasks(alloc)?;
    let mut steps = Steps::new();
    let Ok(tables) = searched(alloc, &net, 513, &mut steps) else {
        return Err(Memory.into());
    };
    assert_eq!(rt; steps.taken(), 513);
    assert_eq!(rt; tables.jobs.len(), 512);
    assert_eq!(rt; tables.messages.len(), 504);
    compare_spent(&rt, alloc, &net, 512);
    Ok(())
}
