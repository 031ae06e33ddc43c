use graph::{Edge, Feeder, Graph, GraphFault, Net, NetTask, length_of, sound};
use mars_base::{Memory, Text};
use sqlite_items::Items;
use std::alloc::Global;
use std::process::Abort;
use std::test::Fail;
use worked_nets::{edge_of, graph_of, net_of, one_task, plant, shape_of, two_tasks};

/// A task `a` and a task `b` of one unit, with two instances each.
fn pair(alloc: Global, edges: &[(u8, u8)], sensors: &[(&str, u8)]) -> Result<Net, Memory> {
    net_of(
        alloc,
        shape_of(1, 7, 12),
        &[("a", 0, 1), ("b", 0, 1)],
        &[("t", 6, 6)],
        edges,
        sensors,
        &[],
    )
}

/// The pair in which `b` feeds `a`.
fn back(alloc: Global) -> Result<Net, Memory> {
    pair(alloc, &[(1, 0)], &[("s", 1)])
}

fn chain_tasks(alloc: Global) -> Result<Items<NetTask>, Memory> {
    let mut tasks = Items::new(alloc);
    for number in 0..64u8 {
        tasks.push(NetTask {
            name: Text::from_slice(alloc, &[b't', b'0' + number / 8, b'0' + number % 8])?,
            transaction: 0,
            units: 1,
            ins: Items::from_slice(alloc, &[1])?,
            outs: Items::from_slice(alloc, &[1])?,
        })?;
    }
    Ok(tasks)
}

fn chain_edges(alloc: Global) -> Result<Items<Edge>, Memory> {
    let mut edges = Items::new(alloc);
    for number in 0..63u8 {
        edges.push(edge_of(number + 1, number))?;
    }
    Ok(edges)
}

/// 64 tasks, of which each but the first feeds the one before it.
fn chain(alloc: Global) -> Result<Net, Memory> {
    let mut net = net_of(
        alloc,
        shape_of(1, 7, 6),
        &[],
        &[("t", 6, 6)],
        &[],
        &[("s", 63)],
        &[],
    )?;
    net.tasks = chain_tasks(alloc)?;
    net.edges = chain_edges(alloc)?;
    Ok(net)
}

/// Whether a net is sound.
fn is_sound(alloc: Global, net: Result<Net, Memory>) -> Result<bool, Memory> {
    sound(alloc, &net?)
}

#[test]
fn these_nets_are_sound(rt: HostRuntime) -> Result<(), Fail> {
    let alloc = rt.alloc();
    assert!(rt; is_sound(alloc, one_task(alloc, 6, 6, 6))?);
    assert!(rt; is_sound(alloc, two_tasks(alloc))?);
    assert!(rt; is_sound(alloc, back(alloc))?);
    assert!(rt; is_sound(alloc, chain(alloc))?);
    assert!(rt; is_sound(alloc, plant(alloc))?);
    Ok(())
}

#[test]
fn these_nets_are_not_sound(rt: HostRuntime) -> Result<(), Fail> {
    let alloc = rt.alloc();
    let sensors = [("s", 0), ("s", 1), ("r", 0)];
    let late = is_sound(alloc, one_task(alloc, 6, 6, 7))?;
    assert!(rt; !late, "a deadline above the period");
    let many = is_sound(alloc, one_task(alloc, 600, 1, 1))?;
    assert!(rt; !many, "too many jobs");
    let circle = is_sound(alloc, pair(alloc, &[(1, 0), (0, 1)], &[]))?;
    assert!(rt; !circle, "edges in a circle");
    let twice = is_sound(alloc, pair(alloc, &[(1, 0)], &sensors[1..]))?;
    assert!(rt; !twice, "a port fed twice");
    let same = is_sound(alloc, pair(alloc, &[], &sensors[..2]))?;
    assert!(rt; !same, "two sensors of one name");
    let never = is_sound(alloc, pair(alloc, &[], &sensors[..1]))?;
    assert!(rt; !never, "a port that nothing feeds");
    Ok(())
}

/// A graph as a row: its cycle, how many jobs it has, the first of their order, the remaining ticks of a job, and
/// the latest start of a job.
#[derive(Clone, Copy)]
struct GraphRow<'a> {
    lengths: &'a [u32],
    cycle: u32,
    jobs: usize,
    order: &'a [u16],
    remaining: (u16, u64),
    latest_start: (u16, i64),
}

/// The remaining ticks of a job, where there is one.
fn remaining(graph: &Graph, job: u16) -> Option<u64> {
    if usize::from(job) < graph.job_list().len() {
        Some(graph.remaining(job))
    } else {
        None
    }
}

/// The latest start of a job, where there is one.
fn latest_start(graph: &Graph, job: u16) -> Option<i64> {
    if usize::from(job) < graph.job_list().len() {
        Some(graph.latest_start(job))
    } else {
        None
    }
}

/// Compares a net's graph with its row.
fn compare(
    rt: &impl Abort,
    alloc: Global,
    net: &Net,
    row: &GraphRow<'_>,
) -> Result<(), GraphFault> {
    let graph = graph_of(alloc, net, row.lengths)?;
    assert!(rt; graph.is_some());
    let Some(graph) = graph else {
        return Ok(());
    };
    assert_eq!(rt; graph.cycle(), row.cycle);
    assert_eq!(rt; graph.job_list().len(), row.jobs);
    assert!(rt; graph.order().starts_with(row.order));
    assert_eq!(rt; remaining(&graph, row.remaining.0), Some(row.remaining.1));
    assert_eq!(rt;
        latest_start(&graph, row.latest_start.0),
        Some(row.latest_start.1)
    );
    Ok(())
}

/// The pair, in which `b` takes two ticks and `a` one.
const PAIR: GraphRow<'static> = GraphRow {
    lengths: &[1, 2],
    cycle: 12,
    jobs: 4,
    order: &[2, 0, 3, 1],
    remaining: (2, 3),
    latest_start: (3, 9),
};

/// The chain, in which each task takes one tick.
const CHAIN: GraphRow<'static> = GraphRow {
    lengths: &[1; 64],
    cycle: 6,
    jobs: 64,
    order: &[63],
    remaining: (63, 64),
    latest_start: (63, -58),
};

/// The worked plant.
const PLANT: GraphRow<'static> = GraphRow {
    lengths: &[4, 2, 1, 4, 2, 1, 4, 2, 1, 4, 2, 1],
    cycle: 200,
    jobs: 18,
    order: &[0, 1, 2, 3, 4, 5, 6, 7, 8, 9, 10, 11, 12, 13, 14, 15, 16, 17],
    remaining: (0, 7),
    latest_start: (1, 193),
};

#[test]
fn jobs_stand_in_order(rt: HostRuntime) -> Result<(), Fail> {
    let alloc = rt.alloc();
    compare(&rt, alloc, &back(alloc)?, &PAIR)?;
    compare(&rt, alloc, &chain(alloc)?, &CHAIN)?;
    compare(&rt, alloc, &plant(alloc)?, &PLANT)?;
    Ok(())
}

/// The names that the two-task net gives its parts.
fn compare_parts(rt: &impl Abort, net: &Net) {
    assert_eq!(rt; net.transaction_of(1), 0);
    assert_eq!(rt; net.units_of(1), 2);
    assert!(rt; net.allows(1, 1) && !net.allows(1, 0));
    assert_eq!(rt; net.ins_of(0), [1].as_slice());
    assert_eq!(rt; net.outs_of(2), [].as_slice());
    assert_eq!(rt; net.width_of(&edge_of(0, 1)), 1);
    assert_eq!(rt; net.deadline_of(0), 24);
}

#[test]
fn a_net_names_its_parts(rt: HostRuntime) -> Result<(), Fail> {
    let alloc = rt.alloc();
    compare_parts(&rt, &two_tasks(alloc)?);
    assert_eq!(rt; back(alloc)?.period_of(0), 6);
    Ok(())
}

/// What feeds an in port of the pair in which `b` feeds `a`.
fn feeder_of(alloc: Global, task: u8, port: u8) -> Result<Option<Feeder>, GraphFault> {
    let net = back(alloc)?;
    match graph_of(alloc, &net, &[1, 2])? {
        Some(graph) if task < 64 && port < 16 => Ok(graph.feeder(task, port)),
        _ => Ok(None),
    }
}

#[test]
fn a_graph_has_tables(rt: HostRuntime) -> Result<(), Fail> {
    let alloc = rt.alloc();
    assert_eq!(rt; feeder_of(alloc, 0, 0)?, Some(Feeder::Edge(0)));
    assert_eq!(rt; feeder_of(alloc, 1, 0)?, Some(Feeder::Sensor(0)));
    assert_eq!(rt; feeder_of(alloc, 1, 1)?, None);
    Ok(())
}

#[test]
fn lengths_are_rounded_up(rt: HostRuntime) {
    for (cycles, cycles_per_tick, length) in [
        (7, 7, 1),
        (18, 7, 3),
        (156, 40, 4),
        (51, 40, 2),
        (14, 40, 1),
        (0, 7, 1),
    ] {
        assert_eq!(rt; length_of(cycles, cycles_per_tick), length);
    }
}
