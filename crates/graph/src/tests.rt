use crate::soundness::keeps_rules;
use crate::{Edge, Feeder, Graph, GraphFault, Net, NetTask, Plug, Transaction, length_of, sound};
use mars_base::{ClusterShape, Memory, Text};
use sqlite_items::Items;
use std::alloc::Global;
use std::process::Abort;
use std::test::Fail;

fn shape(units: u8, round: u32) -> ClusterShape {
    ClusterShape {
        units,
        slot_words: 2,
        precision: 1,
        cycles_per_tick: 7,
        round,
    }
}

fn task(alloc: Global, name: &str, transaction: u8, width: u8) -> Result<NetTask, Memory> {
    Ok(NetTask {
        name: Text::from_slice(alloc, name.as_bytes())?,
        transaction,
        units: 1,
        ins: Items::from_slice(alloc, &[width])?,
        outs: Items::from_slice(alloc, &[1])?,
    })
}

fn plug(alloc: Global, name: &str, task: u8) -> Result<Plug, Memory> {
    Ok(Plug {
        name: Text::from_slice(alloc, name.as_bytes())?,
        task,
        port: 0,
    })
}

fn edge(from_task: u8, to_task: u8) -> Edge {
    Edge {
        from_task,
        from_port: 0,
        to_task,
        to_port: 0,
    }
}

/// A net of no task yet, with one transaction.
fn empty(alloc: Global, round: u32, period: u32, deadline: u32) -> Result<Net, Memory> {
    let mut transactions = Items::new(alloc);
    transactions.push(Transaction {
        name: Text::from_slice(alloc, b"t")?,
        period,
        deadline,
    })?;
    Ok(Net {
        shape: shape(1, round),
        tasks: Items::new(alloc),
        transactions,
        edges: Items::new(alloc),
        sensors: Items::new(alloc),
        actuators: Items::new(alloc),
    })
}

/// One task, a sensor and an actuator.
fn one(alloc: Global, round: u32, period: u32, deadline: u32, width: u8) -> Result<Net, Memory> {
    let mut net = empty(alloc, round, period, deadline)?;
    net.tasks.push(task(alloc, "inc", 0, width)?)?;
    net.sensors.push(plug(alloc, "s", 0)?)?;
    net.actuators.push(plug(alloc, "v", 0)?)?;
    Ok(net)
}

/// A task `a` and a task `b`, of which `b` feeds `a`, with two instances each.
fn back(alloc: Global) -> Result<Net, Memory> {
    let mut net = empty(alloc, 12, 6, 6)?;
    net.tasks.push(task(alloc, "a", 0, 1)?)?;
    net.tasks.push(task(alloc, "b", 0, 1)?)?;
    net.edges.push(edge(1, 0))?;
    net.sensors.push(plug(alloc, "s", 1)?)?;
    Ok(net)
}

/// A task `a` of unit 0 that feeds a task `b` of unit 1 over the bus.
fn two(alloc: Global) -> Result<Net, Memory> {
    let mut net = empty(alloc, 12, 24, 24)?;
    net.shape = shape(2, 12);
    net.tasks.push(task(alloc, "a", 0, 1)?)?;
    let mut other = task(alloc, "b", 0, 1)?;
    other.units = 2;
    net.tasks.push(other)?;
    net.edges.push(edge(0, 1))?;
    net.sensors.push(plug(alloc, "s", 0)?)?;
    net.actuators.push(plug(alloc, "v", 1)?)?;
    Ok(net)
}

/// 64 tasks, of which each but the first feeds the one before it.
fn chain(alloc: Global) -> Result<Net, Memory> {
    let mut net = empty(alloc, 6, 6, 6)?;
    for number in 0..64u8 {
        let name = format!(in alloc; "t{number}")?;
        net.tasks.push(task(alloc, name.as_str(), 0, 1)?)?;
    }
    for number in 0..63u8 {
        net.edges.push(edge(number + 1, number))?;
    }
    net.sensors.push(plug(alloc, "s", 63)?)?;
    Ok(net)
}

/// Appends the name's letters and a digit as a task's or another entry's name.
fn numbered(alloc: Global, letters: &str, number: u8) -> Result<Text, Memory> {
    let name = format!(in alloc; "{letters}{number}")?;
    Text::from_slice(alloc, name.as_bytes())
}

/// A sensor's task, a controller and an actuator's task in each of four transactions.
fn plant(alloc: Global) -> Result<Net, Memory> {
    let mut net = Net {
        shape: ClusterShape {
            units: 4,
            slot_words: 8,
            precision: 2,
            cycles_per_tick: 40,
            round: 100,
        },
        tasks: Items::new(alloc),
        transactions: Items::new(alloc),
        edges: Items::new(alloc),
        sensors: Items::new(alloc),
        actuators: Items::new(alloc),
    };
    let rows = [
        (100, [1, 3, 0]),
        (100, [2, 2, 0]),
        (200, [0, 2, 3]),
        (200, [3, 1, 2]),
    ];
    let mut number = 0u8;
    for (period, units) in rows {
        push_row(alloc, &mut net, number, period, units)?;
        number = number.saturating_add(1);
    }
    Ok(net)
}

fn push_row(
    alloc: Global,
    net: &mut Net,
    number: u8,
    period: u32,
    units: [u8; 3],
) -> Result<(), Memory> {
    let names = ["sense", "ctl", "act"];
    for (name, unit) in names.into_iter().zip(units) {
        net.tasks.push(NetTask {
            name: numbered(alloc, name, number)?,
            transaction: number,
            units: 1u8.checked_shl(u32::from(unit)).unwrap_or(0),
            ins: Items::from_slice(alloc, &[1])?,
            outs: Items::from_slice(alloc, &[1])?,
        })?;
    }
    net.transactions.push(Transaction {
        name: numbered(alloc, "t", number)?,
        period,
        deadline: period,
    })?;
    let first = number.saturating_mul(3);
    let second = first.saturating_add(1);
    let third = first.saturating_add(2);
    net.edges.push(edge(first, second))?;
    net.edges.push(edge(second, third))?;
    net.sensors.push(Plug {
        name: numbered(alloc, "s", number)?,
        task: first,
        port: 0,
    })?;
    net.actuators.push(Plug {
        name: numbered(alloc, "v", number)?,
        task: third,
        port: 0,
    })?;
    Ok(())
}

/// The graph of a net that keeps the rules.
fn graph(rt: &impl Abort, alloc: Global, net: &Net, lengths: &[u32]) -> Result<Graph, GraphFault> {
    assert!(rt; keeps_rules(alloc, net)?);
    assert!(rt; lengths.len() == net.tasks.len());
    assert!(rt; lengths.iter().all(|length| 1 <= *length));
    Graph::jobs(alloc, net, lengths)
}

#[test]
fn limits_come_in_order(rt: HostRuntime) -> Result<(), Fail> {
    let rows = [
        (6, 65_535, 6, 1, GraphFault::CycleTooLong(131_070)),
        (600, 1, 1, 1, GraphFault::TooManyJobs(600)),
        (300, 1, 1, 16, GraphFault::TooManySensorWords(4_800)),
    ];
    for (round, period, deadline, width, fault) in rows {
        let net = one(rt.alloc(), round, period, deadline, width)?;
        assert_eq!(rt; graph(&rt, rt.alloc(), &net, &[1]).err(), Some(fault));
    }
    Ok(())
}

#[test]
fn soundness_is_exact(rt: HostRuntime) -> Result<(), Fail> {
    let alloc = rt.alloc();
    assert!(rt; sound(alloc, &one(alloc, 6, 6, 6, 1)?)?);
    assert!(rt; sound(alloc, &two(alloc)?)?);
    assert!(rt; sound(alloc, &back(alloc)?)?);
    assert!(rt; sound(alloc, &chain(alloc)?)?);
    assert!(rt;
        !sound(alloc, &one(alloc, 6, 6, 7, 1)?)?,
        "a deadline above the period"
    );
    assert!(rt; !sound(alloc, &one(alloc, 600, 1, 1, 1)?)?, "too many jobs");
    let mut circle = back(alloc)?;
    circle.edges.push(edge(0, 1))?;
    circle.sensors = Items::new(alloc);
    assert!(rt; !sound(alloc, &circle)?, "edges in a circle");
    let mut twice = back(alloc)?;
    twice.sensors.push(plug(alloc, "r", 0)?)?;
    assert!(rt; !sound(alloc, &twice)?, "a port fed twice");
    let mut same = two(alloc)?;
    same.sensors.push(plug(alloc, "s", 1)?)?;
    same.edges = Items::new(alloc);
    assert!(rt; !sound(alloc, &same)?, "two sensors of one name");
    let mut never = two(alloc)?;
    never.edges = Items::new(alloc);
    assert!(rt; !sound(alloc, &never)?, "a port that nothing feeds");
    Ok(())
}

#[test]
fn jobs_stand_in_order(rt: HostRuntime) -> Result<(), Fail> {
    let alloc = rt.alloc();
    let net = back(alloc)?;
    let jobs = graph(&rt, alloc, &net, &[1, 2])?;
    assert_eq!(rt; jobs.cycle(), 12);
    assert_eq!(rt; jobs.job_list().len(), 4);
    assert_eq!(rt; jobs.order(), [2, 0, 3, 1].as_slice());
    assert_eq!(rt; jobs.remaining(2), 3);
    assert_eq!(rt; jobs.latest_start(3), 9);
    let net = chain(alloc)?;
    let jobs = graph(&rt, alloc, &net, &[1; 64])?;
    assert_eq!(rt; jobs.job_list().len(), 64);
    assert_eq!(rt; jobs.remaining(63), 64);
    assert_eq!(rt; jobs.latest_start(63), -58);
    assert_eq!(rt; jobs.order().first(), Some(&63));
    Ok(())
}

#[test]
fn a_plant_has_18_jobs(rt: HostRuntime) -> Result<(), Fail> {
    let alloc = rt.alloc();
    let net = plant(alloc)?;
    assert!(rt; sound(alloc, &net)?);
    let jobs = graph(&rt, alloc, &net, &[4, 2, 1, 4, 2, 1, 4, 2, 1, 4, 2, 1])?;
    assert_eq!(rt; jobs.cycle(), 200);
    assert_eq!(rt; jobs.job_list().len(), 18);
    let numbers = [0, 1, 2, 3, 4, 5, 6, 7, 8, 9, 10, 11, 12, 13, 14, 15, 16, 17];
    assert_eq!(rt; jobs.order(), numbers.as_slice());
    assert_eq!(rt; jobs.remaining(0), 7);
    assert_eq!(rt; jobs.latest_start(1), 193);
    Ok(())
}

#[test]
fn a_net_names_its_parts(rt: HostRuntime) -> Result<(), Fail> {
    let alloc = rt.alloc();
    let net = two(alloc)?;
    assert_eq!(rt; net.transaction_of(1), 0);
    assert_eq!(rt; net.units_of(1), 2);
    assert!(rt; net.allows(1, 1) && !net.allows(1, 0));
    assert_eq!(rt; net.ins_of(0), [1].as_slice());
    assert_eq!(rt; net.outs_of(2), [].as_slice());
    assert_eq!(rt; net.width_of(&edge(0, 1)), 1);
    assert_eq!(rt; net.deadline_of(0), 24);
    let net = back(alloc)?;
    assert_eq!(rt; net.period_of(0), 6);
    Ok(())
}

#[test]
fn a_graph_has_tables(rt: HostRuntime) -> Result<(), Fail> {
    let alloc = rt.alloc();
    let net = back(alloc)?;
    let jobs = graph(&rt, alloc, &net, &[1, 2])?;
    assert_eq!(rt; jobs.feeder(0, 0), Some(Feeder::Edge(0)));
    assert_eq!(rt; jobs.feeder(1, 0), Some(Feeder::Sensor(0)));
    assert_eq!(rt; jobs.feeder(1, 1), None);
    Ok(())
}

#[test]
fn lengths_are_rounded_up(rt: HostRuntime) {
    assert_eq!(rt; length_of(7, 7), 1);
    assert_eq!(rt; length_of(18, 7), 3);
    assert_eq!(rt; length_of(156, 40), 4);
    assert_eq!(rt; length_of(51, 40), 2);
    assert_eq!(rt; length_of(14, 40), 1);
    assert_eq!(rt; length_of(0, 7), 1);
}
