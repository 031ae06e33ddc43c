use crate::{JobEntry, Message, TableFault, TableRule, Tables, valid};
use graph::{Edge, Graph, Net, NetTask, Plug, Transaction, sound};
use mars_base::{ClusterShape, Memory, Text};
use sqlite_items::Items;
use std::alloc::Global;
use std::process::Abort;
use std::test::Fail;

fn task(alloc: Global, name: &str, units: u8) -> Result<NetTask, Memory> {
    Ok(NetTask {
        name: Text::from_slice(alloc, name.as_bytes())?,
        transaction: 0,
        units,
        ins: Items::from_slice(alloc, &[1])?,
        outs: Items::from_slice(alloc, &[1])?,
    })
}

fn sensor(alloc: Global, name: &str, task: u8) -> Result<Plug, Memory> {
    Ok(Plug {
        name: Text::from_slice(alloc, name.as_bytes())?,
        task,
        port: 0,
    })
}

fn edge(from_task: u8, to_task: u8) -> Edge {
    Edge {
        from_task,
        from_port: 0,
        to_task,
        to_port: 0,
    }
}

/// A task `a` of unit 0 and nothing else yet, in one transaction.
fn begun(alloc: Global, units: u8, slot_words: u8, round: u32, period: u32) -> Result<Net, Memory> {
    let mut net = Net {
        shape: ClusterShape {
            units,
            slot_words,
            precision: 1,
            cycles_per_tick: 7,
            round,
        },
        tasks: Items::new(alloc),
        transactions: Items::new(alloc),
        edges: Items::new(alloc),
        sensors: Items::new(alloc),
        actuators: Items::new(alloc),
    };
    net.transactions.push(Transaction {
        name: Text::from_slice(alloc, b"t")?,
        period,
        deadline: period,
    })?;
    net.tasks.push(task(alloc, "a", 1)?)?;
    net.sensors.push(sensor(alloc, "s", 0)?)?;
    Ok(net)
}

/// `a` of unit 0 feeds `b` of unit 1 over the bus. The cycle has two rounds of 12 ticks.
fn two(alloc: Global) -> Result<Net, Memory> {
    let mut net = begun(alloc, 2, 2, 12, 24)?;
    net.tasks.push(task(alloc, "b", 2)?)?;
    net.edges.push(edge(0, 1))?;
    Ok(net)
}

/// `a` and `b` of one unit, with two instances each: the cycle has two rounds of 6 ticks.
fn pair(alloc: Global) -> Result<Net, Memory> {
    let mut net = begun(alloc, 1, 2, 12, 6)?;
    net.tasks.push(task(alloc, "b", 1)?)?;
    net.sensors.push(sensor(alloc, "r", 1)?)?;
    Ok(net)
}

/// `a` of unit 0 feeds `b` and `c` of unit 1, in frames of four words. The cycle has two rounds of 40 ticks.
fn fork(alloc: Global) -> Result<Net, Memory> {
    let mut net = begun(alloc, 2, 4, 40, 80)?;
    net.tasks.push(task(alloc, "b", 2)?)?;
    net.tasks.push(task(alloc, "c", 2)?)?;
    net.edges.push(edge(0, 1))?;
    net.edges.push(edge(0, 2))?;
    Ok(net)
}

fn entry(job: u16, unit: u8, start: u32, end: u32) -> JobEntry {
    JobEntry {
        job,
        unit,
        start,
        end,
    }
}

fn message(edge: u16, unit: u8, round: u32, offset: u8) -> Message {
    Message {
        edge,
        instance: 0,
        unit,
        round,
        offset,
    }
}

/// The number of the first rule that the tables don't keep, 0 where they keep all. Each job has one tick.
fn first_rule(
    rt: &impl Abort,
    alloc: Global,
    net: &Net,
    lengths: &[u32],
    jobs: &[JobEntry],
    messages: &[Message],
) -> Result<u8, Memory> {
    assert!(rt; sound(alloc, net)?);
    assert!(rt; lengths.len() == net.tasks.len());
    assert!(rt; lengths.iter().all(|length| 1 <= *length));
    let Ok(graph) = Graph::jobs(alloc, net, lengths) else {
        return Err(Memory);
    };
    let tables = Tables {
        jobs: Items::from_slice(alloc, jobs)?,
        messages: Items::from_slice(alloc, messages)?,
    };
    Ok(match valid(&tables, net, &graph) {
        Ok(()) => 0,
        Err(TableFault { rule }) => rule.number(),
    })
}

#[test]
fn two_tasks_over_the_bus(rt: HostRuntime) -> Result<(), Fail> {
    let alloc = rt.alloc();
    let net = two(alloc)?;
    for (a, b, sent, rule) in [
        (
            entry(0, 0, 0, 1),
            entry(1, 1, 18, 19),
            message(0, 0, 1, 0),
            0,
        ),
        (
            entry(1, 0, 0, 1),
            entry(1, 1, 18, 19),
            message(0, 0, 1, 0),
            1,
        ),
        (
            entry(0, 0, 0, 1),
            entry(1, 0, 18, 19),
            message(0, 0, 1, 0),
            2,
        ),
        (
            entry(0, 0, 0, 1),
            entry(1, 9, 18, 19),
            message(0, 0, 1, 0),
            2,
        ),
        (
            entry(0, 0, 0, 1),
            entry(1, 1, 18, 20),
            message(0, 0, 1, 0),
            3,
        ),
        (
            entry(0, 0, 0, 1),
            entry(1, 1, 24, 25),
            message(0, 0, 1, 0),
            6,
        ),
        (
            entry(0, 0, 0, 1),
            entry(1, 1, 17, 18),
            message(0, 0, 1, 0),
            7,
        ),
        (
            entry(0, 0, 12, 13),
            entry(1, 1, 18, 19),
            message(0, 0, 1, 0),
            7,
        ),
        (
            entry(0, 0, 0, 1),
            entry(1, 1, 18, 19),
            message(0, 1, 1, 0),
            7,
        ),
        (
            entry(0, 0, 0, 1),
            entry(1, 1, 18, 19),
            message(0, 0, 0, 0),
            7,
        ),
        (
            entry(0, 0, 0, 1),
            entry(1, 1, 18, 19),
            message(0, 0, 2, 0),
            7,
        ),
        (
            entry(0, 0, 0, 1),
            entry(1, 1, 18, 19),
            message(1, 0, 1, 0),
            7,
        ),
        (
            entry(0, 0, 0, 1),
            entry(1, 1, 18, 19),
            message(0, 0, 1, 1),
            8,
        ),
    ] {
        assert_eq!(&rt;
            first_rule(&rt, alloc, &net, &[1, 1], &[a, b], &[sent])?,
            rule
        );
    }
    assert_eq!(&rt;
        first_rule(&rt, alloc, &net, &[1, 1], &[entry(0, 0, 0, 1)], &[])?,
        1
    );
    assert_eq!(&rt;
        first_rule(
            &rt,
            alloc,
            &net,
            &[1, 1],
            &[entry(0, 0, 0, 1), entry(1, 1, 18, 19)],
            &[]
        )?,
        7
    );
    Ok(())
}

#[test]
fn one_unit_and_one_frame(rt: HostRuntime) -> Result<(), Fail> {
    let alloc = rt.alloc();
    let net = pair(alloc)?;
    for (second, third, rule) in [(6, 1, 0), (6, 0, 4), (5, 1, 5)] {
        let jobs = [
            entry(0, 0, 0, 1),
            entry(1, 0, second, second + 1),
            entry(2, 0, third, third + 1),
            entry(3, 0, 7, 8),
        ];
        assert_eq!(&rt; first_rule(&rt, alloc, &net, &[1, 1], &jobs, &[])?, rule);
    }
    let net = fork(alloc)?;
    for (first, second, rule) in [(0, 2, 0), (2, 0, 0), (0, 1, 8), (1, 2, 8), (0, 3, 8)] {
        let jobs = [entry(0, 0, 0, 1), entry(1, 1, 50, 51), entry(2, 1, 51, 52)];
        let messages = [message(0, 0, 1, first), message(1, 0, 1, second)];
        assert_eq!(&rt;
            first_rule(&rt, alloc, &net, &[1, 1, 1], &jobs, &messages)?,
            rule
        );
    }
    Ok(())
}
