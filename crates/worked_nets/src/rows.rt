//! A net as rows of constants. Each task has one in port and one out port, of one word each.
use graph::{Edge, Net, NetTask, Plug, Transaction};
use mars_base::{ClusterShape, Memory, Text};
use sqlite_items::Items;
use std::alloc::Global;

/// A task with one in port and one out port of a word each: its name, the number of its transaction, and its
/// units as a mask, in which bit n stands for unit n.
pub fn task_of(alloc: Global, name: &str, transaction: u8, units: u8) -> Result<NetTask, Memory> {
    Ok(NetTask {
        name: Text::from_slice(alloc, name.as_bytes())?,
        transaction,
        units,
        ins: Items::from_slice(alloc, &[1])?,
        outs: Items::from_slice(alloc, &[1])?,
    })
}

/// A sensor of a task's in port, or an actuator of its out port.
pub fn plug_of(alloc: Global, name: &str, task: u8) -> Result<Plug, Memory> {
    Ok(Plug {
        name: Text::from_slice(alloc, name.as_bytes())?,
        task,
        port: 0,
    })
}

/// An edge from a task's out port to another's in port.
pub fn edge_of(from_task: u8, to_task: u8) -> Edge {
    Edge {
        from_task,
        from_port: 0,
        to_task,
        to_port: 0,
    }
}

/// Units with slots of two words, a precision of one tick, and the cycles of a tick and the ticks of a round given.
pub fn shape_of(units: u8, cycles_per_tick: u16, round: u32) -> ClusterShape {
    ClusterShape {
        units,
        slot_words: 2,
        precision: 1,
        cycles_per_tick,
        round,
    }
}

fn tasks_of(alloc: Global, rows: &[(&str, u8, u8)]) -> Result<Items<NetTask>, Memory> {
    let mut tasks = Items::new(alloc);
    for (name, transaction, units) in rows {
        tasks.push(task_of(alloc, name, *transaction, *units)?)?;
    }
    Ok(tasks)
}

fn transactions_of(alloc: Global, rows: &[(&str, u32, u32)]) -> Result<Items<Transaction>, Memory> {
    let mut transactions = Items::new(alloc);
    for (name, period, deadline) in rows {
        transactions.push(Transaction {
            name: Text::from_slice(alloc, name.as_bytes())?,
            period: *period,
            deadline: *deadline,
        })?;
    }
    Ok(transactions)
}

fn edges_of(alloc: Global, rows: &[(u8, u8)]) -> Result<Items<Edge>, Memory> {
    let mut edges = Items::new(alloc);
    for (from_task, to_task) in rows {
        edges.push(edge_of(*from_task, *to_task))?;
    }
    Ok(edges)
}

fn plugs_of(alloc: Global, rows: &[(&str, u8)]) -> Result<Items<Plug>, Memory> {
    let mut plugs = Items::new(alloc);
    for (name, task) in rows {
        plugs.push(plug_of(alloc, name, *task)?)?;
    }
    Ok(plugs)
}

/// The net of a cluster and these rows: tasks as `task_of` takes them, transactions with their periods and deadlines
/// in ticks, edges as `edge_of` and plugs as `plug_of` take them. Only want of memory refuses it.
pub fn net_of(
    alloc: Global,
    shape: ClusterShape,
    tasks: &[(&str, u8, u8)],
    transactions: &[(&str, u32, u32)],
    edges: &[(u8, u8)],
    sensors: &[(&str, u8)],
    actuators: &[(&str, u8)],
) -> Result<Net, Memory> {
    Ok(Net {
        shape,
        tasks: tasks_of(alloc, tasks)?,
        transactions: transactions_of(alloc, transactions)?,
        edges: edges_of(alloc, edges)?,
        sensors: plugs_of(alloc, sensors)?,
        actuators: plugs_of(alloc, actuators)?,
    })
}
