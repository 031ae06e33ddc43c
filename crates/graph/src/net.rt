//! A project in numbers. Tasks, transactions, edges, sensors and actuators are numbered from 0 in their
//! order, and the ports of a task from 0 among its in ports or among its out ports.
use mars_base::{ClusterShape, Text};
use sqlite_items::Items;

/// A project in numbers. Contracts see each list as a list.
#[derive(Debug, Drop)]
pub struct Net {
    /// The cluster.
    pub shape: ClusterShape,
    /// The tasks, 1 to 64.
    pub tasks: Items<NetTask>,
    /// The transactions, 1 to 32.
    pub transactions: Items<Transaction>,
    /// The edges, at most 1,024.
    pub edges: Items<Edge>,
    /// The sensors, at most 1,024.
    pub sensors: Items<Plug>,
    /// The actuators, at most 1,024.
    pub actuators: Items<Plug>,
}

/// A task of a net.
#[derive(Debug, Drop)]
pub struct NetTask {
    /// Its name.
    pub name: Text,
    /// The number of its transaction.
    pub transaction: u8,
    /// The units that may run it, as a mask: bit n stands for unit n.
    pub units: u8,
    /// How many words each of its in ports has, 1 to 16.
    pub ins: Items<u8>,
    /// How many words each of its out ports has, 1 to 16.
    pub outs: Items<u8>,
}

/// Tasks with one period and one deadline.
#[derive(Debug, Drop)]
pub struct Transaction {
    /// Its name.
    pub name: Text,
    /// The ticks from one release to the next, 1 to 65,536.
    pub period: u32,
    /// The ticks from a release to its deadline, 1 to the period.
    pub deadline: u32,
}

/// The words of an out port that go to an in port.
#[derive(Clone, Copy, Debug, PartialEq, Eq)]
pub struct Edge {
    /// The task that gives the words.
    pub from_task: u8,
    /// Its out port.
    pub from_port: u8,
    /// The task that takes them.
    pub to_task: u8,
    /// Its in port.
    pub to_port: u8,
}

/// A sensor and the in port that it feeds, or an actuator and the out port that feeds it.
#[derive(Debug, Drop)]
pub struct Plug {
    /// Its name.
    pub name: Text,
    /// The task.
    pub task: u8,
    /// The port.
    pub port: u8,
}
