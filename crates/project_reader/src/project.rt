//! A project whose ports aren't bound yet.
use graph::Transaction;
use mars_base::{ClusterShape, Text};
use sqlite_items::Items;

/// What a project file says, with tasks and transactions by number. Its ports are names still: the tasks'
/// sources alone tell what ports there are. Contracts see each list as a list.
#[derive(Debug, Drop)]
pub struct Project {
    /// The cluster. Its round is the least one where the file gives none.
    pub shape: ClusterShape,
    /// The tasks, 1 to 64.
    pub tasks: Items<TaskEntry>,
    /// The transactions, 1 to 32.
    pub transactions: Items<Transaction>,
    /// The edges, at most 1,024.
    pub edges: Items<Wire>,
    /// The sensors, at most 1,024. Each names the in port that it feeds.
    pub sensors: Items<Outlet>,
    /// The actuators, at most 1,024. Each names the out port that feeds it.
    pub actuators: Items<Outlet>,
}

/// A task of a project.
#[derive(Debug, Drop)]
pub struct TaskEntry {
    /// Its name.
    pub name: Text,
    /// The name of the file of its source, 1 to 255 bytes of UTF-8.
    pub file: Text,
    /// The units that may run it, as a mask: bit n stands for unit n.
    pub units: u8,
    /// The number of its transaction.
    pub transaction: u8,
}

/// A port of a task, by name.
#[derive(Debug, Drop)]
pub struct PortRef {
    /// The number of the task.
    pub task: u8,
    /// The port's name.
    pub port: Text,
}

/// An edge between two ports.
#[derive(Debug, Drop)]
pub struct Wire {
    /// The out port that gives the words.
    pub from: PortRef,
    /// The in port that takes them.
    pub to: PortRef,
}

/// A sensor or an actuator, and its port.
#[derive(Debug, Drop)]
pub struct Outlet {
    /// Its name.
    pub name: Text,
    /// The port.
    pub port: PortRef,
}
