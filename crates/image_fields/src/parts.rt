//! What the fields of an image say.
use graph::{Edge, Plug, Transaction};
use image_tables::{JobPart, MessagePart};
use image_tasks::TaskParts;
use mars_base::ClusterShape;
use sqlite_items::Items;

/// What the fields of an image say, before any rule that joins them.
#[derive(Debug, Drop)]
pub struct Parts {
    /// The cluster.
    pub shape: ClusterShape,
    /// The tasks with their code.
    pub tasks: TaskParts,
    /// The transactions.
    pub transactions: Items<Transaction>,
    /// The edges.
    pub edges: Items<Edge>,
    /// The sensors.
    pub sensors: Items<Plug>,
    /// The actuators.
    pub actuators: Items<Plug>,
    /// The entries of jobs.
    pub jobs: Items<JobPart>,
    /// The entries of messages.
    pub messages: Items<MessagePart>,
}
