//! The entries of tables.
use sqlite_items::Items;

/// When a job runs, and where.
#[derive(Clone, Copy, Debug, PartialEq, Eq)]
pub struct JobEntry {
    /// The number of the job.
    pub job: u16,
    /// The unit that runs it.
    pub unit: u8,
    /// The tick of the cycle at which it starts.
    pub start: u32,
    /// The first tick after it.
    pub end: u32,
}

/// In which frame the words of an edge go from one unit to another, for one instance.
#[derive(Clone, Copy, Debug, PartialEq, Eq)]
pub struct Message {
    /// The number of the edge.
    pub edge: u16,
    /// The number of the instance.
    pub instance: u32,
    /// The unit that sends it.
    pub unit: u8,
    /// The round of the cycle in whose frame it goes.
    pub round: u32,
    /// The word of the frame at which it begins.
    pub offset: u8,
}

/// The tables of a cluster, made before run time. Contracts see each list as a list.
#[derive(Debug, Drop)]
pub struct Tables {
    /// The jobs, by number.
    pub jobs: Items<JobEntry>,
    /// The messages, by edge and then by instance.
    pub messages: Items<Message>,
}
