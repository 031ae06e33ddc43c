//! What is to be placed.
use sqlite_items::Items;
use tdma::Round;

/// An edge that feeds a job, and the job that gives its words.
#[derive(Clone, Copy)]
pub struct Feed {
    /// The number of the edge.
    pub edge: u16,
    /// The number of the job that gives the words.
    pub producer: u16,
    /// The words of a message of the edge: one that says whether it is present, and the edge's, 2 to 17.
    pub words: u8,
}

/// A job that is to be placed.
#[derive(Drop)]
pub struct Work {
    /// The number of its task.
    pub task: u8,
    /// The number of its instance.
    pub instance: u32,
    /// The tick before which it can't start.
    pub release: u32,
    /// The tick by which it ends.
    pub deadline: u32,
    /// How many ticks it takes, at least 1.
    pub length: u32,
    /// The ticks that it and what must follow it take at least.
    pub remaining: u64,
    /// The units that may run it, as a mask: bit n stands for unit n.
    pub units: u8,
    /// What feeds its in ports over edges, port by port.
    pub feeds: Items<Feed>,
}

/// The jobs of a cycle by number, and the bus.
#[derive(Drop)]
pub struct Problem {
    /// The rounds of the cycle.
    pub round: Round,
    /// How many edges there are.
    pub edges: u16,
    /// The jobs.
    pub works: Items<Work>,
}
