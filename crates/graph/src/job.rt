//! Jobs, and what keeps a net from having a graph of jobs.
use mars_base::Memory;

/// An instance of a task in a cycle.
#[derive(Clone, Copy, Debug, PartialEq, Eq)]
pub struct Job {
    /// The number of its task.
    pub task: u8,
    /// The number of its instance, from 0.
    pub instance: u32,
    /// The tick before which it can't start.
    pub release: u32,
    /// The tick by which it ends.
    pub deadline: u32,
    /// How many ticks it takes, at least 1.
    pub length: u32,
}

/// Why a net has no graph of jobs. The first of these that comes is answered.
#[derive(Clone, Copy, Debug, PartialEq, Eq)]
pub enum GraphFault {
    /// The least common multiple of the round and the periods passes 65,536: the first value that does,
    /// where the round and then the periods are taken in order.
    CycleTooLong(u64),
    /// A cycle has so many jobs, more than 512.
    TooManyJobs(u64),
    /// A cycle has so many sensor words, more than 4,096.
    TooManySensorWords(u64),
    /// There was no memory.
    Memory,
}

impl From<Memory> for GraphFault {
    ghost use Rattle.std.specs.Prelude.{◌≡◌};
    ghost use Rattle.graph.specs.declared.job.GraphFault.{GraphFault};
    ghost use Rattle.graph.specs.declared.job.GraphFault.TheVariants.{Memory as NoMemory};

    ghost from_gives = { λ _ fault. fault ≡ NoMemory };

    fn from(_error: Memory) -> GraphFault {
        GraphFault::Memory
    }
}
