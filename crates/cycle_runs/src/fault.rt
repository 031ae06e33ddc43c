//! Why a run ended before the end of its lines.

/// Why a run ended before the end of its lines.
#[derive(Clone, Copy, Debug, PartialEq, Eq)]
pub enum RunFault {
    /// There was no memory.
    Memory,
    /// A read of the input failed.
    Read,
    /// A put to the output failed.
    Write,
    /// The line of this number, from 1, isn't in the grammar, or is one too many.
    BadLine(u64),
    /// A job of a cycle broke.
    Broken,
    /// A unit was lost in a cycle.
    Lost,
}
