//! How a cycle ends.

/// How a cycle ended.
#[derive(Clone, Copy, Debug, PartialEq, Eq)]
pub enum CycleEnd {
    /// All its jobs that were to run have ended.
    Clean,
    /// A job broke.
    Broken,
    /// A unit was lost.
    Lost,
}
