//! What a job waits for.
use arrayvec::ArrayVec;
use decisions::Sent;

/// The messages that a job gets, and the tick for which it waits.
#[derive(Drop)]
pub struct Pending {
    /// The messages, at most 16.
    pub sent: ArrayVec<Sent, 16>,
    /// The tick.
    pub wait: u32,
}

/// A unit that can run a job, and the job's end there.
#[derive(Clone, Copy, Default)]
pub struct Fit {
    /// The unit.
    pub unit: u8,
    /// The first tick after the job.
    pub end: u32,
}

/// A unit on which a job is placed, and its end.
#[derive(Clone, Copy)]
pub struct Spot {
    /// The unit.
    pub unit: u8,
    /// The first tick after the job.
    pub end: u32,
}
