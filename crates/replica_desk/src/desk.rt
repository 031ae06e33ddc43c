//! What a replica holds.

use job_book::JobBook;
use replica_parts::Inbox;
use task_words::{InWords, TaskStates};

/// What a replica holds in a cycle.
#[derive(Drop)]
pub struct Desk {
    /// The next tick that it performs.
    pub clock: u32,
    /// The job in hand: it has started and isn't over.
    pub hand: Option<u16>,
    /// What it knows of each job.
    pub book: JobBook,
    /// The state of each task of its unit.
    pub states: TaskStates,
    /// What it has taken of the messages.
    pub inbox: Inbox,
    /// The inputs of the job in hand.
    pub ins: InWords,
}
