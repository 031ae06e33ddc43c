//! The words of tasks in memory that is taken once: the state of each task, and the inputs of one job.
#![tactic(auto)]

pub mod inputs;
pub mod states;

pub use inputs::InWords;
pub use states::TaskStates;

#[cfg(test)]
mod tests;
