//! The tasks of a project, read from their files in the project's order.
#![tactic(auto)]

pub mod tasks;

pub use tasks::read_tasks;

#[cfg(test)]
mod tests;
