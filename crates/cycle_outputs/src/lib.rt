//! The outputs of a cycle in the order in which run text shows them.
#![tactic(auto)]

pub mod order;

pub use order::{CycleOutput, ordered_outputs};

#[cfg(test)]
mod tests;
