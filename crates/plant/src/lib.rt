//! A plant: all that a cluster runs by. Its net, the graph of its jobs, their tables, and for each task a
//! program, its greatest number of cycles and its number of state words.
#![tactic(auto)]

pub mod lengths;
pub mod system;

pub use lengths::lengths_of;
pub use system::Plant;

#[cfg(test)]
mod tests;
