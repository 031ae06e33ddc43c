//! What a replica holds before its first tick, and at the start of each later cycle, exactly as the model has it.
#![tactic(auto)]

pub mod start;

pub use start::{first_desk, turn};
