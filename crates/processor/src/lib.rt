//! Processors: what one does with a program, how its executions end, and the laws of executions under growing
//! limits, over any step and its cost.
#![tactic(auto)]

pub mod cpu;

pub use cpu::{Cpu, Turn};
