//! A project read whole: its net, the graph of its jobs, and its tasks.
#![tactic(auto)]

pub mod parts;
pub mod read;

pub use parts::list_bounds;
pub use read::{ProjectGraph, read_graph};
