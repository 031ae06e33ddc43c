//! The graph of a project's net, or the limit that the net passes.
#![tactic(auto)]

pub mod limited;

pub use limited::graph_of;
