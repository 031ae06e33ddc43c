//! What is to be placed for a net and its graph.
#![tactic(auto)]

mod feeds;
mod works;

pub use works::problem_of;
