//! What a project means: its net in numbers, when a net is sound, and its jobs.
#![tactic(auto)]

mod access;
pub mod feeder;
mod feeds;
pub mod job;
pub mod job_graph;
pub mod job_length;
mod jobs;
mod limits;
mod longest;
mod names;
pub mod net;
mod order;
mod rules;
mod sequence;
pub mod soundness;

pub use feeder::Feeder;
pub use job::{GraphFault, Job};
pub use job_graph::Graph;
pub use job_length::length_of;
pub use net::{Edge, Net, NetTask, Plug, Transaction};
pub use soundness::sound;

#[cfg(test)]
mod tests;
