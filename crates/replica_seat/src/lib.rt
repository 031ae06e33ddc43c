//! A replica of a cluster: what it looks up, what it holds and its processor, in a seat of the cluster.
#![tactic(auto)]

pub mod replica;

pub use replica::Replica;
