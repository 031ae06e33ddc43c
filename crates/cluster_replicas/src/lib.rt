//! A cluster of replicas with their processors, before its first event.
#![tactic(auto)]

pub mod seats;
pub mod whole;

pub use seats::new_replicas;
pub use whole::cluster_of;
