//! One replica's event among a cluster's replicas.
#![tactic(auto)]

pub mod one;

pub use one::{fall_one, tick_one};
