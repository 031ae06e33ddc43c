//! A cluster of replicas, event by event.
#![tactic(auto)]

pub mod clocks;
pub mod enabled;
pub mod event;
pub mod given;
pub mod look;
pub mod make;
pub mod state;
pub mod turn;
pub mod width;

pub use make::new_cluster;
pub use state::{Cluster, cycle_number};
pub use width::line_words;
