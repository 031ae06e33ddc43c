//! The states of the tasks from which a cluster's next cycle starts.
#![tactic(auto)]

pub mod left;

pub use left::take_left;
