//! The replicas of a cluster: one that runs performs its ticks, and one that fell silent never touches the bus again.
#![tactic(auto)]

pub mod running;
pub mod silent;

pub use running::Running;
pub use silent::Silent;
