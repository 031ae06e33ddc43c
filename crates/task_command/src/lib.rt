//! The command `task FILE`.
#![tactic(auto)]

pub mod execute;
pub mod task;

pub use execute::run_built;
pub use task::run_task;
