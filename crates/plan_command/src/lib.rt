//! The command `plan PROJECT BUDGET`.
#![tactic(auto)]

pub mod plan;
pub mod show;

pub use plan::run_plan;
pub use show::show_made;
