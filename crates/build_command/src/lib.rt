//! The command `build PROJECT BUDGET IMAGE`.
#![tactic(auto)]

pub mod build;
pub mod stored;

pub use build::run_build;
pub use stored::store_made;
