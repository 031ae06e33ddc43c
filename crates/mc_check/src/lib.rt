//! Checks a raw tree against the 17 rules: the first fault, or else the checked task.
#![tactic(auto)]

mod expression;
mod names;
mod number;
mod routine;
mod statement;
mod task;

pub use task::{CheckFault, check};
