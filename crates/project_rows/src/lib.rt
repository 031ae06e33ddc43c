//! The rules for single rows of a project: limits, names, repeats and counts.
#![tactic(auto)]

pub mod count;
pub mod name;
pub mod range;
pub mod row_fault;
pub mod twice;
