//! The rules that relate the rows of a project: rounds, deadlines, units, tasks, transactions and circles.
#![tactic(auto)]

pub mod circle;
pub mod relate;
pub mod relation_fault;
