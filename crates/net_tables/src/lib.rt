//! The tables of a net, within a budget.
#![tactic(auto)]

pub mod found;

pub use found::find_tables;
