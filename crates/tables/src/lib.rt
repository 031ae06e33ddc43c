//! The tables of a cluster: when each job runs on which unit, and in which frame each message goes; and
//! the eight rules that valid tables keep.
#![tactic(auto)]

mod frames;
mod inputs;
mod jobs;
mod named;
pub mod rule;
pub mod table;
mod units;
pub mod validity;

pub use rule::TableRule;
pub use table::{JobEntry, Message, Tables};
pub use validity::{TableFault, valid};

#[cfg(test)]
mod tests;
