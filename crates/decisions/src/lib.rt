//! What a search for tables chooses: a decision puts a job on a unit, at the first ticks and in the first frames that
//! the decisions before it leave free.
#![tactic(auto)]

pub mod placed;
pub mod problem;

pub use placed::{Choice, Placed, Sent, Ticks};
pub use problem::{Feed, Problem, Work};
