//! The line of a cycle's events, in memory that is taken once.
#![tactic(auto)]

pub mod kept;

pub use kept::CycleLine;

#[cfg(test)]
mod tests;
