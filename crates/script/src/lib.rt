//! Scripts: which replicas fall silent and when, and whose clocks go ahead.
#![tactic(auto)]

pub mod script;

pub use script::{Pace, Script, Silence};

#[cfg(test)]
mod tests;
