//! Things by the numbers at which they are due, each found without a look at the others.
#![tactic(auto)]

pub mod agenda;

pub use agenda::Schedule;

#[cfg(test)]
mod tests;
