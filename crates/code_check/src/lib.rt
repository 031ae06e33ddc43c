//! Whether code meets the typing rules, and where it first fails one.
#![tactic(auto)]

mod kinds;
mod places;
mod routine;
mod rules;
#[cfg(test)]
mod tests;
pub mod verdict;
mod whole;

pub use verdict::{CodeFault, verify};
