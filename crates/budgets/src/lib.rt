//! The budget of a search, as a word gives it.
#![tactic(auto)]

pub mod budget;

pub use budget::budget_of;

#[cfg(test)]
mod tests;
