//! The compiler from texts: code worked by hand, and what the machine makes of it. It is for tests.
#![tactic(auto)]

pub mod run;
#[cfg(test)]
mod tests;

pub use run::{Ran, RowFault, run_text};
