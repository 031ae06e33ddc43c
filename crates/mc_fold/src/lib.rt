//! Constant folding: operators over numbers become their words, and the task means the same.
#![tactic(auto)]

mod expression;
mod statement;
mod task;
#[cfg(test)]
mod tests;

pub use task::fold;
