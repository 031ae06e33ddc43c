//! What a replica knows of its jobs in a cycle: how far each is, and the outputs of those that ended.
#![tactic(auto)]

pub mod book;

pub use book::JobBook;

#[cfg(test)]
mod tests;
