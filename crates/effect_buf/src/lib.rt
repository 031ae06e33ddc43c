//! What is seen of one event, in its order, in memory that is taken once.
#![tactic(auto)]

pub mod buffer;

pub use buffer::EffectBuf;

#[cfg(test)]
mod tests;
