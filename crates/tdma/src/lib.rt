//! The rounds of the TDMA bus: where each slot lies in time, and how many words of each frame are taken.
#![tactic(auto)]

pub mod frames;
pub mod round;

pub use frames::Frames;
pub use round::{Round, SlotPlace};

#[cfg(test)]
mod tests;
