//! Vectors over the max-plus semiring of costs.
//!
//! The entry 0 is impossible, and an entry v above 0 is the cost v - 1. Of two entries the sum is the greater
//! one and the product is the cost of both. Every result is capped at [`CAP`].
//!
//! Source: F. Baccelli, G. Cohen, G. J. Olsder and J.-P. Quadrat, "Synchronization and Linearity", 1992.
#![tactic(auto)]

mod even;
mod kernel;
#[cfg(test)]
mod tests;
mod turns;

pub use kernel::convolve;
pub use turns::power;

/// The greatest entry that is told apart: all above it are given as this one.
pub const CAP: u64 = 1 << 40;
