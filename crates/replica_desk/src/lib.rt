//! What a replica holds in a cycle beside its processor, and the first three parts of its tick.
#![tactic(auto)]

pub mod desk;
pub mod parts;

pub use desk::Desk;
pub use parts::begin;
