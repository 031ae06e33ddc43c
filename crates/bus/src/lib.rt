//! The slots of a bus in types of their own: open, sending, closed. Only a slot that has all its words is
//! seen, so that a frame which was cut can't be taken for whole.
#![tactic(auto)]

pub mod cycle;
pub mod slot;
pub mod slots;

pub use cycle::Bus;
pub use slot::{Closed, Open, Sending, Sent};

#[cfg(test)]
mod tests;
