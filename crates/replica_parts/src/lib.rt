//! What a replica takes of the frames on the bus.
#![tactic(auto)]

pub mod frame;
pub mod inbox;

pub use frame::received;
pub use inbox::{Inbox, take_due};

#[cfg(test)]
mod tests;
