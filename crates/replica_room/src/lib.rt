//! The memory of a replica, all of it taken before its first tick, and what it holds at the start of a cycle.
#![tactic(auto)]

pub mod jobs;
pub mod messages;
pub mod room;
pub mod states;

pub use jobs::{book_of, outs_room, words_given};
pub use messages::{forget, inbox_of};
pub use room::Room;
pub use states::{state_room, states_of};

#[cfg(test)]
mod tests;
