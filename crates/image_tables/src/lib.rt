//! The entries of tables as fields.
#![tactic(auto)]

pub mod entries;

pub use entries::{JobPart, MessagePart};
