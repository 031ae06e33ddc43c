//! The command `show IMAGE`.
#![tactic(auto)]

pub mod command;

pub use command::{run_show, show};
