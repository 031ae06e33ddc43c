//! The text that shows tables.
#![tactic(auto)]

pub mod line;
pub mod text;

pub use text::write_tables;
