//! Scripts as text: which replicas fall silent and when, and whose clocks go ahead, line by line.
#![tactic(auto)]

pub mod entry;
pub mod reader;
pub mod words;

pub use reader::{ScriptFault, read_script};

#[cfg(test)]
mod tests;
