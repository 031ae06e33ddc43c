//! The lines of run text, written through a buffer.
#![tactic(auto)]

pub mod line;

pub use line::{write_broken, write_lost, write_out, write_task};

#[cfg(test)]
mod tests;
