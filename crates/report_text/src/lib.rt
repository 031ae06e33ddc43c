//! The report of a build: the bound of each task, and how many bytes the image has.
#![tactic(auto)]

pub mod text;

pub use text::report;

#[cfg(test)]
mod tests;
