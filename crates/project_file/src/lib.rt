//! The project of a file.
#![tactic(auto)]

pub mod read;

pub use read::read_project_file;

#[cfg(test)]
mod tests;
