//! The script of a file.
#![tactic(auto)]

pub mod read;

pub use read::read_script_file;

#[cfg(test)]
mod tests;
